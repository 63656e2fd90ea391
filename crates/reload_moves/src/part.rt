//! Operands, once it is settled what is moved.
use crate::fitting::Needs;

/// An operand, once it is settled what is moved in an alternative.
#[derive(Clone, Copy)]
pub struct Part {
    /// The operand's place among the operands.
    pub place: usize,
    /// The place of the operand that stands for those which share a register or a base with it.
    pub holder: usize,
    /// Whether the operand is moved.
    pub is_moved: bool,
    /// What registers and moves ask of it.
    pub needs: Needs,
}
