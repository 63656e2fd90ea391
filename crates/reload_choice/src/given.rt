//! What is given and what is chosen.
use plain_data::Items;
use reload_moves::Part;
use reload_operands::{Operand, Whole};
use rtx_tree::{Kind, Rtx};

/// An instruction that a form matches, with homes put in.
#[derive(Drop)]
pub struct Given {
    /// The form's pattern.
    pub pattern: Rtx,
    /// The instruction's kind.
    pub kind: Kind,
    /// The instruction, with homes put in.
    pub insn: Rtx,
    /// The operands of the instruction.
    pub operands: Items<Operand>,
    /// What the instruction changes as a whole.
    pub whole: Whole,
}

/// What is done with the operands of an instruction.
#[derive(Drop)]
pub struct Plan {
    /// What the plan costs.
    pub cost: u64,
    /// The operands, with what is moved.
    pub parts: Items<Part>,
}
