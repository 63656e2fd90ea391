//! Standard names with their operands.

use plain_data::Items;
use rtx_tree::{Mode, Name, Rtx};

/// How an operand stands in its instruction.
#[derive(Clone, Copy)]
pub enum OperandRole {
    /// What the instruction sets.
    Target,
    /// A value that it takes.
    Input,
    /// A comparison of the two operands behind it, of which it is made.
    Comparison,
    /// A label, or a constant that has its place: it can't be put into a register.
    Fixed,
}

/// An operand of an instruction that has a standard name.
#[derive(Drop)]
pub struct StandardOperand {
    /// What stands in the instruction.
    pub tree: Rtx,
    /// How the operand stands in the instruction.
    pub role: OperandRole,
    /// The mode of a register that could stand in its place; `Void` where the form's operand says
    /// it.
    pub mode: Mode,
}

/// A standard name, with the operands that it speaks of.
#[derive(Drop)]
pub struct Standard {
    /// The name, as `addsi3`.
    pub name: Name,
    /// The operands, in the order of the name's form.
    pub operands: Items<StandardOperand>,
}
