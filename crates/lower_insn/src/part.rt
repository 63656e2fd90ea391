//! What is still to be made of an instruction.
use plain_data::Items;
use rtx_tree::{Kids, Operands, Rtx};
use std_name::StandardOperand;

/// The operands of an instruction as a form asks for them, with what makes them so.
#[derive(Drop)]
pub struct Prepared {
    /// What stands before the instruction, in order.
    pub before: Kids,
    /// The operands.
    pub operands: Items<StandardOperand>,
    /// What stands behind it, in order.
    pub after: Kids,
    /// The next free pseudo register.
    pub next: u32,
}

/// How an instruction is made by a form.
#[derive(Drop)]
pub struct Plan {
    /// The index of the form.
    pub form: u32,
    /// What stands before what the form emits, in order.
    pub before: Kids,
    /// The form's operands.
    pub operands: Operands,
    /// What stands behind it, in order.
    pub after: Kids,
    /// The next free pseudo register.
    pub next: u32,
}

/// A part of a flat sequence that is still to be made.
#[derive(Drop)]
pub enum Part {
    /// A pattern that is to be lowered, which lowering itself may have made.
    Lower {
        made: bool,
        tree: Rtx,
    },
    /// A form that emits, with its operands, what stands for a pattern.
    Emit {
        made: bool,
        tree: Rtx,
        form: u32,
        operands: Operands,
    },
    /// What was emitted.
    Emitted {
        tree: Rtx,
    },
}

/// The uids of the instructions in the place of one.
#[derive(Clone, Copy)]
pub struct Uids {
    /// The instruction's own, which the last one has.
    pub own: u32,
    /// The first new one. The others take it and those behind it.
    pub first: u32,
}

/// What an instruction is lowered to.
#[derive(Drop)]
pub struct Lowered {
    /// The index of the form of its standard name.
    pub form: u32,
    /// What stands in its place, in order.
    pub sequence: Kids,
}
