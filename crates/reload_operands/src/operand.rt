//! What reload knows of an operand.
use rtx_tree::{Mode, Rtx};

/// The slot in which the base of an address lives, and what is added to the base.
#[derive(Clone, Copy)]
pub struct Base {
    /// The slot's offset from `sp`.
    pub slot: u64,
    /// The constant added; 0 where the base stands alone.
    pub added: i64,
}

/// An operand of an instruction.
#[derive(Drop)]
pub struct Operand {
    /// The operand's number in the pattern.
    pub number: u32,
    /// The operand itself, with its homes.
    pub tree: Rtx,
    /// The mode of a move of it: its own, else that of its placeholder; `Void` where neither has
    /// one.
    pub mode: Mode,
    /// Whether a `match_operator` gives it.
    pub is_operator: bool,
    /// Whether the operand is a `scratch`.
    pub is_scratch: bool,
    /// Whether its predicate is `address_operand`.
    pub is_address: bool,
    /// Whether the pattern takes its value.
    pub is_input: bool,
    /// Whether the pattern sets it.
    pub is_output: bool,
    /// Whether the pattern clobbers it.
    pub is_clobbered: bool,
    /// Whether the operand stands inside an effect of which the pattern doesn't say what it does
    /// with it: one that an operator matches as a whole, or one that is no `clobber` and has it as
    /// a scratch. The operand may be no input and no output then, though the instruction takes it
    /// or changes it.
    pub is_hidden: bool,
    /// Whether the operand is a register, or the low part of one, that lives in a slot.
    pub in_slot: bool,
    /// Whether the operand has a place inside a low part.
    pub in_lowpart: bool,
    /// The base of its address, or of the sum that it is, where that lives in a slot.
    pub base: Option<Base>,
    /// Whether the instruction changes a register of its address: a hard one, or one in a slot that
    /// is not its base.
    pub changed_address: bool,
    /// Whether the instruction changes another memory.
    pub other_memory: bool,
}
