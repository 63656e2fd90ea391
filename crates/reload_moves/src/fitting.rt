//! How operands stand in an alternative.
use plain_data::Items;

/// How an operand stands in an alternative, before ties are looked at.
#[derive(Clone, Copy)]
pub enum Standing {
    /// The operand stays as it is, with a register in its address where a slot holds its base.
    Stays,
    /// The operand stays at a far base.
    Far,
    /// The digits of the operand decide.
    Tied,
    /// The operand is moved.
    Moves,
}

/// A digit of an operand's constraint.
#[derive(Clone, Copy)]
pub struct Digit {
    /// Where the operand that it names stands among the operands.
    pub place: usize,
    /// Whether the operand that it names is the same tree.
    pub same: bool,
}

/// What registers and moves ask of an operand.
#[derive(Clone, Copy)]
pub struct Needs {
    /// The instruction takes its value.
    pub is_input: bool,
    /// The instruction sets it.
    pub is_output: bool,
    /// A slot holds the base of its address.
    pub has_base: bool,
    /// How far that slot is from `sp`, where it is far.
    pub slot_far: Option<i64>,
    /// How far its own memory is from `sp`, where it is far.
    pub far: Option<i64>,
}

/// An operand in an alternative.
#[derive(Drop)]
pub struct Fitting {
    /// The operand's place among the operands.
    pub place: usize,
    /// How the operand stands in the alternative.
    pub standing: Standing,
    /// The digits of its constraint, in order.
    pub digits: Items<Digit>,
    /// What registers and moves ask of it.
    pub needs: Needs,
}
