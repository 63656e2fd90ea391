//! The candidates of operands, and how other choices of them differ from a first.

/// How many candidates an operand has, and which of them it has, counted from 0.
#[derive(Clone, Copy)]
pub struct Picked {
    /// How many.
    pub count: usize,
    /// Which.
    pub own: usize,
}

/// How a choice differs from the first.
#[derive(Clone, Copy)]
pub enum Change {
    /// In nothing.
    Itself,
    /// An operand has another candidate.
    One {
        /// The operand.
        operand: usize,
        /// Its candidate.
        candidate: usize,
    },
    /// Two operands have one register.
    Shared {
        /// The one.
        first: usize,
        /// The other, which is behind it.
        second: usize,
    },
    /// All operands have one register.
    Every,
    /// Two operands have other candidates.
    Two {
        /// The one.
        first: usize,
        /// Its candidate.
        candidate: usize,
        /// The other, which is behind it.
        second: usize,
        /// The other's candidate.
        other: usize,
    },
}
