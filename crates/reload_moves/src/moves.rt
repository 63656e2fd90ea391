//! Moves.

/// A move of an operand, or of what its address needs.
#[derive(Clone, Copy)]
pub enum Move {
    /// A far base is made.
    Far {
        /// The register in which it is made.
        into: u32,
        /// How far it lies from `sp`, in bytes.
        offset: i64,
    },
    /// The base that a slot holds is loaded.
    Base {
        /// The register that takes it.
        into: u32,
        /// Where the operand stands whose base it is.
        place: usize,
    },
    /// An input is moved.
    In {
        /// The register that takes it.
        into: u32,
        /// Where the operand stands.
        place: usize,
        /// The register in its address, if there is one.
        base: Option<u32>,
    },
    /// A result is moved.
    Out {
        /// The register that holds it.
        from: u32,
        /// Where the operand stands.
        place: usize,
        /// The register in its address, if there is one.
        base: Option<u32>,
    },
}
