//! What code is made of, as far as its places go.

/// A piece of code.
#[derive(Clone, Copy)]
pub enum Piece {
    /// It has so many words.
    Fixed {
        /// How many.
        words: usize,
    },
    /// A branch: one word where it reaches, else two.
    Branch {
        /// The number of the piece that it leads to. One behind the last means the end.
        to: usize,
    },
}
