//! Places in a text.

/// Where a byte stands in a text. Lines, columns and offsets are counted in bytes.
#[derive(Clone, Copy, Debug)]
pub struct Place {
    /// The line, from 1.
    pub line: u32,
    /// The column in the line, from 1.
    pub column: u32,
    /// How many bytes stand before it in the text.
    pub offset: u64,
}
