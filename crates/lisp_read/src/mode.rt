//! Where in a text a byte stands.
use plain_data::Items;
use rtx_tree::Place;

/// What the bytes so far leave open but for lists and vectors.
#[derive(Drop)]
pub enum Mode {
    /// Between trees.
    Between,
    /// In a comment up to the end of the line.
    Line,
    /// Behind a `/` where a tree may begin: an atom, or a comment.
    Slash {
        place: Place,
    },
    /// In a comment between `/*` and `*/`.
    Comment,
    /// In such a comment, behind a `*`.
    CommentStar,
    /// In an atom, or behind it.
    Atom {
        place: Place,
        text: Items<u8>,
    },
    /// In a string.
    Str {
        place: Place,
        text: Items<u8>,
    },
    /// In a string, behind a backslash.
    StrEscape {
        place: Place,
        text: Items<u8>,
    },
    /// In a block, with so many more braces open in it.
    Block {
        place: Place,
        depth: u64,
        text: Items<u8>,
    },
    /// In a block, behind a backslash.
    BlockEscape {
        place: Place,
        depth: u64,
        text: Items<u8>,
    },
}
