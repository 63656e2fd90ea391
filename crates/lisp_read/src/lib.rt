//! Reads the text of machine descriptions and of textual RTL as trees, and a tree as an expression
//! of RTL.
//!
//! [`read_trees`] answers exactly as the text format says (`specs/Text.antt` is its grammar,
//! `specs/Reading.antt` says what reading is): the trees that the bytes are a text of, each with
//! its place; or the place that ends the longest prefix that begins a text; or the place of the
//! first byte that opens a list or a vector within 200 that are still open. Bytes have one such
//! reading at most, and only want of memory can keep an answer back. The code does not recurse over
//! the text: what is open stands on a stack, and open braces are counted.
//!
//! [`rtx_of_tree`] gives the expression that a tree stands for, or the first tree in it that is
//! outside the language: `specs/Positions.antt` is the table of what may stand where,
//! `specs/Expression.antt` says at which position each part of a code stands, `specs/Head.antt` and
//! `specs/Leaf.antt` what the words are. There are as many parts as the row of the code says. It
//! goes as deep as the tree, which is bounded where `read_trees` gave it.
#![tactic(auto)]

mod class;
mod expression;
mod head;
mod leaf;
mod mode;
mod position;
mod read;
mod reader;
mod refusal;
mod shape;
mod stack;
mod tree;

pub use expression::rtx_of_tree;
pub use head::{are_flags, cut, head_words};
pub use leaf::{below, quoted_name, uid_in};
pub use read::{ReadRefusal, read_trees};
pub use refusal::RtlRefusal;
pub use shape::{all_nested, atom, is_nested, is_vector, is_word, items, outside, string, vector};
pub use tree::{Tree, Trees};
