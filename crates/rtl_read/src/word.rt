//! The words of RTL's text, and lists by the word that they begin with.
ghost use Rattle.std.specs.Prelude.{◌≡◌};
ghost use Rattle.lisp_read.specs.Shape as shape;
ghost use Rattle.rtl_read.specs.Word as spec;

use lisp_read::{Tree, atom, is_word, items, uid_in};

/// The number of 32 bits that an atom writes.
pub fn number_of(tree: &Tree) -> Option<u32>
    ensures { result ≡ spec.number_of tree.now }
{
    uid_in(atom(tree)?.bytes())
}

/// Whether the tree is a list that begins with this word.
pub fn is_headed(tree: &Tree, word: &[u8]) -> bool
    ensures { result ≡ spec.is_headed word.now tree.now }
{
    match items(tree) {
        [head, ..] => is_word(head, word),
        [] => false,
    }
}

/// Whether the tree is the list of this word alone.
pub fn is_alone(tree: &Tree, word: &[u8]) -> bool
    ensures { result ≡ spec.is_alone word.now (shape.items_of tree.now) }
{
    match items(tree) {
        [head] => is_word(head, word),
        _ => false,
    }
}
