//! What a tree of the text is, looked at from outside.
ghost use Rattle.std.specs.Prelude.{◌≡◌};
ghost use Rattle.std.specs.List.{list_all};
ghost use Rattle.std.specs.Option.{option_copied};
ghost use Rattle.lisp_read.specs.Shape.{place_of, atom_of, string_of, items_of, vector_of, is_vector, is_nested, is_word, first_atom, first_there};
ghost use Rattle.lisp_read.specs.Parsed.{IsOutside};

use crate::refusal::RtlRefusal;
use crate::tree::Tree;
use rtx_tree::{Name, Place};
use std::alloc::Global;

/// The place of a tree's first byte.
pub fn place_of(tree: &Tree) -> Place
    ensures { result ≡ place_of tree.now }
{
    match tree {
        Tree::Atom { place, .. }
        | Tree::Str { place, .. }
        | Tree::Block { place, .. }
        | Tree::List { place, .. }
        | Tree::Vector { place, .. } => *place,
    }
}

/// The text of an atom.
pub fn atom(tree: &Tree) -> Option<&Name>
    ensures { option_copied result ≡ atom_of tree.now }
{
    match tree {
        Tree::Atom { text, .. } => Some(text),
        _ => None,
    }
}

/// The text between the quotes of a string.
pub fn string(tree: &Tree) -> Option<&Name>
    ensures { option_copied result ≡ string_of tree.now }
{
    match tree {
        Tree::Str { text, .. } => Some(text),
        _ => None,
    }
}

/// The trees of a list; none where the tree is no list.
pub fn items(tree: &Tree) -> &[Tree]
    ensures { result.now ≡ items_of tree.now }
{
    match tree {
        Tree::List { items, .. } => items.as_slice(),
        _ => &[],
    }
}

/// The trees of a vector; none where the tree is no vector.
pub fn vector(tree: &Tree) -> &[Tree]
    ensures { result.now ≡ vector_of tree.now }
{
    match tree {
        Tree::Vector { items, .. } => items.as_slice(),
        _ => &[],
    }
}

/// Whether the tree is a vector.
pub fn is_vector(tree: &Tree) -> bool
    ensures { result ≡ is_vector tree.now }
{
    matches!(tree, Tree::Vector { .. })
}

/// Whether the tree is a list or a vector.
pub fn is_nested(tree: &Tree) -> bool
    ensures { result ≡ is_nested tree.now }
{
    match tree {
        Tree::List { .. } | Tree::Vector { .. } => true,
        _ => false,
    }
}

/// Whether all are lists and vectors.
pub fn all_nested(trees: &[Tree]) -> bool
    ensures { result ≡ list_all is_nested trees.now }
{
    for tree in trees {
        if !is_nested(tree) {
            return false;
        }
    }
    true
}

/// Whether the tree is the atom of this text.
pub fn is_word(tree: &Tree, word: &[u8]) -> bool
    ensures { result ≡ is_word word.now tree.now }
{
    match atom(tree) {
        Some(text) => text.bytes() == word,
        None => false,
    }
}

/// The first atom in the order of the text, at any depth.
fn first_atom(tree: &Tree) -> Option<&Name>
    ensures { option_copied result ≡ first_atom tree.now }
{
    match tree {
        Tree::Atom { text, .. } => Some(text),
        Tree::Str { .. } | Tree::Block { .. } => None,
        Tree::List { items, .. } | Tree::Vector { items, .. } => {
            for item in items.as_slice() {
                let found = first_atom(item);
                if found.is_some() {
                    return found;
                }
            }
            None
        }
    }
}

/// The refusal of a tree that is itself outside the language.
pub fn outside(alloc: Global, tree: &Tree) -> RtlRefusal
    ensures { IsOutside result tree.now }
{
    let place = place_of(tree);
    let name = match first_atom(tree) {
        Some(name) => name.copy(alloc),
        None => Name::of(alloc, b"-"),
    };
    match name {
        Ok(name) => RtlRefusal::Construct { place, name },
        Err(_) => RtlRefusal::Memory,
    }
}
