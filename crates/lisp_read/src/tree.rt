//! Trees of a text.
ghost use Rattle.std.specs.Prelude.{◌≡◌, IfOk};

use crate::class::Bracket;
use plain_data::{Items, Memory};
use rtx_tree::{Name, Place};
use std::alloc::Global;

/// A tree of a text, with the place of its first byte. Contracts see it as plain data: two trees
/// are equal in a clause where they agree in all parts, places included.
#[derive(Drop)]
pub enum Tree {
    /// A run of bytes from 33 to 126 other than `( ) [ ] { } " ;`.
    Atom { place: Place, text: Name },
    /// A string. Its text is what stands between the quotes, with the backslashes.
    Str { place: Place, text: Name },
    /// A block. Its text is what stands between the braces, with the backslashes.
    Block { place: Place, text: Name },
    /// A list: trees in parentheses.
    List { place: Place, items: Trees },
    /// A vector: trees in square brackets.
    Vector { place: Place, items: Trees },
}

/// A list of trees.
pub type Trees = Items<Tree>;

/// How many trees are moved to a room of their own size. More keep the start of the room in which
/// they grew, so that a long list is never held twice.
const MOST_MOVED: usize = 16;

/// The same trees in just the room that they take. A list grows in a room for four trees at least;
/// where few are moved out of it, the next list grows there.
pub(crate) fn fitted(alloc: Global, trees: Trees) -> Result<Trees, Memory>
    ensures { IfOk result (λ same. same ≡ trees) }
{
    let mut grown = trees.into_vec();
    if grown.len() > MOST_MOVED {
        grown.shrink_to_fit();
        return Ok(Items::from_vec(grown));
    }
    let mut moved = Vec::with_capacity(alloc, grown.len())?;
    moved.append(&mut grown)?;
    Ok(Items::from_vec(moved))
}

impl Tree {
    ghost use Rattle.lisp_read.specs.Part.{parts_of, parts_of_all, enclosed};

    /// A list or a vector.
    pub(crate) fn nested(kind: Bracket, place: Place, items: Trees) -> Tree
        ensures { parts_of result ≡ enclosed kind place (parts_of_all items) }
    {
        match kind {
            Bracket::Round => Tree::List { place, items },
            Bracket::Square => Tree::Vector { place, items },
        }
    }

    /// A copy of the tree, places included.
    #[cycle(copy)]
    pub fn copy(&self, alloc: Global) -> Result<Tree, Memory>
        ensures { IfOk result (λ tree. tree ≡ self.now) }
    {
        match self {
            Tree::Atom { place, text } => Ok(Tree::Atom {
                place: *place,
                text: text.copy(alloc)?,
            }),
            Tree::Str { place, text } => Ok(Tree::Str {
                place: *place,
                text: text.copy(alloc)?,
            }),
            Tree::Block { place, text } => Ok(Tree::Block {
                place: *place,
                text: text.copy(alloc)?,
            }),
            Tree::List { place, items } => Ok(Tree::List {
                place: *place,
                items: copy_trees(alloc, items.as_slice())?,
            }),
            Tree::Vector { place, items } => Ok(Tree::Vector {
                place: *place,
                items: copy_trees(alloc, items.as_slice())?,
            }),
        }
    }
}

#[cycle(copy)]
fn copy_trees(alloc: Global, trees: &[Tree]) -> Result<Trees, Memory>
    ensures { IfOk result (λ copies. copies ≡ trees.now) }
{
    let mut copies = Items::new(alloc);
    for tree in trees {
        copies.push(tree.copy(alloc)?)?;
    }
    Ok(copies)
}
