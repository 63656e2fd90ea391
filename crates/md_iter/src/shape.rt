//! The trees of vectors.
ghost use Rattle.std.specs.Prelude.{◌≡◌, option_map};
ghost use Rattle.md_iter.specs.Shape as spec;

use lisp_read::Tree;

/// The trees of a vector.
pub fn vector(tree: &Tree) -> Option<&[Tree]>
    ensures { option_map (λ trees. trees.now) result ≡ spec.vector_of tree.now }
{
    match tree {
        Tree::Vector { items, .. } => Some(items.as_slice()),
        _ => None,
    }
}
