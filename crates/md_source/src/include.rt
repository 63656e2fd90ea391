//! The directive that includes a file.
ghost use Rattle.std.specs.Prelude.{◌≡◌};
ghost use Rattle.std.specs.Option.{option_copied};
ghost use Rattle.md_source.specs.Include.{name_in, included_name, include_some};

use lisp_read::{Tree, is_word, items, string};
use rtx_tree::Name;

/// The name of the file that a tree includes: the tree is the list of the word `include` and one
/// string.
pub fn included_name(tree: &Tree) -> Option<&Name>
    ensures { option_copied result ≡ included_name tree.now }
{
    match items(tree) {
        [word, name] if is_word(word, b"include") => string(name),
        _ => None,
    }
}

/// Whether a tree among some includes a file.
pub fn include_some(trees: &[Tree]) -> bool
    ensures { result ≡ include_some trees.now }
{
    trees.iter().any(|tree| included_name(tree).is_some())
}
