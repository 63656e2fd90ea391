//! The atom at the head of an expression: the code that it names, and whether it is that of a
//! `parallel`.
ghost use Rattle.std.specs.Prelude.{◌≡◌};
ghost use Rattle.std.specs.Option.{option_copied};
ghost use Rattle.lisp_read.specs.Shape.{items_of};
ghost use Rattle.rtl_read.specs.Word as spec;
ghost use Rattle.rtl_read.specs.machine.Head as own;

use lisp_read::{Tree, are_flags, atom, cut, items};
use rtx_tree::{Code, Name};

/// The word of a head, without its flags and its mode.
pub fn head_word(text: &[u8]) -> &[u8]
    ensures { result.now ≡ spec.head_word text.now }
{
    let (front, _) = cut(text, b':');
    let (word, _) = cut(front, b'/');
    word
}

/// The head that a list begins with.
pub fn head_of_list(tree: &Tree) -> Option<&Name>
    ensures { option_copied result ≡ spec.head_of_list (items_of tree.now) }
{
    match items(tree) {
        [head, ..] => atom(head),
        [] => None,
    }
}

/// The code that the head of a tree names, whatever its flags and its mode.
pub fn named_code(tree: &Tree) -> Option<Code>
    ensures { result ≡ spec.named_code tree.now }
{
    Code::written(head_word(head_of_list(tree)?.bytes()))
}

fn flags_pass(flags: Option<&[u8]>) -> bool
    ensures { result ≡ own.flags_pass (option_copied flags.entry) }
{
    match flags {
        None => true,
        Some(flags) => are_flags(flags),
    }
}

/// Whether a text is the head of a `parallel`, which has no mode.
pub fn is_parallel_head(text: &[u8]) -> bool
    ensures { result ≡ own.is_parallel_head text.now }
{
    let (front, mode) = cut(text, b':');
    let (name, flags) = cut(front, b'/');
    matches!(Code::written(name), Some(Code::Parallel)) && (mode.is_none() && flags_pass(flags))
}
