//! The parts of inputs.
use lisp_read::{Tree, is_word, items, rtx_of_tree};
use md_forms::Forms;
use rtx_tree::{Operands, Rtx};
use std::alloc::Global;
use std::str;
use text_cases::{tree_in, trees_in};
use tree_forms::forms_of_trees;

/// The two parts of an input, on both sides of a bar.
pub fn halves(input: &[u8]) -> Option<(&[u8], &[u8])> {
    let Ok(text) = str::from_utf8(input) else {
        return None;
    };
    let Some((first, second)) = text.split_once("|") else {
        return None;
    };
    Some((first.as_bytes(), second.as_bytes()))
}

/// The forms of a description.
pub fn forms_in(alloc: Global, text: &[u8]) -> Option<Forms> {
    let Some(trees) = trees_in(alloc, text) else {
        return None;
    };
    forms_of_trees(alloc, trees.as_slice()).ok()
}

/// The expression that a text writes.
pub fn expression_in(alloc: Global, text: &[u8]) -> Option<Rtx> {
    let Some(tree) = tree_in(alloc, text) else {
        return None;
    };
    rtx_of_tree(alloc, &tree).ok()
}

/// What stands behind the word in the first list that begins with it.
pub fn behind_word<'a>(trees: &'a [Tree], word: &[u8]) -> &'a [Tree] {
    for tree in trees {
        if let [head, parts @ ..] = items(tree)
            && is_word(head, word)
        {
            return parts;
        }
    }
    &[]
}

/// Puts the operand that a tree writes under a number; `-` is a missing one. Whether the tree
/// writes one.
fn put_operand(alloc: Global, number: u32, tree: &Tree, operands: &mut Operands) -> bool {
    if is_word(tree, b"-") {
        return true;
    }
    match rtx_of_tree(alloc, tree) {
        Ok(x) => operands.put(number, x).is_ok(),
        Err(_) => false,
    }
}

/// The operands that some trees write, in order; `-` is a missing one.
pub fn operands_of(alloc: Global, trees: &[Tree]) -> Option<Operands> {
    let mut operands = Operands::new(alloc);
    let mut number: u32 = 0;
    for tree in trees {
        if !put_operand(alloc, number, tree, &mut operands) {
            return None;
        }
        number = number.saturating_add(1);
    }
    Some(operands)
}
