//! Texts and their trees.
use case_text::Told;
use lisp_read::{ReadRefusal, Tree, Trees, read_trees};
use rtx_tree::Place;
use std::alloc::Global;
use tree_print::print_tree;

/// The longest text of a case.
const LONGEST: usize = 1_000_000;

/// The trees of a text, if it has trees.
pub fn trees_in(alloc: Global, text: &[u8]) -> Option<Trees> {
    if text.len() > LONGEST {
        return None;
    }
    read_trees(alloc, text).ok()
}

/// The only tree of a text.
pub fn tree_in(alloc: Global, text: &[u8]) -> Option<Tree> {
    let mut trees = trees_in(alloc, text)?;
    let tree = trees.pop();
    if trees.is_empty() { tree } else { None }
}

/// Appends how many trees a text has, or the place of the refusal.
pub fn tell_text(alloc: Global, text: &[u8], told: &mut Told) {
    if text.len() > LONGEST {
        return told.fail();
    }
    match read_trees(alloc, text) {
        Ok(trees) => told.show(trees.len()),
        Err(ReadRefusal::Syntax { place }) => show_place("syntax ", place, told),
        Err(ReadRefusal::Depth { place }) => show_place("depth ", place, told),
        Err(ReadRefusal::Memory) => told.fail(),
    }
}

fn show_place(what: &str, place: Place, told: &mut Told) {
    told.text(what);
    told.show(place.line);
    told.text(":");
    told.show(place.column);
    told.text(":");
    told.show(place.offset);
}

fn show_tree_at(place: Place, text: &[u8], told: &mut Told) {
    told.gap();
    told.show(place.line);
    told.text(":");
    told.show(place.column);
    told.text(" ");
    told.push(text);
    told.text(";");
}

/// Appends the line and the column of each tree, and the text of a leaf.
pub fn tell_places(alloc: Global, text: &[u8], told: &mut Told) {
    let Some(trees) = trees_in(alloc, text) else {
        return told.fail();
    };
    for tree in trees.as_slice() {
        match tree {
            Tree::Atom { place, text } | Tree::Str { place, text } | Tree::Block { place, text } =>
                { show_tree_at(*place, text.bytes(), told) }
            Tree::List { place, .. } | Tree::Vector { place, .. } => {
                show_tree_at(*place, b"list", told)
            }
        }
    }
}

/// Appends the trees as they are printed, with a blank between each two.
pub fn tell_printed(alloc: Global, text: &[u8], told: &mut Told) {
    match trees_in(alloc, text) {
        Some(trees) => show_trees(trees.as_slice(), told),
        None => told.fail(),
    }
}

/// Appends a tree as it is printed.
pub fn show_tree(tree: &Tree, told: &mut Told) {
    let is_printed = print_tree(tree, &mut told.out).is_ok();
    told.need(is_printed);
}

/// Appends some trees, with a blank between each two.
pub fn show_trees(trees: &[Tree], told: &mut Told) {
    let mut gap = b"".as_slice();
    for tree in trees {
        told.push(gap);
        show_tree(tree, told);
        gap = b" ";
    }
}
