//! What descriptions come to, and their lists.
use crate::shelf::Shelf;
use byte_edge::ByteFiles;
use case_text::Told;
use lisp_read::Tree;
use md_list::{ListRefusal, list};
use md_source::{SourceRefusal, gather};
use std::alloc::Global;
use std::str;
use text_cases::show_trees;

/// Appends the trees; of more than 20 only how many there are.
fn show(trees: &[Tree], told: &mut Told) {
    if trees.len() > 20 {
        told.show(trees.len());
        told.text(" trees");
    } else {
        show_trees(trees, told);
    }
}

fn show_refusal(refusal: SourceRefusal, told: &mut Told) {
    match refusal {
        SourceRefusal::Syntax { file, place } => {
            told.text("syntax ");
            told.show(place.line);
            told.text(":");
            told.show(place.column);
            told.text(" in ");
            told.push(file.bytes());
        }
        SourceRefusal::Memory => told.fail(),
        other => told.show(other),
    }
}

/// Appends the names that are asked for, how many bytes were read before the last of them, and what
/// the description of a name comes to.
fn tell_source(alloc: Global, given: &[u8], name: &[u8], told: &mut Told) {
    let Ok(files) = str::from_utf8(given) else {
        return told.fail();
    };
    let mut shelf = Shelf::new(alloc, files);
    let answer = gather(alloc, &mut shelf, name);
    told.push(shelf.names.as_slice());
    told.show(16_777_216u64.wrapping_sub(shelf.room as u64));
    told.text(": ");
    match answer {
        Ok(trees) => show(trees.as_slice(), told),
        Err(refusal) => show_refusal(refusal, told),
    }
}

/// The description `d` that a text is.
fn files_of(alloc: Global, input: &[u8]) -> Option<ByteFiles> {
    let Ok(mut files) = ByteFiles::new(alloc, &[]) else {
        return None;
    };
    if files.put_file(b"d", input).is_err() {
        return None;
    }
    Some(files)
}

/// Appends the list of the description that a text is, or the refusal.
fn tell_list(alloc: Global, input: &[u8], told: &mut Told) {
    let Some(mut files) = files_of(alloc, input) else {
        return told.fail();
    };
    show_list(list(alloc, &mut files, b"d"), told);
}

fn show_list(listed: Result<Vec<u8>, ListRefusal>, told: &mut Told) {
    match listed {
        Ok(text) => told.push(text.as_slice()),
        Err(ListRefusal::Source(refusal)) => show_refusal(refusal, told),
        Err(ListRefusal::Forms) => told.text("forms"),
        Err(ListRefusal::Memory) => told.fail(),
    }
}

/// Tells what comes of an input. Whether it is a table of sources.
pub fn answer(alloc: Global, table: &str, given: &[u8], input: &[u8], told: &mut Told) -> bool {
    match table {
        "sources" => tell_source(alloc, given, input, told),
        "lists" => tell_list(alloc, input, told),
        _ => return false,
    }
    true
}
