//! A function and some lines, and what is told of them.
use case_text::Told;
use code_eval::eval_text;
use lisp_read::read_trees;
use plain_data::Items;
use rtl_read::functions_of;
use rtx_tree::{Function, Functions};
use rv_text::{CodeItem, parse_line};
use std::alloc::Global;
use std::str;

/// The text of the function with these parts.
fn text_of(alloc: Global, parts: &str) -> Option<Vec<u8>> {
    let mut text = Told::new(alloc);
    text.text("(function \"f\" ");
    text.text(parts);
    text.text(")");
    text.whole()
}

/// The function with these parts, alone.
fn functions_in(alloc: Global, parts: &str) -> Option<Functions> {
    let Some(text) = text_of(alloc, parts) else {
        return None;
    };
    if text.len() > 16_777_216 {
        return None;
    }
    match read_trees(alloc, text.as_slice()) {
        Ok(trees) => functions_of(alloc, trees.as_slice()).ok(),
        Err(_) => None,
    }
}

/// The lines of a text, as items.
fn items_of(alloc: Global, lines: &str) -> Option<Items<CodeItem>> {
    let mut items = Items::new(alloc);
    for text in lines.split(" ; ") {
        let Ok(Some(line)) = parse_line(alloc, text.as_bytes()) else {
            return None;
        };
        if items.push(CodeItem::Code { line }).is_err() {
            return None;
        }
    }
    Some(items)
}

/// The steps and the first two arguments.
fn numbers_of(text: &str) -> Option<(u16, u64, u64)> {
    let mut words = text.split(' ');
    if let Ok(steps) = words.next().unwrap_or("").parse::<u16>()
        && let Ok(a0) = words.next().unwrap_or("").parse::<u64>()
        && let Ok(a1) = words.next().unwrap_or("").parse::<u64>()
    {
        Some((steps, a0, a1))
    } else {
        None
    }
}

fn show(
    alloc: Global,
    function: &Function,
    items: &[CodeItem],
    numbers: (u16, u64, u64),
    told: &mut Told,
) {
    let (steps, a0, a1) = numbers;
    match eval_text(alloc, function, items, steps, [a0, a1, 0, 0, 0, 0, 0, 0]) {
        Ok(text) => told.push(text.as_slice()),
        Err(_) => told.fail(),
    }
}

/// Appends what is told of the function and the lines.
pub fn tell(alloc: Global, input: &[u8], told: &mut Told) {
    let Ok(text) = str::from_utf8(input) else {
        return told.fail();
    };
    let mut parts = text.split(" | ");
    if let Some(numbers) = numbers_of(parts.next().unwrap_or(""))
        && let Some(functions) = functions_in(alloc, parts.next().unwrap_or(""))
        && let [function] = functions.as_slice()
        && let Some(items) = items_of(alloc, parts.next().unwrap_or(""))
    {
        show(alloc, function, items.as_slice(), numbers, told);
    } else {
        told.fail();
    }
}
