//! Templates that are filled, and the lines of texts.
use crate::parts::{halves, operands_of};
use case_text::Told;
use lisp_read::{Tree, atom};
use md_output::{fill, lines_of};
use md_text::{Reading, Template, template_of};
use std::alloc::Global;
use text_cases::trees_in;
use text_words::number_in;

/// The number that a tree writes; one of more than 32 bits is their greatest.
fn number_of(tree: &Tree) -> u32 {
    match atom(tree) {
        Some(word) => match number_in(word.bytes()) {
            Some(number) => u32::try_from(number).unwrap_or(u32::MAX),
            None => u32::MAX,
        },
        None => u32::MAX,
    }
}

fn show_filled(alloc: Global, template: &Template, trees: &[Tree], told: &mut Told) {
    let [alternative, function, uid, operands @ ..] = trees else {
        told.fail();
        return;
    };
    match operands_of(alloc, operands) {
        Some(operands) => {
            let is_filled = fill(
                template,
                number_of(alternative),
                &operands,
                number_of(function),
                number_of(uid),
                &mut told.out,
            )
            .is_ok();
            told.need(is_filled);
        }
        None => told.fail(),
    }
}

/// Tells the text that a template gives, in angle brackets. The input is the alternative, the
/// function's number, the uid and the operands, and behind a bar the template.
fn tell_filled(alloc: Global, input: &[u8], told: &mut Told) {
    if let Some((first, second)) = halves(input)
        && let Ok(Reading::Template(template)) = template_of(alloc, second)
        && let Some(trees) = trees_in(alloc, first)
    {
        told.text("<");
        show_filled(alloc, &template, trees.as_slice(), told);
        told.text(">");
    } else {
        told.fail();
    }
}

/// Tells the lines of a text, each in angle brackets.
fn tell_lines(alloc: Global, input: &[u8], told: &mut Told) {
    match lines_of(alloc, input) {
        Ok(lines) => {
            for line in lines.as_slice() {
                told.text("<");
                told.push(line.bytes());
                told.text(">");
            }
        }
        Err(_) => told.fail(),
    }
}

/// Tells what comes of an input. Whether it is a table of templates.
pub fn answer(alloc: Global, table: &str, input: &[u8], told: &mut Told) -> bool {
    match table {
        "filled templates" => tell_filled(alloc, input, told),
        "lines of texts" => tell_lines(alloc, input, told),
        _ => return false,
    }
    true
}
