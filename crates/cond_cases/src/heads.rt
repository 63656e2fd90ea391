//! The heads of conditions and statements.
use crate::iterators::constants_in;
use c_cond::{Cond, CondRefusal, parse_cond, parse_prep, parse_test};
use c_words::CondHead;
use case_text::Told;
use std::alloc::Global;

/// Appends a head in few letters.
fn show_head(head: &CondHead, told: &mut Told) {
    match head {
        CondHead::Number(number) => told.show(*number),
        CondHead::Operand(number) => show_operand(*number, told),
        CondHead::Window(number) => {
            told.text("@");
            told.show(*number);
        }
        CondHead::Mode(mode) => told.debug(mode),
        CondHead::CodeIs { code, equal } => {
            told.debug(code);
            show_equal(*equal, told);
        }
        CondHead::ModeIs { mode, equal } => {
            told.debug(mode);
            show_equal(*equal, told);
        }
        CondHead::Unary(operator) => told.debug(operator),
        CondHead::Binary(operator) => told.debug(operator),
        CondHead::Call(call) => told.debug(call),
        CondHead::Predicate(name) => {
            told.text("'");
            told.push(name.bytes());
            told.text("'");
        }
        CondHead::Assign(number) => {
            show_operand(*number, told);
            told.text("=");
        }
        _ => told.debug(head),
    }
}

fn show_operand(number: u32, told: &mut Told) {
    told.text("%");
    told.show(number);
}

fn show_equal(equal: bool, told: &mut Told) {
    told.text(if equal { ":true" } else { ":false" });
}

/// Appends the heads of a tree, each behind its parts.
fn show(heads: &[CondHead], told: &mut Told) {
    for head in heads {
        told.gap();
        show_head(head, told);
    }
}

/// Appends from where on a text is outside.
fn show_refusal(refusal: CondRefusal, told: &mut Told) {
    match refusal {
        CondRefusal::Outside { offset } => {
            told.text("outside from ");
            told.show(offset);
        }
        CondRefusal::Memory => told.fail(),
    }
}

/// Appends the heads of a condition, by its copy.
fn show_copy(alloc: Global, cond: &Cond, told: &mut Told) {
    match cond.copy(alloc) {
        Ok(copy) => show(copy.heads(), told),
        Err(_) => told.fail(),
    }
}

/// Appends the heads of what a condition is parsed to, or from where on it is outside.
pub fn tell_cond(alloc: Global, given: &[u8], text: &[u8], told: &mut Told) {
    let Some(list) = constants_in(alloc, given) else {
        return told.fail();
    };
    match parse_cond(alloc, text, &list) {
        Ok(cond) => show_copy(alloc, &cond, told),
        Err(refusal) => show_refusal(refusal, told),
    }
}

/// Appends the heads of what a test is parsed to, or from where on it is outside.
pub fn tell_test(alloc: Global, given: &[u8], text: &[u8], told: &mut Told) {
    let Some(list) = constants_in(alloc, given) else {
        return told.fail();
    };
    match parse_test(alloc, text, &list) {
        Ok(test) => show(test.heads(), told),
        Err(refusal) => show_refusal(refusal, told),
    }
}

/// Appends the heads of what preparations are parsed to, or from where on they are outside.
pub fn tell_prep(alloc: Global, given: &[u8], text: &[u8], told: &mut Told) {
    let Some(list) = constants_in(alloc, given) else {
        return told.fail();
    };
    match parse_prep(alloc, text, &list) {
        Ok(prep) => show(prep.heads(), told),
        Err(refusal) => show_refusal(refusal, told),
    }
}
