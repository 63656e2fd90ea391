//! What the predicates of the manual accept, classes and addresses.
use crate::parts::expression_in;
use case_text::Told;
use lisp_read::{Tree, atom, rtx_of_tree};
use md_operand::{BuiltIn, frame_reference, is_memory, is_register, is_symbol, legitimate_address};
use rtx_tree::Mode;
use rv_regs::{Class, in_class};
use std::alloc::Global;
use text_cases::trees_in;

fn show_answer(is: bool, told: &mut Told) {
    told.apart(if is { "yes" } else { "no" });
}

/// Appends whether a predicate accepts each of some trees in a mode.
fn show_accepted(alloc: Global, own: BuiltIn, mode: Mode, operands: &[Tree], told: &mut Told) {
    for tree in operands {
        match rtx_of_tree(alloc, tree) {
            Ok(x) => show_answer(own.accepts(mode, &x), told),
            Err(_) => told.fail(),
        }
    }
}

fn show_own(alloc: Global, name: &[u8], mode: &[u8], operands: &[Tree], told: &mut Told) {
    match BuiltIn::named(if name == b"-".as_slice() { b"" } else { name }) {
        Some(own) => {
            let mode = Mode::named(mode).unwrap_or(Mode::Void);
            show_accepted(alloc, own, mode, operands, told);
        }
        None => told.text("unknown"),
    }
}

/// Appends whether a predicate accepts each of some trees in a mode; the mode `-` is none.
fn tell_own(alloc: Global, input: &[u8], told: &mut Told) {
    let Some(trees) = trees_in(alloc, input) else {
        return told.fail();
    };
    if let [name, mode, operands @ ..] = trees.as_slice()
        && let Some(name) = atom(name)
        && let Some(mode) = atom(mode)
    {
        show_own(alloc, name.bytes(), mode.bytes(), operands, told);
    } else {
        told.fail();
    }
}

/// Appends a kind where a tree is of it.
fn show_kind(is: bool, kind: &str, told: &mut Told) {
    if is {
        told.apart(kind);
    }
}

/// Appends what a tree is to constraints.
fn tell_kind(alloc: Global, input: &[u8], told: &mut Told) {
    let Some(x) = expression_in(alloc, input) else {
        return told.fail();
    };
    show_kind(is_register(&x), "register", told);
    show_kind(is_memory(&x), "memory", told);
    show_kind(x.is_constant(), "constant", told);
    show_kind(is_symbol(&x), "symbol", told);
}

/// Appends whether a tree is a legitimate address, and whether it refers to the frame.
fn tell_address(alloc: Global, input: &[u8], told: &mut Told) {
    let Some(x) = expression_in(alloc, input) else {
        return told.fail();
    };
    show_answer(legitimate_address(&x), told);
    show_answer(frame_reference(&x), told);
}

/// Appends the registers of a class.
fn tell_class(input: &[u8], told: &mut Told) {
    let class = match input {
        b"general" => Class::General,
        b"args" => Class::Args,
        b"saved" => Class::Saved,
        _ => Class::Nothing,
    };
    for reg in 0..=255 {
        if in_class(class, reg) {
            told.gap();
            told.show(reg);
        }
    }
}

/// Tells what comes of an input. Whether it is a table of operands.
pub fn answer(alloc: Global, table: &str, input: &[u8], told: &mut Told) -> bool {
    match table {
        "predicates of the manual" => tell_own(alloc, input, told),
        "kinds of operands" => tell_kind(alloc, input, told),
        "addresses" => tell_address(alloc, input, told),
        "classes" => tell_class(input, told),
        _ => return false,
    }
    true
}
