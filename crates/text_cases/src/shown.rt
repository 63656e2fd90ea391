//! Expressions, with registers by their numbers.
use crate::trees::trees_in;
use case_text::Told;
use lisp_read::{RtlRefusal, rtx_of_tree};
use rtx_tree::{Code, Rtx};
use std::alloc::Global;

/// Appends an expression with its registers by their numbers.
pub fn show(x: &Rtx, told: &mut Told) {
    told.text("(");
    told.text(x.code.name());
    if !x.mode.name().is_empty() {
        told.text(":");
        told.text(x.mode.name());
    }
    if matches!(x.code, Code::Reg | Code::ConstInt) || x.number != 0 {
        told.text(" ");
        told.show(x.number);
    }
    if !x.name.bytes().is_empty() {
        told.text(" ");
        told.push(x.name.bytes());
    }
    for kid in x.kids.as_slice() {
        told.text(" ");
        show(kid, told);
    }
    told.text(")");
}

/// Appends the place and the name of the first construct outside.
pub fn show_refusal(refusal: &RtlRefusal, told: &mut Told) {
    match refusal {
        RtlRefusal::Construct { place, name } => {
            told.show(place.line);
            told.text(":");
            told.show(place.column);
            told.text(" ");
            told.push(name.bytes());
        }
        RtlRefusal::Memory => told.fail(),
    }
}

/// Appends what each tree stands for: an expression, or the first construct outside.
pub fn tell_expressions(alloc: Global, text: &[u8], told: &mut Told) {
    let Some(trees) = trees_in(alloc, text) else {
        return told.fail();
    };
    for tree in trees.as_slice() {
        match rtx_of_tree(alloc, tree) {
            Ok(x) => show(&x, told),
            Err(refusal) => show_refusal(&refusal, told),
        }
    }
}
