//! Functions and their canonical text.
use crate::shown::show_refusal;
use crate::trees::trees_in;
use case_text::Told;
use rtl_print::print_function;
use rtl_read::functions_of;
use rtx_tree::{Function, Insn};
use std::alloc::Global;

/// Appends the canonical text of functions.
fn show_canonical(functions: &[Function], told: &mut Told) {
    for function in functions {
        let is_printed = print_function(function, &mut told.out).is_ok();
        told.need(is_printed);
    }
}

/// Appends the canonical text of a text's functions, or the first construct outside. Whether there
/// is none.
fn push_canonical(alloc: Global, text: &[u8], told: &mut Told) -> bool {
    let Some(trees) = trees_in(alloc, text) else {
        told.fail();
        return false;
    };
    match functions_of(alloc, trees.as_slice()) {
        Ok(functions) => {
            show_canonical(functions.as_slice(), told);
            true
        }
        Err(refusal) => {
            show_refusal(&refusal, told);
            false
        }
    }
}

/// Appends lines as one, with a blank in front of each that opens a list.
fn push_joined(lines: &[u8], told: &mut Told) {
    for line in lines.split(|byte| *byte == b'\n') {
        let line = line.trim_ascii_start();
        if line.starts_with(b"(") {
            told.gap();
        }
        told.push(line);
    }
}

/// Appends the canonical text of functions on one line, and whether it isn't read as the same
/// again; or the first construct outside.
pub fn tell_canonical(alloc: Global, text: &[u8], told: &mut Told) {
    let mut lines = Told::new(alloc);
    if push_canonical(alloc, text, &mut lines) {
        let mut again = Told::new(alloc);
        push_canonical(alloc, lines.out.as_slice(), &mut again);
        if again.out.as_slice() != lines.out.as_slice() {
            told.text("read back otherwise ");
        }
    }
    push_joined(lines.out.as_slice(), told);
    told.need(lines.is_whole());
}

/// Appends the uid, the kind and the uses of an instruction.
fn show_insn(insn: &Insn, told: &mut Told) {
    told.text(" ");
    told.show(insn.uid);
    told.text(" ");
    told.debug(&insn.kind);
    for arg in insn.uses.as_slice() {
        told.text(" ");
        told.show(arg.reg);
        told.text(":");
        told.debug(&arg.mode);
    }
    told.text(",");
}

/// Appends the locals, the result, and the parts of each instruction.
fn show_parts(f: &Function, told: &mut Told) {
    told.text("locals ");
    told.show(f.locals);
    told.text(", ");
    told.debug(&f.result);
    told.text(" in ");
    told.show(f.result_reg);
    told.text(";");
    for insn in f.insns.as_slice() {
        show_insn(insn, told);
    }
}

/// Appends what a text's functions consist of.
pub fn tell_parts(alloc: Global, text: &[u8], told: &mut Told) {
    if let Some(trees) = trees_in(alloc, text)
        && let Ok(functions) = functions_of(alloc, trees.as_slice())
    {
        for function in functions.as_slice() {
            show_parts(function, told);
        }
    } else {
        told.fail();
    }
}
