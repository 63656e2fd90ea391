//! What a run leaves, as text.
use crate::fault::Fault;
use case_text::{Told, push_shown};
use std::alloc::Global;

/// Appends a part: its head, and its bytes, with a backquote where no newline ends them. What is
/// empty is no part.
fn push_part(head: &str, bytes: &[u8], out: &mut Told) {
    match bytes {
        [] => {}
        [front @ .., b'\n'] => {
            out.text(head);
            push_shown(front, true, out);
        }
        _ => {
            out.text(head);
            push_shown(bytes, true, out);
            out.text("`");
        }
    }
}

/// The text of a status and of what was written, in the form of a case.
pub fn outcome(alloc: Global, status: u8, output: &[u8], errors: &[u8]) -> Result<Vec<u8>, Fault> {
    let mut text = Told::new(alloc);
    text.text("-- status ");
    text.show(status);
    push_part("\n-- output\n", output, &mut text);
    push_part("\n-- errors\n", errors, &mut text);
    match text.whole() {
        Some(text) => Ok(text),
        None => Err(Fault::Memory),
    }
}
