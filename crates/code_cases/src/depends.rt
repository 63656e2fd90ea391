//! What is told of the dependences of instructions.
use crate::parts::function_in;
use case_text::Told;
use insn_depends::dependence;
use std::alloc::Global;

/// The latency of the first instruction.
const LATENCY: u32 = 7;

/// Appends how many cycles lie at least between two instructions, of which the first has a latency
/// of 7, or that the second doesn't depend on the first.
fn tell_dependence(alloc: Global, input: &[u8], told: &mut Told) {
    if let Some(f) = function_in(alloc, input)
        && let [earlier, later] = f.insns.as_slice()
        && let Ok(weight) = dependence(LATENCY, earlier, later)
    {
        match weight {
            Some(weight) => told.show(weight),
            None => told.text("none"),
        }
    } else {
        told.fail();
    }
}

/// Tells what comes of an input. Whether it is a table of dependences.
pub fn answer(alloc: Global, table: &str, input: &[u8], told: &mut Told) -> bool {
    match table {
        "dependence" => tell_dependence(alloc, input, told),
        _ => return false,
    }
    true
}
