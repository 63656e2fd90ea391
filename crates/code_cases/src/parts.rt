//! The parts of inputs.
ghost use Rattle.std.specs.Prelude.{◌<◌, ◌^◌, IfSome, length};

use bits64::Width;
use case_text::Told;
use rtl_read::functions_of;
use rtx_tree::{Function, Functions};
use std::alloc::Global;
use std::str;
use text_cases::trees_in;

/// The parts of an input between bars.
pub fn halves(input: &[u8]) -> Option<(&str, &str)> {
    let Ok(text) = str::from_utf8(input) else {
        return None;
    };
    text.split_once(" | ")
}

/// The 64 bits of a decimal number, which may be negative.
pub fn number(word: &str) -> Option<u64> {
    match word.parse::<i64>() {
        Ok(number) => Some(number.cast_unsigned()),
        Err(_) => word.parse::<u64>().ok(),
    }
}

/// The numbers of a text.
pub fn numbers(alloc: Global, text: &str) -> Option<Vec<u64>> {
    let mut numbers = Vec::new(alloc);
    for word in text.split_whitespace() {
        let Some(number) = number(word) else {
            return None;
        };
        if numbers.push(number).is_err() {
            return None;
        }
    }
    Some(numbers)
}

/// The numbers of an input.
pub fn numbers_in(alloc: Global, input: &[u8]) -> Option<Vec<u64>> {
    match str::from_utf8(input) {
        Ok(text) => numbers(alloc, text),
        Err(_) => None,
    }
}

/// The width of so many bits.
pub fn width(bits: u64) -> Width {
    match bits {
        8 => Width::W8,
        16 => Width::W16,
        32 => Width::W32,
        _ => Width::W64,
    }
}

/// The text of some functions, or of the one with 16 bytes of locals whose chain is given.
fn whole_text(alloc: Global, text: &[u8]) -> Option<Vec<u8>> {
    let mut whole = Told::new(alloc);
    if text.starts_with(b"(function") {
        whole.push(text);
    } else {
        whole.text("(function \"f\" (locals 16) (insn-chain ");
        whole.push(text);
        whole.text("))");
    }
    whole.whole()
}

/// The functions of a text, or the one with 16 bytes of locals whose chain it is.
pub fn functions_in(alloc: Global, text: &[u8]) -> Option<Functions> {
    if let Some(whole) = whole_text(alloc, text)
        && let Some(trees) = trees_in(alloc, whole.as_slice())
    {
        functions_of(alloc, trees.as_slice()).ok()
    } else {
        None
    }
}

/// The last of these functions.
pub fn function_in(alloc: Global, text: &[u8]) -> Option<Function>
    ensures { IfSome result (λ f. length f.insns < 2 ^ 32) }
{
    let Some(mut functions) = functions_in(alloc, text) else {
        return None;
    };
    match functions.pop() {
        Some(f) if f.insns.len() < 100_000 => Some(f),
        _ => None,
    }
}
