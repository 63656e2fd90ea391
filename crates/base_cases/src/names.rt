//! Words and names.
use case_text::Told;
use rtx_tree::{Code, HARD_REGS, Mode, reg_call_used, reg_name, reg_number};
use std::str;
use text_words::{is_symbol, is_symbol_byte, number_in};

fn show_answer(is: bool, told: &mut Told) {
    told.text(if is { "yes" } else { "no" });
}

/// The byte that a text writes as a number.
fn byte_in(input: &[u8]) -> Option<u8> {
    match str::from_utf8(input) {
        Ok(text) => text.parse::<u8>().ok(),
        Err(_) => None,
    }
}

/// Appends the number that a text writes, or `none`.
pub fn tell_number(input: &[u8], told: &mut Told) {
    match number_in(input) {
        Some(number) => told.show(number),
        None => told.text("none"),
    }
}

/// Appends whether a text is a symbol.
pub fn tell_symbol(input: &[u8], told: &mut Told) {
    show_answer(is_symbol(input), told);
}

/// Appends whether a symbol may have a byte.
pub fn tell_symbol_byte(input: &[u8], told: &mut Told) {
    match byte_in(input) {
        Some(byte) => show_answer(is_symbol_byte(byte), told),
        None => told.fail(),
    }
}

/// Appends the name of the code of that name, or `none`.
pub fn tell_code(input: &[u8], told: &mut Told) {
    told.text(match Code::named(input) {
        Some(code) => code.name(),
        None => "none",
    });
}

/// Appends the name of the mode of that name, or `none`.
pub fn tell_mode(input: &[u8], told: &mut Told) {
    told.text(match Mode::named(input) {
        Some(mode) => mode.name(),
        None => "none",
    });
}

/// Appends the number of the register of a name, and the name of that number.
pub fn tell_register(input: &[u8], told: &mut Told) {
    match reg_number(input) {
        Some(number) if number < HARD_REGS => {
            told.show(number);
            told.text(" ");
            told.text(reg_name(number));
        }
        Some(_) => told.text("no hard register"),
        None => told.text("none"),
    }
}

/// Appends whether a call may change the register of a number.
pub fn tell_call_used(input: &[u8], told: &mut Told) {
    match byte_in(input) {
        Some(reg) => show_answer(reg_call_used(reg), told),
        None => told.fail(),
    }
}
