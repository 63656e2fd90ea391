//! The base instruction of a word.
use case_text::Told;
use rv_word::{Base, decode, encode};
use text_words::c_number_in;

/// The word of 32 bits that a text writes as C does.
fn word_in(text: &[u8]) -> Option<u32> {
    match c_number_in(text) {
        Some(number) => u32::try_from(number).ok(),
        None => None,
    }
}

/// Appends the parts of an instruction, and where its word is another one.
fn show_base(word: u32, base: Base, told: &mut Told) {
    told.text("rd ");
    told.show(base.rd);
    told.text(" rs1 ");
    told.show(base.rs1);
    told.text(" rs2 ");
    told.show(base.rs2);
    told.text(" imm ");
    told.show(base.imm);
    told.text(if encode(base) == word {
        ""
    } else {
        " has another word"
    });
}

/// Appends the parts of the base instruction of a word, or that there is none.
pub fn tell_base(input: &[u8], told: &mut Told) {
    let Some(word) = word_in(input) else {
        return told.fail();
    };
    match decode(word) {
        Some(base) => show_base(word, base, told),
        None => told.text("none"),
    }
}
