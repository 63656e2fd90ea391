//! Tokens, words and names of registers.
use crate::iterators::constants_in;
use c_words::{Dialect, Token, atom_of, code_in_capitals, known_words, mode_named, tokens_in};
use case_text::Told;
use rtx_tree::{reg_name, reg_number};
use rv_target::shipped;
use std::alloc::Global;

fn show_token(token: &Token, told: &mut Told) {
    match token {
        Token::Number(number) => told.show(*number),
        Token::Word(word) => {
            told.text("'");
            told.push(word.bytes());
            told.text("'");
        }
        Token::Operator(operator) => told.debug(operator),
        Token::Mark(byte) => told.show(*byte),
        Token::Bad => told.text("bad"),
    }
}

/// Appends the tokens of a text.
pub fn tell_tokens(alloc: Global, text: &[u8], told: &mut Told) {
    let Ok(tokens) = tokens_in(alloc, text) else {
        return told.fail();
    };
    for token in tokens.as_slice() {
        told.gap();
        show_token(token, told);
    }
}

/// Appends what a word means where an expression may begin, and the code and the mode that it
/// names.
pub fn tell_word(alloc: Global, given: &[u8], word: &[u8], told: &mut Told) {
    if let Some(list) = constants_in(alloc, given)
        && let Ok(atom) = atom_of(alloc, Dialect::Condition, &list, word)
        && let Ok(code) = code_in_capitals(alloc, word)
    {
        told.debug(&atom);
        told.text(" ");
        told.debug(&code);
        told.text(" ");
        told.debug(&mode_named(word));
    } else {
        told.fail();
    }
}

/// Appends how many words are known.
pub fn tell_known(alloc: Global, given: &[u8], told: &mut Told) {
    if let Some(list) = constants_in(alloc, given)
        && let Ok(words) = known_words(alloc, &list)
    {
        told.show(words.len());
    } else {
        told.fail();
    }
}

/// Appends the number of the register with a name, and the name of the register with that number.
pub fn tell_register(name: &[u8], told: &mut Told) {
    match reg_number(name) {
        Some(reg) if reg < 32 => {
            told.show(reg);
            told.text(" ");
            told.text(reg_name(reg));
        }
        _ => told.text("none"),
    }
}

/// Appends the length of the shipped text, its first line and its last.
pub fn tell_shipped(told: &mut Told) {
    let text = shipped();
    told.show(text.len());
    told.text(" ");
    told.text(text.lines().next().unwrap_or(""));
    told.text(" ");
    told.text(text.lines().last().unwrap_or(""));
}
