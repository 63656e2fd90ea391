//! Cuts an expression into words and what stands between them.
ghost use Rattle.std.specs.Prelude.{◌≡◌, ◌++◌, IfOk, OnOk};
ghost use Rattle.dfa_ways.specs.Tokens as spec;
ghost use Rattle.dfa_ways.specs.machine.Lexing.{word_alone};

use plain_data::{Items, Memory};
use rtx_tree::Name;
use std::alloc::Global;
use text_words::is_blank;

/// What stands between words.
#[derive(Clone, Copy)]
pub enum Mark {
    Blank,
    Comma,
    Bar,
    Plus,
    Star,
    Open,
    Close,
}

/// A part of an expression.
#[derive(Drop)]
pub enum Token {
    Mark(Mark),
    /// A run of bytes of which none is a mark.
    Word(Name),
}

#[tactic(auto, unfolding(crate::specs::Tokens::mark_of))]
fn mark_of(byte: u8) -> Option<Mark>
    ensures { result ≡ spec.mark_of byte }
{
    match byte {
        b',' => Some(Mark::Comma),
        b'|' => Some(Mark::Bar),
        b'+' => Some(Mark::Plus),
        b'*' => Some(Mark::Star),
        b'(' => Some(Mark::Open),
        b')' => Some(Mark::Close),
        _ if is_blank(byte) => Some(Mark::Blank),
        _ => None,
    }
}

/// Puts a word behind some tokens, if it has a byte.
fn push_word(tokens: &mut Items<Token>, word: Vec<u8>) -> Result<(), Memory>
    ensures { OnOk result (tokens.new ≡ tokens.old ++ word_alone word.items) }
{
    if word.len() > 0 {
        tokens.push(Token::Word(Name::from_vec(word)))?;
    }
    Ok(())
}

/// The tokens of a text.
#[tactic(auto, using(crate::proofs::Lexes::letter, crate::proofs::Lexes::marked, crate::proofs::Lexes::ended))]
pub fn tokens_of(alloc: Global, text: &[u8]) -> Result<Items<Token>, Memory>
    ensures { IfOk result (λ tokens. tokens ≡ spec.tokens text.now) }
{
    let mut tokens = Items::new(alloc);
    let mut word = Vec::new(alloc);
    for byte in text {
        let Some(mark) = mark_of(*byte) else {
            word.push(*byte)?;
            continue;
        };
        push_word(&mut tokens, word)?;
        tokens.push(Token::Mark(mark))?;
        word = Vec::new(alloc);
    }
    push_word(&mut tokens, word)?;
    Ok(tokens)
}
