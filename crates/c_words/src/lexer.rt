//! Cuts a text into its tokens.
ghost use Rattle.std.specs.Prelude.{◌≡◌, ◌++◌, ◌∷◌, [], List, ℕ, IfOk, OnOk};
ghost use Rattle.c_words.specs.Tokens as spec;
ghost use Rattle.text_words.specs.Numbers.{c_number_in};
ghost use Rattle.c_words.specs.declared.lexer.Pending.TheVariants as Pending;
ghost use Rattle.c_words.specs.machine.Lexing.{at, begun, behind_run, behind_two, read_byte, last_token, read_all};

use crate::token::{Token, operator_of_two, token_of_byte};
use plain_data::{Items, Memory};
use rtx_tree::Name;
use std::alloc::Global;
use std::mem;
use text_words::{c_number_in, is_blank};

/// What may go on with the next byte.
#[derive(Drop)]
pub enum Pending {
    Nothing,
    /// A run of letters, digits and underscores.
    Run(Items<u8>),
    /// A byte that may be the first of an operator.
    Byte(u8),
}

fn is_digit(byte: u8) -> bool
    ensures { result ≡ spec.is_digit byte }
{
    b'0' <= byte && byte <= b'9'
}

/// Whether a byte is a letter, a digit or an underscore.
pub fn in_word(byte: u8) -> bool
    ensures { result ≡ spec.in_word byte }
{
    is_digit(byte)
        || ((b'a' <= byte && byte <= b'z') || ((b'A' <= byte && byte <= b'Z') || byte == b'_'))
}

fn number_token(run: &[u8]) -> Token
    ensures { result ≡ spec.number_or_bad (c_number_in run.now) }
{
    match c_number_in(run) {
        Some(number) => Token::Number(number),
        None => Token::Bad,
    }
}

fn is_no_word(run: &[u8]) -> bool
    ensures { result ≡ spec.is_no_word run.now }
{
    match run {
        [] => true,
        [first, ..] => is_digit(*first),
    }
}

/// The token that a run is.
pub fn token_of_run(run: Items<u8>) -> Token
    ensures { result ≡ spec.token_of_run run }
{
    if is_no_word(run.as_slice()) {
        number_token(run.as_slice())
    } else {
        Token::Word(Name::from_vec(run.into_vec()))
    }
}

/// The tokens so far, and what may still go on.
#[derive(Drop)]
pub struct Lexer {
    pub tokens: Items<Token>,
    pub pending: Pending,
}

impl Lexer {
    /// Nothing has been read. It takes no memory.
    pub fn new(alloc: Global) -> Lexer
        ensures { result ≡ at [] Pending.Nothing }
    {
        Lexer {
            tokens: Items::new(alloc),
            pending: Pending::Nothing,
        }
    }

    /// Begins a piece with this byte.
    fn begin(&mut self, alloc: Global, byte: u8) -> Result<(), Memory>
        ensures { OnOk result (self.new ≡ begun self.old.tokens byte) }
    {
        if in_word(byte) {
            let mut run = Items::new(alloc);
            run.push(byte)?;
            self.pending = Pending::Run(run);
        } else if is_blank(byte) {
            self.pending = Pending::Nothing;
        } else {
            self.pending = Pending::Byte(byte);
        }
        Ok(())
    }

    /// A byte behind a run.
    fn behind_run(&mut self, alloc: Global, mut run: Items<u8>, byte: u8) -> Result<(), Memory>
        ensures { OnOk result (self.new ≡ behind_run self.old.tokens run byte) }
    {
        if in_word(byte) {
            run.push(byte)?;
            self.pending = Pending::Run(run);
            return Ok(());
        }
        self.tokens.push(token_of_run(run))?;
        self.begin(alloc, byte)
    }

    /// A byte behind one that may be the first of an operator.
    fn behind_byte(&mut self, alloc: Global, first: u8, byte: u8) -> Result<(), Memory>
        ensures { OnOk result (self.new ≡ behind_two self.old.tokens first byte
            (spec.operator_of_two first byte)) }
    {
        match operator_of_two(first, byte) {
            Some(operator) => {
                self.tokens.push(Token::Operator(operator))?;
                self.pending = Pending::Nothing;
                Ok(())
            }
            None => {
                self.tokens.push(token_of_byte(first))?;
                self.begin(alloc, byte)
            }
        }
    }

    /// The next byte.
    pub fn read(&mut self, alloc: Global, byte: u8) -> Result<(), Memory>
        ensures { OnOk result (self.new ≡ read_byte self.old byte) }
    {
        match mem::replace(&mut self.pending, Pending::Nothing) {
            Pending::Nothing => self.begin(alloc, byte),
            Pending::Run(run) => self.behind_run(alloc, run, byte),
            Pending::Byte(first) => self.behind_byte(alloc, first, byte),
        }
    }

    /// All tokens, where the text ends here.
    fn finish(self) -> Result<Items<Token>, Memory>
        ensures { IfOk result (λ tokens. tokens ≡ self.tokens ++ last_token self.pending) }
    {
        let Lexer {
            mut tokens,
            pending,
        } = self;
        match pending {
            Pending::Nothing => {}
            Pending::Run(run) => tokens.push(token_of_run(run))?,
            Pending::Byte(byte) => tokens.push(token_of_byte(byte))?,
        }
        Ok(tokens)
    }
}

fn read_text(alloc: Global, text: &[u8]) -> Result<Items<Token>, Memory>
    ensures { IfOk result (λ tokens. tokens ≡ read_all (at [] Pending.Nothing) text.now) }
{
    let mut lexer = Lexer::new(alloc);
    for byte in text {
        lexer.read(alloc, *byte)?;
    }
    lexer.finish()
}

/// The tokens of a text.
pub fn tokens_in(alloc: Global, text: &[u8]) -> Result<Items<Token>, Memory>
    ensures { IfOk result (λ tokens. tokens ≡ spec.tokens_in text.now) }
{
    read_text(alloc, text)
}
