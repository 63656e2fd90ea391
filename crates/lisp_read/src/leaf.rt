//! The expressions whose parts are words: registers, constants, labels and symbols.
ghost use Rattle.std.specs.Prelude.{◌≡◌, ◌≤◌, IfOk, option_and_then};
ghost use Rattle.rtx_tree.specs.Patterns.{label_rtx};
ghost use Rattle.std.specs.Option.{option_copied};
ghost use Rattle.lisp_read.specs.Leaf as spec;
ghost use Rattle.lisp_read.specs.Parsed.{Gives};
ghost use Rattle.lisp_read.specs.Shape.{atom_of, items_of};

use crate::position::Position;
use crate::refusal::RtlRefusal;
use crate::shape::{atom, is_nested, items, outside, string};
use crate::tree::Tree;
use plain_data::Memory;
use rtx_tree::{Class, Code, Mode, Name, Rtx, VIRTUAL_STACK_VARS, pseudo, reg_number};
use std::alloc::Global;
use text_words::{is_symbol, number_in};

/// A number from 0 up to, and without, a limit.
pub fn below(limit: u64, number: i64) -> Option<u32>
    requires { limit ≤ 4294967296 }
    ensures { result ≡ spec.below limit number }
{
    if number >= 0 && number.unsigned_abs() < limit {
        Some(number as u32)
    } else {
        None
    }
}

/// What stands between `<` and `>`.
fn angled_in(text: &[u8]) -> Option<&[u8]>
    ensures { option_copied result ≡ spec.angled_in text.now }
{
    match text {
        [b'<', inner @ .., b'>'] => Some(inner),
        _ => None,
    }
}

/// `<K>`, the number of a pseudo register.
fn pseudo_in(text: &[u8]) -> Option<u32>
    ensures { result ≡ spec.pseudo_in text.now }
{
    let number = number_in(angled_in(text)?)?;
    let k = below(2_147_483_648, number)?;
    Some(pseudo(k))
}

/// `virtual-stack-vars`.
fn stack_vars_in(text: &[u8]) -> Option<u32>
    ensures { result ≡ spec.stack_vars_in text.now }
{
    if text == b"virtual-stack-vars".as_slice() {
        Some(VIRTUAL_STACK_VARS)
    } else {
        None
    }
}

/// A hard register by its name.
fn hard_in(text: &[u8]) -> Option<u32>
    ensures { result ≡ spec.hard_in text.now }
{
    let reg = reg_number(text)?;
    Some(u32::from(reg))
}

/// A register: a hard one by its name, `virtual-stack-vars`, or a pseudo register.
fn register_in(text: &[u8]) -> Option<u32>
    ensures { result ≡ spec.register_in text.now }
{
    if let Some(reg) = hard_in(text) {
        return Some(reg);
    }
    if let Some(reg) = stack_vars_in(text) {
        return Some(reg);
    }
    pseudo_in(text)
}

fn register_at(alloc: Global, position: Position, mode: Mode, text: &[u8]) -> Option<Rtx>
    ensures { result ≡ spec.register_at position mode text.now }
{
    let reg = register_in(text)?;
    if position.admits_register(reg) {
        Some(Rtx::reg(alloc, mode, reg))
    } else {
        None
    }
}

fn constant_in(alloc: Global, text: &[u8]) -> Option<Rtx>
    ensures { result ≡ spec.constant_in text.now }
{
    let number = number_in(text)?;
    Some(Rtx::const_int(alloc, number))
}

/// A label's uid, which has 32 bits.
pub fn uid_in(text: &[u8]) -> Option<u32>
    ensures { result ≡ spec.uid_in text.now }
{
    let number = number_in(text)?;
    below(4_294_967_296, number)
}

fn label_of(alloc: Global, uid: u32) -> Result<Rtx, Memory>
    ensures { IfOk result (λ x. x ≡ label_rtx uid) }
{
    let uid = Rtx::const_int(alloc, i64::from(uid));
    Rtx::of_one(alloc, Code::LabelRef, Mode::Void, uid)
}

fn label_in(alloc: Global, text: &[u8]) -> Result<Option<Rtx>, Memory>
    ensures { IfOk result (λ x. x ≡ spec.label_in text.now) }
{
    match uid_in(text) {
        Some(uid) => Ok(Some(label_of(alloc, uid)?)),
        None => Ok(None),
    }
}

/// What the word behind the head says.
fn word_at(
    alloc: Global,
    class: Class,
    position: Position,
    mode: Mode,
    text: &[u8],
) -> Result<Option<Rtx>, Memory>
    ensures { IfOk result (λ x. x ≡ spec.word_at class position mode text.now) }
{
    match class {
        Class::Register => Ok(register_at(alloc, position, mode, text)),
        Class::Constant => Ok(constant_in(alloc, text)),
        Class::Label => label_in(alloc, text),
        _ => Ok(None),
    }
}

fn word_of(
    alloc: Global,
    class: Class,
    position: Position,
    mode: Mode,
    word: &Tree,
) -> Result<Option<Rtx>, Memory>
    ensures { IfOk result (λ x. x ≡ option_and_then (spec.word_at class position mode)
        (atom_of word.now)) }
{
    match atom(word) {
        Some(text) => word_at(alloc, class, position, mode, text.bytes()),
        None => Ok(None),
    }
}

/// The expression of a list whose head a word follows.
pub fn word(
    alloc: Global,
    class: Class,
    position: Position,
    mode: Mode,
    tree: &Tree,
) -> Result<Rtx, RtlRefusal>
    ensures { Gives result (spec.word_with tree.now class position mode (items_of tree.now)) }
{
    match items(tree) {
        [_, word, ..] => match word_of(alloc, class, position, mode, word)? {
            Some(x) => Ok(x),
            None => Err(outside(alloc, tree)),
        },
        _ => Err(outside(alloc, tree)),
    }
}

/// A name without the star in front of it.
fn unstarred(text: &[u8]) -> &[u8]
    ensures { result.now ≡ spec.unstarred text.now }
{
    match text {
        [b'*', rest @ ..] => rest,
        _ => text,
    }
}

/// The symbol that a name in quotes writes.
fn symbol_of(text: &[u8]) -> Option<&[u8]>
    ensures { option_copied result ≡ spec.symbol_of text.now }
{
    let name = unstarred(text);
    if is_symbol(name) { Some(name) } else { None }
}

/// The symbol that `("NAME")` writes, without a star in front of it.
pub fn quoted_name(tree: &Tree) -> Option<&[u8]>
    ensures { option_copied result ≡ spec.quoted_name (items_of tree.now) }
{
    match items(tree) {
        [text] => symbol_of(string(text)?.bytes()),
        _ => None,
    }
}

fn symbol_at(alloc: Global, mode: Mode, tree: &Tree) -> Result<Rtx, RtlRefusal>
    ensures { Gives result (spec.symbol_at mode tree.now) }
{
    match quoted_name(tree) {
        Some(name) => Ok(Rtx::of_name(alloc, Code::SymbolRef, mode, Name::of(alloc, name)?)),
        None => Err(outside(alloc, tree)),
    }
}

/// `(symbol_ref:MODE ("NAME"))`.
pub fn symbol(alloc: Global, mode: Mode, tree: &Tree) -> Result<Rtx, RtlRefusal>
    ensures { Gives result (spec.symbol_with tree.now mode (items_of tree.now)) }
{
    match items(tree) {
        [_, name, ..] if is_nested(name) => symbol_at(alloc, mode, name),
        _ => Err(outside(alloc, tree)),
    }
}
