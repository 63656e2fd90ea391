//! The words that are known before a text is read.
ghost use Rattle.std.specs.Prelude.{◌≡◌, ◌++◌, map, IfOk, OnOk};
ghost use Rattle.rtx_tree.specs.Code.{all_codes};
ghost use Rattle.c_words.specs.Words.{all_keywords, keyword_name};
ghost use Rattle.c_words.specs.machine.Known as spec;

use crate::keyword::{Keyword, all_keywords};
use crate::word::is_small;
use name_places::Constants;
use plain_data::{Items, Memory};
use rtx_tree::{Code, Name};
use std::alloc::Global;

fn capital(byte: u8) -> u8
    ensures { result ≡ spec.capital byte }
{
    if is_small(byte) { byte - 32 } else { byte }
}

/// The word that a code is in C.
fn code_word(alloc: Global, code: Code) -> Result<Name, Memory>
    ensures { IfOk result (λ word. word ≡ spec.code_word code) }
{
    let mut letters = Vec::new(alloc);
    for byte in code.name().as_bytes() {
        letters.push(capital(*byte))?;
    }
    Ok(Name::from_vec(letters))
}

fn first_words(alloc: Global) -> Result<Items<Name>, Memory>
    ensures { IfOk result (λ words. words ≡ spec.first_words) }
{
    let mut words = Items::new(alloc);
    words.push(Name::of(alloc, b"TARGET_")?)?;
    words.push(Name::of(alloc, b"SIMPLE_RETURN")?)?;
    words.push(Name::of(alloc, b"VOIDmode")?)?;
    words.push(Name::of(alloc, b"QImode")?)?;
    words.push(Name::of(alloc, b"HImode")?)?;
    words.push(Name::of(alloc, b"SImode")?)?;
    words.push(Name::of(alloc, b"DImode")?)?;
    Ok(words)
}

fn push_keywords(alloc: Global, words: &mut Items<Name>) -> Result<(), Memory>
    ensures { OnOk result (words.new ≡ words.old ++ map keyword_name all_keywords) }
{
    for keyword in all_keywords() {
        words.push(Name::of(alloc, keyword.name().as_bytes())?)?;
    }
    Ok(())
}

fn push_codes(alloc: Global, words: &mut Items<Name>) -> Result<(), Memory>
    ensures { OnOk result (words.new ≡ words.old ++ map spec.code_word all_codes) }
{
    for code in Code::all() {
        words.push(code_word(alloc, *code)?)?;
    }
    Ok(())
}

fn push_constants(
    alloc: Global,
    constants: &Constants,
    words: &mut Items<Name>,
) -> Result<(), Memory>
    ensures { OnOk result (words.new ≡ words.old ++ map (λ c. c.name) constants.now) }
{
    for constant in constants.as_slice() {
        words.push(constant.name.copy(alloc)?)?;
    }
    Ok(())
}

/// The words that are known before a text is read: what begins the names of facts of the target,
/// the modes, the keywords, the codes, and the names of constants.
pub fn known_words(alloc: Global, constants: &Constants) -> Result<Items<Name>, Memory>
    ensures { IfOk result (λ words. words ≡ spec.known_words constants.now) }
{
    let mut words = first_words(alloc)?;
    push_keywords(alloc, &mut words)?;
    push_codes(alloc, &mut words)?;
    push_constants(alloc, constants, &mut words)?;
    Ok(words)
}
