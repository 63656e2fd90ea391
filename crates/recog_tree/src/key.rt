//! The key of an instruction, and that of a form.
ghost use Rattle.std.specs.Prelude.{◌≡◌, not};
ghost use Rattle.std.specs.List.{find};
ghost use Rattle.std.specs.Option.{option_copied};
ghost use Rattle.md_recog.specs.Recog.{is_scratch};
ghost use Rattle.recog_tree.specs.Key as spec;

use c_eval::same_code;
use md_forms::{Entry, Form};
use md_match::{Role, role_of};
use md_recog::{Half, is_scratch};
use rtx_tree::{Code, Rtx};

/// By what forms are found: a code, with the code of a source.
#[derive(Clone, Copy)]
pub struct Key {
    /// The code of the whole expression.
    pub code: Code,
    /// The code of its source, where it has one.
    pub source: Option<Code>,
}

/// Whether an expression of this code stands for others in a pattern.
fn is_wild(code: Code) -> bool
    ensures { result ≡ spec.is_wild code }
{
    !matches!(role_of(code), Role::Itself)
}

/// The code of the part with a number.
fn part_code(x: &Rtx, number: usize) -> Option<Code>
    ensures { result ≡ spec.part_code x.now number }
{
    match x.kids.as_slice().get(number) {
        Some(part) => Some(part.code),
        None => None,
    }
}

/// The code of the source of one effect.
fn effect_source(x: &Rtx) -> Option<Code>
    ensures { result ≡ spec.effect_source x.now }
{
    if same_code(x.code, Code::Set) {
        return part_code(x, 1);
    }
    if is_wild(x.code) { Some(x.code) } else { None }
}

/// The code of the source of an instruction.
fn source_of(x: &Rtx) -> Option<Code>
    ensures { result ≡ spec.source_of x.now }
{
    if !same_code(x.code, Code::Parallel) {
        return effect_source(x);
    }
    match x.kids.as_slice().get(0) {
        Some(first) => effect_source(first),
        None => None,
    }
}

/// The key of an instruction, or of a pattern of one.
pub fn key_of(x: &Rtx) -> Key
    ensures { result ≡ spec.key_of x.now }
{
    Key {
        code: x.code,
        source: source_of(x),
    }
}

fn fits_code(pattern: Code, insn: Code) -> bool
    ensures { result ≡ spec.fits_code pattern insn }
{
    is_wild(pattern) || same_code(pattern, insn)
}

fn fits_source(pattern: Option<Code>, insn: Option<Code>) -> bool
    ensures { result ≡ spec.fits_source pattern insn }
{
    match pattern {
        Some(pattern) => match insn {
            Some(insn) => fits_code(pattern, insn),
            None => is_wild(pattern),
        },
        None => insn.is_none(),
    }
}

/// Whether a pattern's key is that of an instruction.
fn has_key(pattern: Key, insn: Key) -> bool
    ensures { result ≡ spec.has_key pattern insn }
{
    if is_wild(pattern.code) {
        return true;
    }
    same_code(pattern.code, insn.code) && fits_source(pattern.source, insn.source)
}

/// Whether what has a key, if it has one, is tried for an instruction with another.
pub fn is_tried_by(insn: Key, pattern: Option<Key>) -> bool
    ensures { result ≡ spec.is_tried_by insn pattern }
{
    match pattern {
        Some(pattern) => has_key(pattern, insn),
        None => false,
    }
}

/// The pattern of a form that has one alone.
fn only_pattern(patterns: &[Rtx]) -> Option<&Rtx>
    ensures { option_copied result ≡ spec.only_pattern patterns.now }
{
    match patterns {
        [pattern] => Some(pattern),
        _ => None,
    }
}

/// Whether an element of a window is an instruction of it.
fn is_insn(pattern: &Rtx) -> bool
    ensures { result ≡ not (is_scratch pattern.now) }
{
    !is_scratch(pattern)
}

/// The first instruction of a window, of its elements.
fn first_insn(patterns: &[Rtx]) -> Option<&Rtx>
    ensures { option_copied result ≡ find (λ p. not (is_scratch p)) patterns.now }
{
    patterns.iter().find(|pattern| is_insn(pattern))
}

/// The pattern by which a half is found.
fn leading(half: Half, patterns: &[Rtx]) -> Option<&Rtx>
    ensures { option_copied result ≡ spec.leading half patterns.now }
{
    match half {
        Half::Insn | Half::Split => only_pattern(patterns),
        Half::Window => first_insn(patterns),
    }
}

fn form_key(half: Half, form: &Form) -> Option<Key>
    ensures { result ≡ spec.form_key half form.now }
{
    if !half.is_of(form.head) {
        return None;
    }
    match leading(half, form.patterns.as_slice()) {
        Some(pattern) => Some(key_of(pattern)),
        None => None,
    }
}

/// The key of a form that has a half.
pub fn entry_key(half: Half, entry: &Entry) -> Option<Key>
    ensures { result ≡ spec.entry_key half entry.now }
{
    match &entry.form {
        Ok(form) => form_key(half, form),
        Err(_) => None,
    }
}
