//! Tests of the registers that instructions set.
ghost use Rattle.std.specs.Prelude.{◌≡◌, IfOk};
ghost use Rattle.std.specs.List.{list_any};
ghost use Rattle.insn_depends.specs.Depends as spec;
ghost use Rattle.insn_depends.specs.machine.Tests.{holds};

use plain_data::Memory;
use reg_uses::{does_define, does_use};
use rtx_tree::{Code, Insn, Rtx};

/// What is asked of a register in an instruction.
#[derive(Clone, Copy)]
pub enum Test {
    /// Whether the instruction uses it.
    Uses,
    /// Whether the instruction uses or defines it.
    Names,
}

/// Whether a register passes a test in an instruction.
fn passes(test: Test, other: &Insn, reg: u32) -> bool
    ensures { result ≡ holds test other.now reg }
{
    match test {
        Test::Uses => does_use(other, reg),
        Test::Names => does_use(other, reg) || does_define(other, reg),
    }
}

/// Whether a tree is a register that passes a test. A number past 32 bits finds no memory.
fn register_passes(test: Test, other: &Insn, x: &Rtx) -> Result<bool, Memory>
    ensures { IfOk result (λ r. r ≡ spec.register_passes (holds test other.now) x.now) }
{
    if !matches!(x.code, Code::Reg) || x.number <= 0 {
        return Ok(false);
    }
    match u32::try_from(x.number) {
        Ok(reg) => Ok(passes(test, other, reg)),
        Err(_) => Err(Memory),
    }
}

fn place_passes(test: Test, other: &Insn, place: &Rtx) -> Result<bool, Memory>
    ensures { IfOk result (λ r. r ≡ spec.place_passes (holds test other.now) place.now) }
{
    match (place.code, place.kids.as_slice()) {
        (Code::Subreg, [whole, ..]) => register_passes(test, other, whole),
        _ => register_passes(test, other, place),
    }
}

fn effect_sets(test: Test, other: &Insn, x: &Rtx) -> Result<bool, Memory>
    ensures { IfOk result (λ r. r ≡ spec.effect_sets (holds test other.now) x.now) }
{
    match (x.code, x.kids.as_slice()) {
        (Code::Set, [place, ..]) => place_passes(test, other, place),
        _ => Ok(false),
    }
}

fn effect_defines(test: Test, other: &Insn, x: &Rtx) -> Result<bool, Memory>
    ensures { IfOk result (λ r. r ≡ spec.effect_defines (holds test other.now) x.now) }
{
    match (x.code, x.kids.as_slice()) {
        (Code::Set | Code::Clobber, [place, ..]) => place_passes(test, other, place),
        _ => Ok(false),
    }
}

fn any_sets(test: Test, other: &Insn, effects: &[Rtx]) -> Result<bool, Memory>
    ensures { IfOk result (λ r. r ≡ list_any (spec.effect_sets (holds test other.now)) effects.now) }
{
    for x in effects {
        if effect_sets(test, other, x)? {
            return Ok(true);
        }
    }
    Ok(false)
}

fn any_defines(test: Test, other: &Insn, effects: &[Rtx]) -> Result<bool, Memory>
    ensures { IfOk result (λ r.
        r ≡ list_any (spec.effect_defines (holds test other.now)) effects.now) }
{
    for x in effects {
        if effect_defines(test, other, x)? {
            return Ok(true);
        }
    }
    Ok(false)
}

/// Whether an instruction sets a register that passes a test in another.
pub fn sets_some(test: Test, other: &Insn, insn: &Insn) -> Result<bool, Memory>
    ensures { IfOk result (λ r. r ≡ spec.sets_some (holds test other.now) insn.now) }
{
    match insn.pattern.code {
        Code::Parallel => any_sets(test, other, insn.pattern.kids.as_slice()),
        _ => effect_sets(test, other, &insn.pattern),
    }
}

/// Whether an instruction sets or clobbers a register that passes a test in another.
pub fn defines_some(test: Test, other: &Insn, insn: &Insn) -> Result<bool, Memory>
    ensures { IfOk result (λ r. r ≡ spec.defines_some (holds test other.now) insn.now) }
{
    match insn.pattern.code {
        Code::Parallel => any_defines(test, other, insn.pattern.kids.as_slice()),
        _ => effect_defines(test, other, &insn.pattern),
    }
}
