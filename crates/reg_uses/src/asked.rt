//! Whether an instruction uses or defines a register.
ghost use Rattle.std.specs.Prelude.{◌≡◌, ◌&&◌};
ghost use Rattle.std.specs.List.{list_any};
ghost use Rattle.rtx_tree.specs.Registers.{is_call_used};
ghost use Rattle.reg_uses.specs.Effects as spec;
ghost use Rattle.reg_uses.specs.Uses as insns;

use rtx_tree::{ArgUse, Code, Insn, Kind, Rtx, reg_call_used};

fn is_register(x: &Rtx, reg: u32) -> bool
    ensures { result ≡ spec.is_register reg x.now }
{
    reg != 0 && matches!(x.code, Code::Reg) && x.number == i64::from(reg)
}

/// Whether a place is the register, or a low part of it.
pub fn place_is(place: &Rtx, reg: u32) -> bool
    ensures { result ≡ spec.place_is reg place.now }
{
    match (place.code, place.kids.as_slice()) {
        (Code::Subreg, [whole, ..]) => is_register(whole, reg),
        _ => is_register(place, reg),
    }
}

/// Whether a tree reads a register: whether the register stands in it.
pub fn does_read(x: &Rtx, reg: u32) -> bool
    ensures { result ≡ spec.reads reg x.now }
{
    reg != 0 && x.mentions(reg)
}

fn place_reads(place: &Rtx, reg: u32) -> bool
    ensures { result ≡ spec.place_reads reg place.now }
{
    match place.code {
        Code::Mem => does_read(place, reg),
        _ => false,
    }
}

fn effect_uses(x: &Rtx, reg: u32) -> bool
    ensures { result ≡ spec.effect_uses reg x.now }
{
    match (x.code, x.kids.as_slice()) {
        (Code::Set, [place, source]) => place_reads(place, reg) || does_read(source, reg),
        (Code::Clobber, _) => false,
        _ => does_read(x, reg),
    }
}

fn any_uses(effects: &[Rtx], reg: u32) -> bool
    ensures { result ≡ spec.all_use reg effects.now }
{
    effects.iter().any(|x| effect_uses(x, reg))
}

fn pattern_uses(x: &Rtx, reg: u32) -> bool
    ensures { result ≡ spec.pattern_uses reg x.now }
{
    match x.code {
        Code::Parallel => any_uses(x.kids.as_slice(), reg),
        _ => effect_uses(x, reg),
    }
}

fn has_argument(uses: &[ArgUse], reg: u32) -> bool
    ensures { result ≡ insns.has_argument reg uses.now }
{
    uses.iter().any(|argument| u32::from(argument.reg) == reg)
}

/// Whether an instruction uses a register, but for what a return does.
pub fn does_use(insn: &Insn, reg: u32) -> bool
    ensures { result ≡ insns.insn_uses insn.now reg }
{
    pattern_uses(&insn.pattern, reg) || has_argument(insn.uses.as_slice(), reg)
}

fn effect_defines(x: &Rtx, reg: u32) -> bool
    ensures { result ≡ spec.effect_defines reg x.now }
{
    match (x.code, x.kids.as_slice()) {
        (Code::Set | Code::Clobber, [place, ..]) => place_is(place, reg),
        _ => false,
    }
}

fn any_defines(effects: &[Rtx], reg: u32) -> bool
    ensures { result ≡ spec.all_define reg effects.now }
{
    effects.iter().any(|x| effect_defines(x, reg))
}

fn pattern_defines(x: &Rtx, reg: u32) -> bool
    ensures { result ≡ spec.pattern_defines reg x.now }
{
    match x.code {
        Code::Parallel => any_defines(x.kids.as_slice(), reg),
        _ => effect_defines(x, reg),
    }
}

fn is_call_used(reg: u32) -> bool
    ensures { result ≡ is_call_used reg }
{
    reg < 32 && reg_call_used(reg as u8)
}

fn call_defines(kind: Kind, reg: u32) -> bool
    ensures { result ≡ (insns.is_call_kind kind && is_call_used reg) }
{
    match kind {
        Kind::Call => is_call_used(reg),
        _ => false,
    }
}

/// Whether an instruction defines a register.
pub fn does_define(insn: &Insn, reg: u32) -> bool
    ensures { result ≡ insns.insn_defines insn.now reg }
{
    pattern_defines(&insn.pattern, reg) || call_defines(insn.kind, reg)
}
