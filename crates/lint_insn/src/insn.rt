//! The instruction of a pattern.
ghost use Rattle.std.specs.Prelude.{◌≡◌, ◌||◌, IfOk};
ghost use Rattle.lint_insn.specs.Insn as spec;

use plain_data::{Items, Memory};
use reg_uses::is_return;
use rtl_func::{
    call_modes_agree, call_target_agrees, kinds_agree, parallels_change_once, shapes_agree,
};
use rtx_tree::{ArgUse, ArgUses, Insn, Kind, Mode, Rtx};
use std::alloc::Global;
use std::slice;
use sym_insns::run_rtl;
use sym_state::SymRefusal;

const fn argument(reg: u8) -> ArgUse
    ensures { result ≡ spec.argument reg }
{
    ArgUse {
        reg,
        mode: Mode::DI,
    }
}

fn kind_of(pattern: &Rtx) -> Kind
    ensures { result ≡ spec.kind_of pattern.now }
{
    if kinds_agree(Kind::Jump, pattern) {
        Kind::Jump
    } else if kinds_agree(Kind::Call, pattern) {
        Kind::Call
    } else {
        Kind::Plain
    }
}

/// What a call's target reads: a0 to a7.
fn arguments(alloc: Global) -> Result<ArgUses, Memory>
    ensures { IfOk result (λ uses. uses ≡ spec.arguments) }
{
    let arguments = [
        argument(10),
        argument(11),
        argument(12),
        argument(13),
        argument(14),
        argument(15),
        argument(16),
        argument(17),
    ];
    Items::from_slice(alloc, &arguments)
}

fn uses_of(alloc: Global, kind: Kind) -> Result<ArgUses, Memory>
    ensures { IfOk result (λ uses. uses ≡ spec.uses_of kind) }
{
    match kind {
        Kind::Call => arguments(alloc),
        Kind::Plain | Kind::Jump | Kind::Label | Kind::Barrier => Ok(Items::new(alloc)),
    }
}

/// The instruction of a pattern, with uid 1.
pub fn insn_of(alloc: Global, pattern: Rtx) -> Result<Insn, Memory>
    ensures { IfOk result (λ insn. insn ≡ spec.insn_of pattern) }
{
    let kind = kind_of(&pattern);
    let uses = uses_of(alloc, kind)?;
    Ok(Insn {
        uid: 1,
        kind,
        pattern,
        uses,
    })
}

/// Whether an instruction comes to a state by itself.
fn has_state(alloc: Global, insn: &Insn) -> Result<bool, Memory>
    ensures { IfOk result (λ has. has ≡ spec.has_state insn.now) }
{
    match run_rtl(alloc, slice::from_ref(insn)) {
        Ok(_state) => Ok(true),
        Err(SymRefusal::Memory) => Err(Memory),
        Err(SymRefusal::Shape { .. } | SymRefusal::Size { .. }) => Ok(false),
    }
}

/// Whether an instruction is `(return)`.
fn leads_back(insn: &Insn) -> bool
    ensures { result ≡ spec.leads_back insn.now }
{
    is_return(insn) && shapes_agree(&insn.pattern)
}

/// Whether an instruction is `(return)` or comes to a state by itself.
fn comes_to_something(alloc: Global, insn: &Insn) -> Result<bool, Memory>
    ensures { IfOk result (λ comes.
        comes ≡ (spec.leads_back insn.now || spec.has_state insn.now)) }
{
    if leads_back(insn) {
        return Ok(true);
    }
    has_state(alloc, insn)
}

/// Whether an instruction can stand in a function, and be compared by itself.
pub fn is_lawful(alloc: Global, insn: &Insn) -> Result<bool, Memory>
    ensures { IfOk result (λ lawful. lawful ≡ spec.is_lawful insn.now) }
{
    let pattern = &insn.pattern;
    if !(call_modes_agree(pattern) && call_target_agrees(insn.kind, pattern)) {
        return Ok(false);
    }
    if !parallels_change_once(alloc, pattern)? {
        return Ok(false);
    }
    comes_to_something(alloc, insn)
}
