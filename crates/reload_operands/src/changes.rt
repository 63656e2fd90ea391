//! What an instruction changes beside an operand.
ghost use Rattle.std.specs.Prelude.{◌≡◌, ◌&&◌, false, slice_get};
ghost use Rattle.std.specs.List.{list_any};
ghost use Rattle.std.specs.List.Sorted.{IsStrictlyIncreasing};
ghost use Rattle.std.specs.Option.{option_map_or, option_copied};
ghost use Rattle.rtx_tree.specs.Tree.{head_of, is_reg_numbered, mentions_reg};
ghost use Rattle.assign.specs.Homes.{pseudos};
ghost use Rattle.reload_operands.specs.Bases.{lives_in_slot};
ghost use Rattle.reload_operands.specs.Changes as spec;

use crate::bases::lives_in_slot;
use crate::directions::is_changed_by;
use crate::effects::{changed_register, changes_memory};
use assign::Homes;
use md_constr::effects_of;
use rtx_tree::{Code, Rtx};

fn is_register(x: &Rtx, reg: u64) -> bool
    ensures { result ≡ is_reg_numbered (head_of x.now).code (head_of x.now).number reg }
{
    matches!(x.code, Code::Reg) && x.number >= 0 && x.number.cast_unsigned() == reg
}

/// Whether a register stands in a tree.
#[tactic(auto, using(rtx_tree::proofs::Trees::mentions_out))]
fn mentions(x: &Rtx, reg: u64) -> bool
    ensures { result ≡ mentions_reg reg x.now }
{
    if is_register(x, reg) {
        return true;
    }
    for kid in x.kids.as_slice() {
        if mentions(kid, reg) {
            return true;
        }
    }
    false
}

/// The address of a memory.
fn address_of(x: &Rtx) -> Option<&Rtx>
    ensures { option_copied result ≡ spec.address_of x.now }
{
    match (x.code, x.kids.as_slice()) {
        (Code::Mem, [address]) => Some(address),
        _ => None,
    }
}

fn changes_hard(effect: &Rtx, address: &Rtx) -> bool
    ensures { result ≡ option_map_or (λ reg.
        spec.is_hard reg && mentions_reg reg address.now) (spec.changed_register effect.now) false }
{
    match changed_register(effect) {
        Some(reg) => reg < 32 && mentions(address, reg),
        None => false,
    }
}

fn changes_slot(homes: &Homes, effect: &Rtx, address: &Rtx) -> bool
    requires { IsStrictlyIncreasing (pseudos homes.now) }
    ensures { result ≡ option_map_or (λ reg.
        lives_in_slot homes.now reg && mentions_reg reg address.now)
        (spec.changed_register effect.now) false }
{
    match changed_register(effect) {
        Some(reg) => lives_in_slot(homes, reg) && mentions(address, reg),
        None => false,
    }
}

fn any_changes_hard(effects: &[Rtx], address: &Rtx) -> bool
    ensures { result ≡ list_any (λ effect.
        option_map_or (λ reg. spec.is_hard reg && mentions_reg reg address.now)
        (spec.changed_register effect) false) effects.now }
{
    effects.iter().any(|effect| changes_hard(effect, address))
}

/// Whether an instruction changes a hard register of an address.
fn changes_hard_in(insn: &Rtx, address: &Rtx) -> bool
    ensures { result ≡ spec.changes_in spec.is_hard insn.now address.now }
{
    any_changes_hard(effects_of(insn), address)
}

fn any_changes_slot(homes: &Homes, effects: &[Rtx], address: &Rtx) -> bool
    requires { IsStrictlyIncreasing (pseudos homes.now) }
    ensures { result ≡ list_any (λ effect.
        option_map_or (λ reg. lives_in_slot homes.now reg && mentions_reg reg address.now)
        (spec.changed_register effect) false) effects.now }
{
    effects
        .iter()
        .any(|effect| changes_slot(homes, effect, address))
}

/// Whether an instruction changes a register of an address that lives in a slot.
fn changes_slot_in(homes: &Homes, insn: &Rtx, address: &Rtx) -> bool
    requires { IsStrictlyIncreasing (pseudos homes.now) }
    ensures { result ≡ spec.changes_in (lives_in_slot homes.now) insn.now address.now }
{
    any_changes_slot(homes, effects_of(insn), address)
}

fn changes_hard_at(insn: &Rtx, x: &Rtx) -> bool
    ensures { result ≡
        option_map_or (spec.changes_in spec.is_hard insn.now) (spec.address_of x.now) false }
{
    match address_of(x) {
        Some(address) => changes_hard_in(insn, address),
        None => false,
    }
}

fn changes_slot_at(homes: &Homes, insn: &Rtx, x: &Rtx) -> bool
    requires { IsStrictlyIncreasing (pseudos homes.now) }
    ensures { result ≡ option_map_or (spec.changes_in (lives_in_slot homes.now) insn.now)
        (spec.address_of x.now) false }
{
    match address_of(x) {
        Some(address) => changes_slot_in(homes, insn, address),
        None => false,
    }
}

/// Whether an instruction, as it is before and with its homes, changes a register of an operand's
/// address, as this is before and with its homes: a hard one, or one in a slot that is not its
/// base.
pub fn changes_address(
    homes: &Homes,
    placed: &Rtx,
    with_homes: &Rtx,
    based: bool,
    x: &Rtx,
    x_with_homes: &Rtx,
) -> bool
    requires { IsStrictlyIncreasing (pseudos homes.now) }
    ensures { result ≡
        spec.changes_address homes.now placed.now with_homes.now based x.now x_with_homes.now }
{
    changes_hard_at(with_homes, x_with_homes) || (!based && changes_slot_at(homes, placed, x))
}

fn is_place_of(pattern: Option<&Rtx>, number: u32) -> bool
    ensures { result ≡ option_map_or (spec.is_place_of number) (option_copied pattern.entry) false }
{
    match pattern {
        Some(pattern) => is_changed_by(pattern, number),
        None => false,
    }
}

/// Whether an effect changes memory that is no place of the operand with a number.
fn is_other_memory(patterns: &[Rtx], at: usize, effect: &Rtx, number: u32) -> bool
    ensures { result ≡ spec.is_other_memory number (slice_get patterns.now at) effect.now }
{
    changes_memory(effect) && !is_place_of(patterns.get(at), number)
}

/// Whether an instruction changes another memory than the operand with a number.
#[tactic(auto, using(crate::proofs::ChangeLaws::looks_start, crate::proofs::ChangeLaws::looks_true, crate::proofs::ChangeLaws::looks_next, crate::proofs::ChangeLaws::looks_end))]
pub fn other_memory(pattern: &Rtx, insn: &Rtx, number: u32) -> bool
    ensures { result ≡ spec.other_memory pattern.now insn.now number }
{
    let patterns = effects_of(pattern);
    let effects = effects_of(insn);
    for at in 0..effects.len() {
        if is_other_memory(patterns, at, &effects[at], number) {
            return true;
        }
    }
    false
}
