//! Effects at once, and a function's locals.
ghost use Rattle.std.specs.Prelude.{◌≡◌, ◌||◌, ◌&&◌, ℕ, not, IfOk, OnOk};
ghost use Rattle.std.specs.List.{list_all, filter_map};
ghost use Rattle.std.specs.Ordering.{nat_cmp};
ghost use Rattle.std.specs.BTreeSet as set;
ghost use Rattle.rtl_func.specs.Calls.{are_distinct};
ghost use Rattle.rtl_func.specs.Effects as spec;
ghost use Rattle.rtl_func.specs.machine.Changes as changes;

use crate::shape::{class_at, is_constant};
use crate::tables::register_at;
use plain_data::Memory;
use rtx_tree::{Class, Code, Rtx};
use std::alloc::Global;
use std::collections::BTreeSet;

fn place_register(x: &Rtx) -> Option<u64>
    ensures { result ≡ spec.place_register x.now }
{
    match (class_at(x), x.kids.as_slice()) {
        (Class::Lowpart, [whole]) => register_at(whole),
        _ => register_at(x),
    }
}

fn changed_register(x: &Rtx) -> Option<u64>
    ensures { result ≡ spec.changed_register x.now }
{
    match (class_at(x), x.kids.as_slice()) {
        (Class::Setting, [target, ..]) => place_register(target),
        (Class::Clobber, [target, ..]) => place_register(target),
        _ => None,
    }
}

fn is_simple_effect(x: &Rtx) -> bool
    ensures { result ≡ spec.is_simple_effect x.now }
{
    matches!(class_at(x), Class::Setting | Class::Use | Class::Clobber)
}

fn are_simple(parts: &[Rtx]) -> bool
    ensures { result ≡ list_all spec.is_simple_effect parts.now }
{
    parts.iter().all(|part| is_simple_effect(part))
}

/// Notes the register that a part changes, and tells whether it is another than those noted and
/// those were different ones.
fn note_change(changed: &mut BTreeSet<u64>, part: &Rtx, differ: bool) -> Result<bool, Memory>
    ensures differ { IfOk result (λ still.
        still ≡ (not (changes.is_known (set.contains nat_cmp changed.old)
        (spec.changed_register part.now)) && differ)) }
    ensures changed { OnOk result ((reg : ℕ) →
        set.contains nat_cmp changed.new reg ≡
        (changes.is_register (spec.changed_register part.now) reg || set.contains nat_cmp
        changed.old reg)) }
{
    match changed_register(part) {
        None => Ok(differ),
        Some(reg) => {
            let is_new = changed.insert(reg)?;
            Ok(is_new && differ)
        }
    }
}

/// Whether parts change different registers.
fn changes_differ(alloc: Global, parts: &[Rtx]) -> Result<bool, Memory>
    ensures { IfOk result (λ differ.
        differ ≡ are_distinct (filter_map spec.changed_register parts.now)) }
{
    let mut changed = BTreeSet::new(alloc);
    let mut differ = true;
    for at in (0..parts.len()).rev() {
        differ = note_change(&mut changed, &parts[at], differ)?;
    }
    Ok(differ)
}

/// Whether a parallel holds simple effects alone.
pub fn holds_simple(x: &Rtx) -> bool
    ensures { result ≡ spec.holds_simple x.now }
{
    match class_at(x) {
        Class::Parallel => are_simple(x.kids.as_slice()),
        _ => true,
    }
}

/// Whether a parallel changes no register twice.
fn changes_once(alloc: Global, x: &Rtx) -> Result<bool, Memory>
    ensures { IfOk result (λ once. once ≡ spec.changes_once x.now) }
{
    match class_at(x) {
        Class::Parallel => changes_differ(alloc, x.kids.as_slice()),
        _ => Ok(true),
    }
}

/// Whether each parallel of a pattern changes no register twice.
#[tactic(auto, using(crate::proofs::RuleLaws::once_out))]
pub fn parallels_change_once(alloc: Global, pattern: &Rtx) -> Result<bool, Memory>
    ensures { IfOk result (λ once. once ≡ spec.parallels_change_once pattern.now) }
{
    if !changes_once(alloc, pattern)? {
        return Ok(false);
    }
    for kid in pattern.kids.as_slice() {
        if !parallels_change_once(alloc, kid)? {
            return Ok(false);
        }
    }
    Ok(true)
}

fn is_stack_register(reg: Option<u64>) -> bool
    ensures { result ≡ spec.is_stack_register reg }
{
    match reg {
        None => false,
        Some(reg) => reg == 32,
    }
}

fn is_stack_vars(x: &Rtx) -> bool
    ensures { result ≡ spec.is_stack_vars x.now }
{
    is_stack_register(register_at(x))
}

fn is_local_offset(locals: u32, offset: i64) -> bool
    ensures { result ≡ spec.is_local_offset locals offset }
{
    offset <= 0 && 0 <= offset + i64::from(locals)
}

fn is_lawful_sum(locals: u32, a: &Rtx, b: &Rtx) -> bool
    ensures { result ≡ spec.is_lawful_sum locals a.now b.now }
{
    !(is_stack_vars(a) && is_constant(b)) || is_local_offset(locals, b.number)
}

fn sums_locals(locals: u32, x: &Rtx) -> bool
    ensures { result ≡ spec.sums_locals locals x.now }
{
    match (x.code, x.kids.as_slice()) {
        (Code::Plus, [a, b]) => is_lawful_sum(locals, a, b) && is_lawful_sum(locals, b, a),
        _ => true,
    }
}

/// Whether a tree changes not `virtual-stack-vars`, and adds to it no constant but a local's.
pub fn has_stack_variables(locals: u32, x: &Rtx) -> bool
    ensures { result ≡ spec.has_stack_variables locals x.now }
{
    !is_stack_register(changed_register(x)) && sums_locals(locals, x)
}
