//! A function that keeps values over a call.
ghost use Rattle.std.specs.Prelude.{◌≡◌, [], ◌∷◌, ◌++◌, IfOk, OnOk, map};
ghost use Rattle.lint_functions.specs.Functions as spec;

use crate::function::{A0, FAR_BYTES, arguments, plain, tried};
use crate::pattern::call_of;
use lint_made::{Candidate, tree_with};
use plain_data::{Items, Memory};
use rtx_tree::{Code, FIRST_PSEUDO, Function, Insn, Insns, Kind, Mode, Rtx, VIRTUAL_STACK_VARS};
use std::alloc::Global;

/// More values than there are registers that a call keeps, by their numbers.
static KEPT: [u8; 13] = [1, 2, 3, 4, 5, 6, 7, 8, 9, 10, 11, 12, 13];

fn kept() -> &'static [u8]
    ensures { result.now ≡ spec.kept }
{
    &KEPT
}

/// A plain instruction that sets a place to a value.
fn setting(alloc: Global, uid: u32, place: Rtx, value: Rtx) -> Result<Insn, Memory>
    ensures { IfOk result (λ insn. insn ≡ spec.setting uid place value) }
{
    let pattern = Rtx::of_two(alloc, Code::Set, Mode::Void, place, value)?;
    Ok(plain(alloc, uid, pattern))
}

fn value(alloc: Global, mode: Mode, k: u8) -> Rtx
    ensures { result ≡ spec.value mode k }
{
    Rtx::reg(alloc, mode, FIRST_PSEUDO + u32::from(k))
}

/// The place of a value.
fn slot(alloc: Global, mode: Mode, k: u8) -> Result<Rtx, Memory>
    ensures { IfOk result (λ tree. tree ≡ spec.slot mode k) }
{
    let offset = i64::from(8 * u32::from(k));
    tree_with(alloc, A0, Candidate::Memory { mode, offset })
}

fn load(alloc: Global, mode: Mode, k: u8) -> Result<Insn, Memory>
    ensures { IfOk result (λ insn. insn ≡ spec.load mode k) }
{
    let place = slot(alloc, mode, k)?;
    setting(alloc, 100 + u32::from(k), value(alloc, mode, k), place)
}

fn store(alloc: Global, mode: Mode, k: u8) -> Result<Insn, Memory>
    ensures { IfOk result (λ insn. insn ≡ spec.store mode k) }
{
    let place = slot(alloc, mode, k)?;
    setting(alloc, 200 + u32::from(k), place, value(alloc, mode, k))
}

#[tactic(auto, using(lint_choices::proofs::PushedLaws::mapped_next, lint_choices::proofs::PushedLaws::pushed_ends))]
fn push_loads(alloc: Global, mode: Mode, kept: &[u8], out: &mut Insns) -> Result<(), Memory>
    ensures { OnOk result (out.new ≡ out.old ++ map (spec.load mode) kept.now) }
{
    for k in kept {
        out.push(load(alloc, mode, *k)?)?;
    }
    Ok(())
}

#[tactic(auto, using(lint_choices::proofs::PushedLaws::mapped_next, lint_choices::proofs::PushedLaws::pushed_ends))]
fn push_stores(alloc: Global, mode: Mode, kept: &[u8], out: &mut Insns) -> Result<(), Memory>
    ensures { OnOk result (out.new ≡ out.old ++ map (spec.store mode) kept.now) }
{
    for k in kept {
        out.push(store(alloc, mode, *k)?)?;
    }
    Ok(())
}

/// The call that values are kept over.
fn call(alloc: Global) -> Result<Insn, Memory>
    ensures { IfOk result (λ insn. insn ≡ spec.call) }
{
    let target = tree_with(alloc, A0, Candidate::Symbol)?;
    let called = call_of(alloc, &target)?;
    let place = Rtx::reg(alloc, Mode::DI, A0);
    let pattern = Rtx::of_two(alloc, Code::Set, Mode::Void, place, called)?;
    Ok(Insn {
        uid: 5,
        kind: Kind::Call,
        pattern,
        uses: arguments(alloc)?,
    })
}

/// A store so far down in a frame that slots below it are out of the reach of an offset.
fn far_store(alloc: Global) -> Result<Insn, Memory>
    ensures { IfOk result (λ insn. insn ≡ spec.far_store) }
{
    let far = Candidate::Memory {
        mode: Mode::DI,
        offset: -40_000,
    };
    let place = tree_with(alloc, VIRTUAL_STACK_VARS, far)?;
    setting(alloc, 3, place, Rtx::reg(alloc, Mode::DI, A0))
}

fn far_stores(alloc: Global, is_far: bool) -> Result<Insns, Memory>
    ensures { IfOk result (λ insns. insns ≡ spec.far_stores is_far) }
{
    let mut insns = Items::new(alloc);
    if is_far {
        insns.push(far_store(alloc)?)?;
    }
    Ok(insns)
}

fn kept_locals(is_far: bool) -> u32
    ensures { result ≡ spec.kept_locals is_far }
{
    if is_far { FAR_BYTES } else { 0 }
}

/// Appends the call.
fn push_call(alloc: Global, out: &mut Insns) -> Result<(), Memory>
    ensures { OnOk result (out.new ≡ out.old ++ spec.call ∷ []) }
{
    out.push(call(alloc)?)
}

/// Appends what keeps values over a call.
fn push_kept(alloc: Global, mode: Mode, out: &mut Insns) -> Result<(), Memory>
    ensures { OnOk result (out.new ≡ out.old ++ spec.keeps mode) }
{
    push_loads(alloc, mode, kept(), out)?;
    push_call(alloc, out)?;
    push_stores(alloc, mode, kept(), out)?;
    Ok(())
}

/// A function that keeps values in a mode over a call, more than registers keep; where it is asked
/// for, with its slots out of the reach of an offset.
pub fn keeping(alloc: Global, mode: Mode, is_far: bool) -> Result<Function, Memory>
    ensures { IfOk result (λ f. f ≡ spec.keeping mode is_far) }
{
    let mut insns = far_stores(alloc, is_far)?;
    push_kept(alloc, mode, &mut insns)?;
    tried(alloc, kept_locals(is_far), insns)
}
