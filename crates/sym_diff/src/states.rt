//! Two states compared.
ghost use Rattle.std.specs.Prelude.{◌≡◌, option_map, IfOk};
ghost use Rattle.sym_state.specs.Views.{state_of};
ghost use Rattle.sym_diff.specs.Registers as registers;
ghost use Rattle.sym_diff.specs.States as spec;
ghost use Rattle.sym_diff.specs.Agree.{Tells};
ghost use Rattle.sym_diff.specs.Views.{difference_of};

use crate::call::compared_calls;
use crate::difference::{Found, SymDifference};
use crate::jump::compared_jump;
use crate::needs::compared_needs;
use crate::registers::compared_registers;
use crate::stores::compared_stores;
use plain_data::Memory;
use rtx_tree::RegSet;
use std::alloc::Global;
use sym_state::SymState;
use sym_term::TermMaker;

fn in_registers(
    maker: &mut TermMaker,
    alloc: Global,
    live: &RegSet,
    a: &SymState,
    b: &SymState,
) -> Result<Found, Memory>
    ensures { IfOk result (λ found. option_map difference_of found ≡
        registers.compared_registers live.now (state_of a.now) (state_of b.now)) }
{
    let calls = a.call.is_some() || b.call.is_some();
    compared_registers(
        maker,
        alloc,
        calls,
        live,
        a.regs.as_slice(),
        b.regs.as_slice(),
    )
}

/// The first item that fails.
fn compared(
    maker: &mut TermMaker,
    alloc: Global,
    of_lines: bool,
    live: &RegSet,
    a: &SymState,
    b: &SymState,
) -> Result<Found, Memory>
    ensures { IfOk result (λ found. option_map difference_of found ≡
        spec.difference of_lines live.now (state_of a.now) (state_of b.now)) }
{
    if let Some(found) = in_registers(maker, alloc, live, a, b)? {
        return Ok(Some(found));
    }
    if let Some(found) = compared_stores(maker, alloc, a.stores.as_slice(), b.stores.as_slice())? {
        return Ok(Some(found));
    }
    if let Some(found) = compared_jump(maker, alloc, &a.jump, &b.jump)? {
        return Ok(Some(found));
    }
    match compared_calls(maker, alloc, of_lines, &a.call, &b.call)? {
        Some(found) => Ok(Some(found)),
        None => compared_needs(maker, alloc, a.needs.as_slice(), b.needs.as_slice()),
    }
}

/// The first item in which two states differ, over the registers that are live behind. The second
/// state is one of lines, or else one of instructions.
#[tactic(auto, using(crate::proofs::FirstLaws::telling))]
pub fn difference_between(
    maker: &mut TermMaker,
    alloc: Global,
    of_lines: bool,
    live: &RegSet,
    a: &SymState,
    b: &SymState,
) -> Result<Option<SymDifference>, Memory>
    ensures first { IfOk result (λ found. option_map difference_of found ≡
        spec.difference of_lines live.now (state_of a.now) (state_of b.now)) }
    ensures tells { IfOk result (λ found.
        Tells of_lines live.now (state_of a.now) (state_of b.now)
        (option_map difference_of found)) }
{
    compared(maker, alloc, of_lines, live, a, b)
}
