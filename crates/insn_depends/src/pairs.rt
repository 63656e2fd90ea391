//! Dependences.
ghost use Rattle.std.specs.Prelude.{◌≡◌, IfOk};
ghost use Rattle.insn_depends.specs.Depends as spec;

use crate::registers::{Test, defines_some, sets_some};
use mem_uses::{does_load, does_store};
use plain_data::Memory;
use rtx_tree::Insn;

/// Whether one of two instructions defines a register that the other uses or defines.
fn shares_register(earlier: &Insn, later: &Insn) -> Result<bool, Memory>
    ensures { IfOk result (λ r. r ≡ spec.shares_register earlier.now later.now) }
{
    if defines_some(Test::Names, later, earlier)? {
        return Ok(true);
    }
    defines_some(Test::Uses, earlier, later)
}

/// Whether one of two instructions stores, and the other loads or stores.
fn shares_memory(earlier: &Insn, later: &Insn) -> bool
    ensures { result ≡ spec.shares_memory earlier.now later.now }
{
    if does_store(earlier) && (does_load(later) || does_store(later)) {
        return true;
    }
    does_load(earlier) && does_store(later)
}

fn depends(earlier: &Insn, later: &Insn) -> Result<bool, Memory>
    ensures { IfOk result (λ r. r ≡ spec.depends earlier.now later.now) }
{
    if shares_register(earlier, later)? {
        return Ok(true);
    }
    Ok(shares_memory(earlier, later))
}

fn awaits(earlier: &Insn, later: &Insn) -> Result<bool, Memory>
    ensures { IfOk result (λ r. r ≡ spec.awaits earlier.now later.now) }
{
    if sets_some(Test::Uses, later, earlier)? {
        return Ok(true);
    }
    Ok(does_store(earlier) && does_load(later))
}

/// The weight with which an instruction depends on an earlier one of a latency: how many cycles lie
/// between both at least. It is `None` exactly where it doesn't depend on it.
///
/// # Errors
///
/// `Memory` where the number of a register is past 32 bits.
pub fn dependence(latency: u32, earlier: &Insn, later: &Insn) -> Result<Option<u32>, Memory>
    ensures { IfOk result (λ r. r ≡ spec.dependence latency earlier.now later.now) }
{
    if !depends(earlier, later)? {
        return Ok(None);
    }
    if awaits(earlier, later)? {
        Ok(Some(latency))
    } else {
        Ok(Some(0))
    }
}
