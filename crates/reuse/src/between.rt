//! What stands between two instructions.
ghost use Rattle.std.specs.Prelude.{◌≡◌, ◌+◌, ◌<◌, length, IfOk};
ghost use Rattle.std.specs.List.{list_all};
ghost use Rattle.rtx_tree.specs.Tree.{head_of};
ghost use Rattle.new_insns.specs.Replaced.{window};
ghost use Rattle.reuse.specs.Reuse as spec;

use live_chain::LiveChain;
use mem_uses::{does_store, has_memory};
use plain_data::Memory;
use reg_uses::does_define;
use rtx_tree::{Code, Insn, Kind, Rtx};

/// Whether an instruction defines the register that an expression is. A number past 32 bits finds
/// no memory.
fn defines_this(insn: &Insn, x: &Rtx) -> Result<bool, Memory>
    ensures { IfOk result (λ r. r ≡ spec.defined_by insn.now (head_of x.now).code (head_of x.now).number) }
{
    if !matches!(x.code, Code::Reg) || x.number < 0 {
        return Ok(false);
    }
    match u32::try_from(x.number) {
        Ok(reg) => Ok(does_define(insn, reg)),
        Err(_) => Err(Memory),
    }
}

/// Whether an instruction defines a register that stands in an expression.
#[tactic(auto, using(crate::proofs::Parts::defined_out))]
fn defines_part(insn: &Insn, x: &Rtx) -> Result<bool, Memory>
    ensures { IfOk result (λ r. r ≡ spec.defines_part insn.now x.now) }
{
    if defines_this(insn, x)? {
        return Ok(true);
    }
    for kid in x.kids.as_slice() {
        if defines_part(insn, kid)? {
            return Ok(true);
        }
    }
    Ok(false)
}

fn stands_between(kind: Kind) -> bool
    ensures { result ≡ spec.stands_between kind }
{
    matches!(kind, Kind::Plain | Kind::Barrier)
}

/// Whether an instruction leads on to the next alone, and leaves what an expression is worth.
pub fn keeps(insn: &Insn, source: &Rtx) -> Result<bool, Memory>
    ensures { IfOk result (λ r. r ≡ spec.keeps source.now insn.now) }
{
    if !stands_between(insn.kind) {
        return Ok(false);
    }
    if does_store(insn) && has_memory(source) {
        return Ok(false);
    }
    let defines = defines_part(insn, source)?;
    Ok(!defines)
}

/// Whether the instructions behind a first place and in front of a second leave a register alone.
pub fn all_leave(chain: &LiveChain, first: u32, second: u32, reg: u32) -> bool
    requires order { first < second }
    requires within { second < length chain.now.insns }
    ensures { result ≡ list_all (spec.leaves reg) (window chain.now (first + 1) second) }
{
    let mut place = first + 1;
    while place < second {
        if does_define(chain.insn(place), reg) {
            return false;
        }
        place += 1;
    }
    true
}
