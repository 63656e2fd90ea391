//! The generated function.
ghost use Rattle.std.specs.Prelude.{◌≡◌, ◌+◌, ◌<◌, ◌≤◌, ◌^◌, ◌-◌, [], IfOk, length};
ghost use Rattle.rtl_make.specs.Made as spec;

use crate::pattern::patterns;
use plain_data::{Items, Memory};
use rtx_tree::{Function, Insn, Insns, Kids, Kind, Mode, Name, Rtx};
use std::alloc::Global;

fn plain(alloc: Global, uid: u32, pattern: Rtx) -> Insn
    ensures { result ≡ spec.plain_insn uid pattern }
{
    Insn {
        uid,
        kind: Kind::Plain,
        pattern,
        uses: Items::new(alloc),
    }
}

/// Plain instructions of some patterns, with the uids from 1 on.
#[tactic(auto, using(crate::proofs::Turns::numbered_push, crate::proofs::Turns::numbered_none))]
fn numbered(alloc: Global, patterns: Kids) -> Result<Insns, Memory>
    requires { length patterns < 2 ^ 32 - 1 }
    ensures { IfOk result (λ insns. insns ≡ spec.numbered 1 patterns) }
{
    let mut insns = Items::new(alloc);
    let mut uid = 1;
    for pattern in patterns.into_vec() {
        insns.push(plain(alloc, uid, pattern))?;
        uid += 1;
    }
    Ok(insns)
}

/// The generated function with a number: its name is `made`, it has the number and 32 instructions
/// more, its arguments stand in a0 to a7, and its result in a0. A uid has 32 bits, so the number has
/// a bound.
pub fn made(alloc: Global, number: u32) -> Result<Function, Memory>
    requires { number < 4_294_967_263 }
    ensures { IfOk result (λ f. f ≡ spec.made number) }
{
    let name = Name::of(alloc, b"made")?;
    let insns = numbered(alloc, patterns(alloc, u64::from(number))?)?;
    Ok(Function {
        name,
        insns,
        locals: 0,
        result: Some(Mode::DI),
        result_reg: 10,
    })
}
