//! What a call tells, and what it leaves in registers.
ghost use Rattle.std.specs.Prelude.{◌≡◌, IfOk, option_copied, option_map};
ghost use Rattle.rtl_step.specs.Call as spec;

use crate::effect::address_of;
use crate::expression::{value, width_of};
use crate::regs::{Known, Regs};
use bits64::{Width, trunc};
use plain_data::{Items, Memory};
use rtx_tree::{ArgUse, Code, Memories, Mode, Ranges, Rtx, Symbols};
use run_memory::visible_part;
use std::alloc::Global;

/// The register of a result, `a0`.
pub const RESULT_REGISTER: u64 = 10;

/// An argument of a call.
#[derive(Clone, Copy)]
pub struct ArgValue {
    /// The hard register's number.
    pub reg: u8,
    /// The mode in which it is read.
    pub mode: Mode,
    /// The register's value in that mode.
    pub value: u64,
}

/// The arguments of a call.
pub type ArgValues = Items<ArgValue>;

/// What a called function sees.
#[derive(Drop)]
pub struct CallEvent {
    /// The called function's address, a multiple of 4.
    pub target: u64,
    /// The call's arguments.
    pub args: ArgValues,
    /// The visible memory.
    pub memory: Memories,
}

/// The calls of a run, in order.
pub type Calls = Items<CallEvent>;

/// The target's address as an expression, or `None` where it is no call.
pub fn target_of(x: &Rtx) -> Option<&Rtx>
    ensures { option_copied result ≡ spec.target_of x.now }
{
    match (x.code, x.kids.as_slice()) {
        (Code::Call, [place, _size]) => address_of(place),
        _ => None,
    }
}

fn is_result(x: &Rtx) -> bool
    ensures { result ≡ spec.is_result x.now }
{
    matches!(x.code, Code::Reg) && x.number.cast_unsigned() == RESULT_REGISTER
}

fn arg_of(regs: &Regs, arg: ArgUse) -> Option<ArgValue>
    ensures { result ≡ spec.arg_of regs.now arg }
{
    let w = width_of(arg.mode)?;
    let value = regs.value(u64::from(arg.reg), w)?;
    Some(ArgValue {
        reg: arg.reg,
        mode: arg.mode,
        value,
    })
}

fn args_of(alloc: Global, regs: &Regs, uses: &[ArgUse]) -> Result<Option<ArgValues>, Memory>
    ensures { IfOk result (λ args. args ≡ spec.args_of regs.now uses.now) }
{
    let mut args = Items::new(alloc);
    for arg in uses {
        match arg_of(regs, *arg) {
            None => return Ok(None),
            Some(value) => args.push(value)?,
        }
    }
    Ok(Some(args))
}

/// The call's own expression: the source where the result is set, or all of it.
pub fn call_part(x: &Rtx) -> &Rtx
    ensures { result.now ≡ spec.call_part x.now }
{
    match (x.code, x.kids.as_slice()) {
        (Code::Set, [place, source]) => if is_result(place) { source } else { x },
        _ => x,
    }
}

/// The width in which `a0` is known after a call, or `None` where it is set in no mode.
pub fn result_width(x: &Rtx) -> Option<Width>
    ensures { result ≡ spec.result_width x.now }
{
    match (x.code, x.kids.as_slice()) {
        (Code::Set, [place, _source]) => width_of(place.mode),
        _ => Some(Width::W64),
    }
}

fn target_value(symbols: &Symbols, regs: &Regs, memory: &Memories, x: &Rtx) -> Option<u64>
    ensures { result ≡ spec.target_value symbols.now regs.now memory.now x.now }
{
    let target = target_of(call_part(x))?;
    let at = value(symbols, regs, memory, target, Width::W64)?;
    if at % 4 == 0 { Some(at) } else { None }
}

/// What a called function sees, or `None` where the target or an argument has no value.
pub fn event_of(
    alloc: Global,
    symbols: &Symbols,
    regs: &Regs,
    memory: &Memories,
    ranges: &Ranges,
    x: &Rtx,
    uses: &[ArgUse],
) -> Result<Option<CallEvent>, Memory>
    ensures { IfOk result (λ event.
        event ≡ spec.event_of symbols.now regs.now memory.now ranges.now x.now uses.now) }
{
    let Some(target) = target_value(symbols, regs, memory, x) else {
        return Ok(None);
    };
    let Some(args) = args_of(alloc, regs, uses)? else {
        return Ok(None);
    };
    let memory = visible_part(alloc, memory, ranges)?;
    Ok(Some(CallEvent {
        target,
        args,
        memory,
    }))
}

/// The registers after a reply: `a0` holds its value, and every other call-used register is unset.
pub fn regs_replied(regs: &Regs, w: Width, value: u64) -> Result<Regs, Memory>
    ensures { IfOk result (λ after. after ≡ spec.regs_replied regs.now w value) }
{
    let mut after = regs.copy()?;
    after.unset_call_used();
    after.set(
        RESULT_REGISTER,
        Known {
            width: w,
            value: trunc(value, w),
        },
    )?;
    Ok(after)
}
