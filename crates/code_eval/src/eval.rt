//! A function and its code, tried from one start in one world.
ghost use Rattle.std.specs.Prelude.{◌≡◌, ◌++◌, IfOk, codes};
ghost use Rattle.func_run.specs.Run as rtl;
ghost use Rattle.func_run.specs.Standing.{standing_of};
ghost use Rattle.code_eval.specs.Eval as spec;
ghost use Rattle.code_eval.specs.Eval.{AgreeAsSame, IsFair};
ghost use Rattle.code_eval.specs.World as worlds;
ghost use Rattle.code_eval.specs.Ending as endings;

use crate::ending::{Ending, code_ending, print_line, rtl_ending};
use crate::start::{code_start, rtl_start};
use crate::world::world_of;
use func_run::{Standing, standing_after};
use plain_data::Memory;
use rtx_tree::{Function, Start, World};
use rv_line::lines_standing;
use rv_text::CodeItem;
use std::alloc::Global;

/// How many lines are run where a function is run for so many steps.
fn lines_for(steps: u16) -> u64
    ensures { result ≡ spec.lines_for steps }
{
    64 * u64::from(steps) + 1000
}

/// How the run of a function stands. A chain with more places than have a number is wanted as memory is.
fn rtl_standing(
    alloc: Global,
    f: &Function,
    start: &Start,
    world: &World,
    steps: u16,
) -> Result<Standing, Memory>
    ensures { IfOk result (λ standing.
        standing ≡ standing_of (rtl.run_of f.now start.now world.now steps)) }
{
    if f.insns.len() <= 0xffff_ffff {
        standing_after(alloc, f, start, world, u64::from(steps))
    } else {
        Err(Memory)
    }
}

/// What is told of the function.
fn rtl_run(
    alloc: Global,
    f: &Function,
    world: &World,
    steps: u16,
    args: [u64; 8],
) -> Result<Ending, Memory>
    requires { world.now ≡ worlds.world_of f.now (spec.lines_for steps) }
    ensures { IfOk result (λ ending.
        ending ≡ endings.rtl_ending (spec.rtl_outcome f.now steps args)) }
{
    let start = rtl_start(alloc, f, args)?;
    let standing = rtl_standing(alloc, f, &start, world, steps)?;
    Ok(rtl_ending(&standing))
}

/// What is told of its code.
fn code_run(
    alloc: Global,
    f: &Function,
    items: &[CodeItem],
    world: &World,
    steps: u16,
    args: [u64; 8],
) -> Result<Ending, Memory>
    requires { world.now ≡ worlds.world_of f.now (spec.lines_for steps) }
    ensures { IfOk result (λ ending.
        ending ≡ endings.code_ending f.now.result (spec.code_outcome f.now items.now steps args)) }
{
    let start = code_start(alloc, f, args)?;
    let standing = lines_standing(alloc, items, &start, world, lines_for(steps))?;
    Ok(code_ending(f.result, &standing))
}

fn lines_of(alloc: Global, rtl: Ending, code: Ending) -> Result<Vec<u8>, Memory>
    ensures { IfOk result (λ text.
        text.items ≡ endings.ending_line (codes "rtl") rtl ++ endings.ending_line
        (codes "code") code) }
{
    let mut text = Vec::new(alloc);
    print_line(b"rtl", rtl, &mut text)?;
    print_line(b"code", code, &mut text)?;
    Ok(text)
}

/// The two outcomes, a line for each.
fn told_in(
    alloc: Global,
    f: &Function,
    items: &[CodeItem],
    world: &World,
    steps: u16,
    args: [u64; 8],
) -> Result<Vec<u8>, Memory>
    requires { world.now ≡ worlds.world_of f.now (spec.lines_for steps) }
    ensures { IfOk result (λ text. text.items ≡ spec.eval_text f.now items.now steps args) }
{
    let rtl = rtl_run(alloc, f, world, steps, args)?;
    let code = code_run(alloc, f, items, world, steps, args)?;
    lines_of(alloc, rtl, code)
}

/// Runs a function for so many steps, and its lines and labels for 64 times as many lines and 1,000
/// more, with these values of `a0` to `a7`, and gives the two outcomes, a line for each.
pub fn eval_text(
    alloc: Global,
    f: &Function,
    items: &[CodeItem],
    steps: u16,
    args: [u64; 8],
) -> Result<Vec<u8>, Memory>
    ensures told { IfOk result (λ text. text.items ≡ spec.eval_text f.now items.now steps args) }
    // The trial is one of which same behaviour speaks, and it says that both outcomes agree.
    ensures fair { IfOk result (λ text. IsFair f.now steps args) }
    ensures same { IfOk result (λ text. AgreeAsSame f.now items.now steps args) }
{
    // Each of these has 64 bits.
    let [_a0, _a1, _a2, _a3, _a4, _a5, _a6, _a7] = args;
    let world = world_of(alloc, f, lines_for(steps))?;
    told_in(alloc, f, items, &world, steps, args)
}
