//! One pass over what was made of a function.
ghost use Rattle.std.specs.Prelude.{◌≡◌};
ghost use Rattle.pass_name.specs.declared.pass.Pass.TheVariants as passes;
ghost use Rattle.func_after.specs.After as spec;
ghost use Rattle.func_after.specs.After.{Gives, PassComes, PassMakes};

use crate::change::{
    Change, combined, covered, lowered, plainly, reused, scheduled, split_again, split_first,
};
use crate::compilation::Compilation;
use crate::refusal::{refused_for, unreloaded_for};
use assign::{Layout, assign, layout};
use frame::frame;
use live::live_rows_of;
use md_desc::Description;
use pass_name::Pass;
use pass_refusal::PassRefusal;
use reload::reload;
use rtl_chain::instruction_count;
use rtx_tree::{Limit, MOST_MADE, Name};
use run_refusal::Refusal;
use std::alloc::Global;

/// How many instructions are combined behind a pass: as many as before, unless it combines them.
fn combined_behind(pass: Pass, before: usize, now: usize) -> usize
    ensures { result ≡ spec.combined_behind pass before now }
{
    match pass {
        Pass::Combine => now,
        Pass::Read
        | Pass::Lower
        | Pass::Reuse
        | Pass::Split1
        | Pass::Reload
        | Pass::Frame
        | Pass::Split2
        | Pass::Peephole2
        | Pass::Schedule
        | Pass::Output => before,
    }
}

/// What was made, by a name, how many instructions were combined before, and the layout of the
/// frame, where a pass changed the function, or what the pass refuses.
fn told(
    name: Name,
    before: usize,
    layout: Layout,
    pass: Pass,
    change: Result<Change, PassRefusal>,
) -> Result<Compilation, Refusal>
    ensures { result ≡ spec.told_for name before layout pass change }
{
    match change {
        Ok(change) => Ok(Compilation {
            function: change.function,
            combined: combined_behind(pass, before, change.combined),
            layout,
        }),
        Err(e) => Err(refused_for(name, pass, e)),
    }
}

/// The function with homes, by its name, and the layout of its frame.
#[tactic(auto, using(crate::proofs::PassLaws::reload_gave, crate::proofs::PassLaws::reload_refused, reload_homes::proofs::OrderedLaws::ordered))]
fn reloaded(
    alloc: Global,
    desc: &Description,
    name: Name,
    m: Compilation,
) -> Result<Compilation, Refusal>
    requires { name ≡ m.function.name }
    ensures { Gives result (PassMakes desc.now m passes.Reload) }
{
    let function = m.function;
    let live = live_rows_of(alloc, &function)?;
    let homes = assign(alloc, &function, live.as_slice())?;
    let layout = layout(alloc, &function, &homes)?;
    match reload(alloc, desc, function, &homes, &layout) {
        Ok(function) => Ok(Compilation {
            function,
            combined: m.combined,
            layout,
        }),
        Err(e) => Err(unreloaded_for(name, e)),
    }
}

/// The function with its frame, by its name.
#[tactic(auto, using(crate::proofs::PassLaws::frame_told))]
fn framed(
    alloc: Global,
    desc: &Description,
    name: Name,
    m: Compilation,
) -> Result<Compilation, Refusal>
    requires { name ≡ m.function.name }
    ensures { Gives result (PassMakes desc.now m passes.Frame) }
{
    let Compilation {
        function,
        combined: before,
        layout,
    } = m;
    let change = plainly(frame(alloc, desc, function, &layout));
    told(name, before, layout, Pass::Frame, change)
}

/// What a pass makes of what was made, or what it refuses.
#[tactic(auto, using(crate::proofs::PassLaws::change_told))]
fn made_by(
    alloc: Global,
    desc: &Description,
    m: Compilation,
    pass: Pass,
) -> Result<Compilation, Refusal>
    ensures { Gives result (PassMakes desc.now m pass) }
{
    let name = m.function.name.copy(alloc)?;
    match pass {
        Pass::Read | Pass::Output => Ok(m),
        Pass::Lower => told(
            name,
            m.combined,
            m.layout,
            pass,
            lowered(alloc, desc, m.function),
        ),
        Pass::Reuse => told(
            name,
            m.combined,
            m.layout,
            pass,
            reused(alloc, desc, m.function),
        ),
        Pass::Combine => told(
            name,
            m.combined,
            m.layout,
            pass,
            combined(alloc, desc, m.function),
        ),
        Pass::Split1 => told(
            name,
            m.combined,
            m.layout,
            pass,
            split_first(alloc, desc, m.function),
        ),
        Pass::Reload => reloaded(alloc, desc, name, m),
        Pass::Frame => framed(alloc, desc, name, m),
        Pass::Split2 => told(
            name,
            m.combined,
            m.layout,
            pass,
            split_again(alloc, desc, m.function),
        ),
        Pass::Peephole2 => told(
            name,
            m.combined,
            m.layout,
            pass,
            covered(alloc, desc, m.function),
        ),
        Pass::Schedule => told(
            name,
            m.combined,
            m.layout,
            pass,
            scheduled(alloc, desc, m.function),
        ),
    }
}

/// What a pass comes to: what it makes, where that is not too long.
#[tactic(auto, using(crate::proofs::PassLaws::pass_refused, crate::proofs::PassLaws::pass_long, crate::proofs::PassLaws::pass_made))]
pub(crate) fn passed(
    alloc: Global,
    desc: &Description,
    m: Compilation,
    pass: Pass,
) -> Result<Compilation, Refusal>
    ensures { Gives result (PassComes desc.now m pass) }
{
    let made = made_by(alloc, desc, m, pass)?;
    let count = instruction_count(made.function.insns.as_slice());
    if count > MOST_MADE {
        return Err(Refusal::Limit {
            which: Limit::Instructions,
            count: count as u64,
        });
    }
    Ok(made)
}
