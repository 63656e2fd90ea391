//! What passes make that change the function alone.
ghost use Rattle.std.specs.Prelude.{◌≡◌};
ghost use Rattle.pass_name.specs.declared.pass.Pass.TheVariants as passes;
ghost use Rattle.pass_refusal.specs.Outcome.{Gives};
ghost use Rattle.func_after.specs.After as spec;
ghost use Rattle.func_after.specs.After.{ChangeComes};

use combine::combine;
use lower::lower;
use md_desc::Description;
use pass_name::Pass;
use pass_refusal::PassRefusal;
use peep2::peep2;
use reuse::reuse;
use rtx_tree::Function;
use schedule::schedule;
use split::split;
use std::alloc::Global;

/// What a pass makes that changes the function alone.
#[derive(Drop)]
pub struct Change {
    /// The function, as it is now.
    pub function: Function,
    /// How many of its instructions the pass has combined.
    pub combined: usize,
}

/// What a pass makes that gives a function and nothing beside it.
pub(crate) fn plainly(made: Result<Function, PassRefusal>) -> Result<Change, PassRefusal>
    ensures { result ≡ spec.plainly made }
{
    match made {
        Ok(function) => Ok(Change {
            function,
            combined: 0,
        }),
        Err(e) => Err(e),
    }
}

/// What lowering makes.
#[tactic(auto, using(crate::proofs::ChangeLaws::lowered))]
pub(crate) fn lowered(alloc: Global, desc: &Description, f: Function) -> Result<Change, PassRefusal>
    ensures { Gives result (ChangeComes desc.now f passes.Lower) }
{
    plainly(lower(alloc, desc, f))
}

/// What the reuse of values makes.
#[tactic(auto, using(crate::proofs::ChangeLaws::reused))]
pub(crate) fn reused(alloc: Global, desc: &Description, f: Function) -> Result<Change, PassRefusal>
    ensures { Gives result (ChangeComes desc.now f passes.Reuse) }
{
    let (function, _steps) = reuse(alloc, desc, f)?;
    Ok(Change {
        function,
        combined: 0,
    })
}

/// What combination makes.
#[tactic(auto, using(crate::proofs::ChangeLaws::combined))]
pub(crate) fn combined(
    alloc: Global,
    desc: &Description,
    f: Function,
) -> Result<Change, PassRefusal>
    ensures { Gives result (ChangeComes desc.now f passes.Combine) }
{
    let (function, combined) = combine(alloc, desc, f)?;
    Ok(Change { function, combined })
}

/// What the splits make before registers have homes.
#[tactic(auto, using(crate::proofs::ChangeLaws::split_first))]
pub(crate) fn split_first(
    alloc: Global,
    desc: &Description,
    f: Function,
) -> Result<Change, PassRefusal>
    ensures { Gives result (ChangeComes desc.now f passes.Split1) }
{
    plainly(split(alloc, desc, f, Pass::Split1))
}

/// What the splits make once they have homes.
#[tactic(auto, using(crate::proofs::ChangeLaws::split_again))]
pub(crate) fn split_again(
    alloc: Global,
    desc: &Description,
    f: Function,
) -> Result<Change, PassRefusal>
    ensures { Gives result (ChangeComes desc.now f passes.Split2) }
{
    plainly(split(alloc, desc, f, Pass::Split2))
}

/// What peepholes make.
#[tactic(auto, using(crate::proofs::ChangeLaws::covered))]
pub(crate) fn covered(alloc: Global, desc: &Description, f: Function) -> Result<Change, PassRefusal>
    ensures { Gives result (ChangeComes desc.now f passes.Peephole2) }
{
    plainly(peep2(alloc, desc, f))
}

/// What putting instructions in order makes.
#[tactic(auto, using(crate::proofs::ChangeLaws::scheduled))]
pub(crate) fn scheduled(
    alloc: Global,
    desc: &Description,
    f: Function,
) -> Result<Change, PassRefusal>
    ensures { Gives result (ChangeComes desc.now f passes.Schedule) }
{
    let (function, _cycles) = schedule(alloc, desc, desc.pipeline(), f)?;
    Ok(Change {
        function,
        combined: 0,
    })
}
