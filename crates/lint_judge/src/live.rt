//! What is live behind an instruction that is tried.
ghost use Rattle.std.specs.Prelude.{IfOk};
ghost use Rattle.lint_judge.specs.Judged.{AreAllLive};

use plain_data::Memory;
use rtx_tree::RegSet;
use std::alloc::Global;

/// The registers of the machine but `zero`.
pub fn all_live(alloc: Global) -> Result<RegSet, Memory>
    ensures { IfOk result AreAllLive }
{
    let mut live = RegSet::new(alloc);
    for reg in 1..32 {
        live.insert(reg)?;
    }
    Ok(live)
}
