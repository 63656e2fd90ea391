//! Regions.
ghost use Rattle.std.specs.Prelude.{◌≡◌, ◌≤◌, length};
ghost use Rattle.rtx_tree.specs.Limit.{most_scheduled};
ghost use Rattle.region_jobs.specs.Region as spec;

use rtx_tree::{Insn, Kind, MOST_SCHEDULED};

/// Whether an instruction is none of jumps, calls, labels and barriers.
pub fn is_plain(insn: &Insn) -> bool
    ensures { result ≡ spec.is_plain insn.now }
{
    matches!(insn.kind, Kind::Plain)
}

/// How many instructions the region has with which some instructions begin.
#[tactic(auto, using(crate::proofs::RegionLaws::goes_on, crate::proofs::RegionLaws::ends_at, crate::proofs::RegionLaws::ends))]
pub fn region_length(insns: &[Insn]) -> usize
    ensures length { result ≡ spec.region_length insns.now }
    ensures within { result ≤ length insns.now }
    ensures few { result ≤ most_scheduled }
{
    let most = (MOST_SCHEDULED as usize).min(insns.len());
    for at in 0..most {
        if !is_plain(&insns[at]) {
            return at;
        }
    }
    most
}
