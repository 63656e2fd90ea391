//! Uids of a chain.
ghost use Rattle.std.specs.Prelude.{◌≡◌, ◌||◌, ◌==◌, ◌&&◌, ℕ, not, OnOk};
ghost use Rattle.std.specs.Ordering.{nat_cmp};
ghost use Rattle.std.specs.BTreeSet as set;
ghost use Rattle.rtl_func.specs.Faults.{earlier, first_fault};
ghost use Rattle.rtl_func.specs.Rules as rules;
ghost use Rattle.rtl_func.specs.Uids as spec;

use crate::fault::{Fault, note};
use crate::tables::is_ruled;
use plain_data::Memory;
use rtx_tree::Insn;
use std::alloc::Global;
use std::collections::BTreeSet;

fn is_uid(uid: u32) -> bool
    ensures { result ≡ spec.is_uid uid }
{
    1 <= uid && uid <= 2_147_483_647
}

/// Notes a uid that is none, or that was met, and puts it among those met.
fn note_uid(met: &mut BTreeSet<u32>, uid: u32, first: &mut Option<Fault>) -> Result<(), Memory>
    ensures first { OnOk result (first.new ≡ earlier first.old
        (first_fault (rules.uid_fault (spec.is_uid uid && not
        (set.contains nat_cmp met.old uid)) uid))) }
    ensures met { OnOk result ((other : ℕ) →
        set.contains nat_cmp met.new other ≡ (uid == other || set.contains nat_cmp met.old other)) }
{
    if !(is_uid(uid) && !met.contains(&uid)) {
        note(first, uid, 1);
    }
    met.insert(uid)?;
    Ok(())
}

/// Notes each uid that is none, or that one before has.
pub fn note_uids(alloc: Global, insns: &[Insn], first: &mut Option<Fault>) -> Result<(), Memory>
    ensures { OnOk result (first.new ≡ earlier first.old
        (first_fault (rules.uid_faults insns.now))) }
{
    let mut met = BTreeSet::new(alloc);
    for insn in insns {
        if is_ruled(insn) {
            note_uid(&mut met, insn.uid, first)?;
        }
    }
    Ok(())
}
