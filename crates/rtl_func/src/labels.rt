//! The places of labels, found at once.
ghost use Rattle.std.specs.Prelude.{◌≡◌, ◌<◌, ◌^◌, ℕ, IfOk, OnOk, length};
ghost use Rattle.std.specs.Ordering.{nat_cmp};
ghost use Rattle.std.specs.BTreeMap as map;
ghost use Rattle.rtx_tree.specs.Patterns.{is_label_kind, place_of};
ghost use Rattle.rtl_func.specs.machine.Labels as spec;

use plain_data::Memory;
use rtx_tree::{Insn, Kind};
use std::alloc::Global;
use std::collections::BTreeMap;

/// The place of the first label with each uid.
pub type Labels = BTreeMap<u64, u32>;

fn is_label(kind: Kind) -> bool
    ensures { result ≡ is_label_kind kind }
{
    matches!(kind, Kind::Label)
}

fn put(labels: &mut Labels, insn: &Insn, place: u32) -> Result<(), Memory>
    ensures { OnOk result ((uid : ℕ) →
        map.get nat_cmp labels.new uid ≡ spec.placed insn.now place uid
        (map.get nat_cmp labels.old uid)) }
{
    if is_label(insn.kind) {
        labels.insert(u64::from(insn.uid), place)?;
    }
    Ok(())
}

/// The labels of a chain.
pub fn labels_of(alloc: Global, insns: &[Insn]) -> Result<Labels, Memory>
    requires { length insns.now < 2 ^ 32 }
    ensures { IfOk result (λ labels. (uid : ℕ) →
        map.get nat_cmp labels uid ≡ place_of uid insns.now) }
{
    let mut labels = BTreeMap::new(alloc);
    for place in (0..insns.len()).rev() {
        put(&mut labels, &insns[place], place as u32)?;
    }
    Ok(labels)
}
