//! The places to which an instruction leads.
ghost use Rattle.std.specs.Prelude.{◌≡◌, ◌+◌, ◌<◌, ◌^◌, ℕ, None, length};
ghost use Rattle.std.specs.Ordering.{nat_cmp};
ghost use Rattle.std.specs.BTreeMap as map;
ghost use Rattle.rtx_tree.specs.Patterns.{place_of};
ghost use Rattle.rtl_func.specs.Successors as spec;

use crate::flow::{Flow, Successors, flow_of};
use crate::labels::Labels;
use rtx_tree::{Function, Insn, label_place};

fn label_of(insns: &[Insn], uid: u64) -> Option<u32>
    requires { length insns.now < 2 ^ 32 }
    ensures { result ≡ place_of uid insns.now }
{
    Some(label_place(insns, uid)? as u32)
}

/// The places to which the instruction at `index` of the function's chain leads; one place alone is
/// the first of the two. The place past the last is the exit, which leads nowhere, and so does
/// every place behind it. No memory is taken.
pub fn successors(f: &Function, index: u32) -> Successors
    requires { length f.now.insns < 2 ^ 32 }
    ensures places { spec.places_in result ≡ spec.successors_of f.now.insns index }
    ensures first { result.first ≡ None → result.second ≡ None }
{
    let insns = f.insns.as_slice();
    let Some(insn) = insns.get(index as usize) else {
        return Successors {
            first: None,
            second: None,
        };
    };
    match flow_of(insn) {
        Flow::Falls => Successors {
            first: Some(index + 1),
            second: None,
        },
        Flow::Goes(uid) => Successors {
            first: label_of(insns, uid),
            second: None,
        },
        Flow::Branches(uid) => Successors {
            first: Some(index + 1),
            second: label_of(insns, uid),
        },
        Flow::Stops => Successors {
            first: None,
            second: None,
        },
    }
}

/// The places to which the instruction at `index` of a chain leads, with the labels' places known.
pub fn successors_by(labels: &Labels, insns: &[Insn], index: u32) -> Successors
    requires short { length insns.now < 2 ^ 32 }
    requires labels { (uid : ℕ) → map.get nat_cmp labels.now uid ≡ place_of uid insns.now }
    ensures places { spec.places_in result ≡ spec.successors_of insns.now index }
    ensures first { result.first ≡ None → result.second ≡ None }
{
    let Some(insn) = insns.get(index as usize) else {
        return Successors {
            first: None,
            second: None,
        };
    };
    match flow_of(insn) {
        Flow::Falls => Successors {
            first: Some(index + 1),
            second: None,
        },
        Flow::Goes(uid) => Successors {
            first: labels.get(&uid).copied(),
            second: None,
        },
        Flow::Branches(uid) => Successors {
            first: Some(index + 1),
            second: labels.get(&uid).copied(),
        },
        Flow::Stops => Successors {
            first: None,
            second: None,
        },
    }
}
