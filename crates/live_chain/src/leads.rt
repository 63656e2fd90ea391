//! The places to which an instruction of a chain leads, where the chain is a list with a gap.
ghost use Rattle.std.specs.Prelude.{◌≡◌, ◌<◌, ◌^◌, [], ℕ, length};
ghost use Rattle.rtx_tree.specs.Patterns as patterns;
ghost use Rattle.rtl_func.specs.Successors as spec;

use gap_list::GapList;
use rtl_func::Successors;
use rtx_tree::{Code, Insn, Kind, Rtx, is_label};

/// The place of the first label with a uid, if it stands.
fn label_place(insns: &GapList<Insn>, uid: u64) -> Option<u32>
    requires { length insns.now < 2 ^ 32 }
    ensures { result ≡ patterns.place_of uid insns.now }
{
    for at in 0..insns.len() {
        if is_label(insns.item(at), uid) {
            return Some(at as u32);
        }
    }
    None
}

/// No place.
fn nowhere() -> Successors
    ensures { spec.places_in result ≡ [] }
{
    Successors {
        first: None,
        second: None,
    }
}

/// Where a tree leads that the pc is set to, if it is a label.
fn goes_to(insns: &GapList<Insn>, label: &Rtx) -> Successors
    requires { length insns.now < 2 ^ 32 }
    ensures { (index : ℕ) → spec.places_in result ≡
        spec.flow_places insns.now index (spec.goes_to (patterns.label_of label.now)) }
{
    match label.label_uid() {
        None => nowhere(),
        Some(uid) => Successors {
            first: label_place(insns, uid),
            second: None,
        },
    }
}

/// Where a branch to a label leads, if it is one.
fn branches_to(insns: &GapList<Insn>, index: u32, label: &Rtx) -> Successors
    requires short { length insns.now < 2 ^ 32 }
    requires within { index < length insns.now }
    ensures { spec.places_in result ≡
        spec.flow_places insns.now index (spec.branches_to (patterns.label_of label.now)) }
{
    match label.label_uid() {
        None => nowhere(),
        Some(uid) => Successors {
            first: Some(index + 1),
            second: label_place(insns, uid),
        },
    }
}

/// Where what the pc is set to leads.
fn source_leads(insns: &GapList<Insn>, index: u32, source: &Rtx) -> Successors
    requires short { length insns.now < 2 ^ 32 }
    requires within { index < length insns.now }
    ensures { spec.places_in result ≡
        spec.flow_places insns.now index (spec.source_flow source.now) }
{
    match (source.code, source.kids.as_slice()) {
        (Code::IfThenElse, [_, label, other]) => {
            if other.is_pc() {
                branches_to(insns, index, label)
            } else {
                nowhere()
            }
        }
        _ => goes_to(insns, source),
    }
}

/// Where a jump leads.
fn jump_leads(insns: &GapList<Insn>, index: u32, x: &Rtx) -> Successors
    requires short { length insns.now < 2 ^ 32 }
    requires within { index < length insns.now }
    ensures { spec.places_in result ≡
        spec.flow_places insns.now index (spec.jump_flow x.now) }
{
    match (x.code, x.kids.as_slice()) {
        (Code::Set, [place, source]) => {
            if place.is_pc() {
                source_leads(insns, index, source)
            } else {
                nowhere()
            }
        }
        _ => nowhere(),
    }
}

/// The places to which the instruction at a place leads. Only where it is a jump are labels looked
/// up.
pub fn successors(insns: &GapList<Insn>, index: u32) -> Successors
    requires { length insns.now < 2 ^ 32 }
    ensures { spec.places_in result ≡ spec.successors_of insns.now index }
{
    if (index as usize) >= insns.len() {
        return nowhere();
    }
    let insn = insns.item(index as usize);
    match insn.kind {
        Kind::Jump => jump_leads(insns, index, &insn.pattern),
        Kind::Plain | Kind::Call | Kind::Label | Kind::Barrier => Successors {
            first: Some(index + 1),
            second: None,
        },
    }
}
