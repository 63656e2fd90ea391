//! Where an instruction leads, by the uid of a label.
ghost use Rattle.std.specs.Prelude.{◌≡◌};
ghost use Rattle.rtx_tree.specs.Patterns.{label_of};
ghost use Rattle.rtl_func.specs.Successors as spec;

use rtx_tree::{Code, Insn, Kind, Rtx};

/// Where an instruction leads.
#[derive(Clone, Copy)]
pub enum Flow {
    /// To the next place.
    Falls,
    /// To the label with this uid.
    Goes(u64),
    /// To the next place, or to the label with this uid.
    Branches(u64),
    /// Nowhere.
    Stops,
}

/// The places to which an instruction leads, at most two.
#[derive(Clone, Copy)]
pub struct Successors {
    /// The next place, or the one place to which an instruction leads.
    pub first: Option<u32>,
    /// The place of a branch's label.
    pub second: Option<u32>,
}

fn goes_to(label: &Rtx) -> Flow
    ensures { result ≡ spec.goes_to (label_of label.now) }
{
    match label.label_uid() {
        None => Flow::Stops,
        Some(uid) => Flow::Goes(uid),
    }
}

fn branches_to(label: &Rtx) -> Flow
    ensures { result ≡ spec.branches_to (label_of label.now) }
{
    match label.label_uid() {
        None => Flow::Stops,
        Some(uid) => Flow::Branches(uid),
    }
}

fn source_flow(source: &Rtx) -> Flow
    ensures { result ≡ spec.source_flow source.now }
{
    match (source.code, source.kids.as_slice()) {
        (Code::IfThenElse, [_, label, other]) => {
            if other.is_pc() {
                branches_to(label)
            } else {
                Flow::Stops
            }
        }
        _ => goes_to(source),
    }
}

fn jump_flow(x: &Rtx) -> Flow
    ensures { result ≡ spec.jump_flow x.now }
{
    match (x.code, x.kids.as_slice()) {
        (Code::Set, [place, source]) => {
            if place.is_pc() {
                source_flow(source)
            } else {
                Flow::Stops
            }
        }
        _ => Flow::Stops,
    }
}

/// Where an instruction leads.
pub fn flow_of(insn: &Insn) -> Flow
    ensures { result ≡ spec.flow_of insn.now }
{
    match insn.kind {
        Kind::Jump => jump_flow(&insn.pattern),
        Kind::Plain | Kind::Call | Kind::Label | Kind::Barrier => Flow::Falls,
    }
}
