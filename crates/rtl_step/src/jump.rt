//! Where a jump leads.
ghost use Rattle.std.specs.Prelude.{◌≡◌};
ghost use Rattle.rtl_step.specs.Jump as spec;

use crate::expression::value;
use crate::regs::Regs;
use bits64::Width;
use rtx_tree::{Code, Memories, Rtx, Symbols};

/// Where a jump leads.
#[derive(Clone, Copy)]
pub enum Way {
    /// To the next instruction.
    Falls,
    /// To the label with this uid.
    Goes(u64),
    /// Out of the function.
    Leaves,
}

fn goes_to(label: &Rtx) -> Option<Way>
    ensures { result ≡ spec.goes_to label.now }
{
    Some(Way::Goes(label.label_uid()?))
}

/// To the label where the test is not 0.
fn branch(symbols: &Symbols, regs: &Regs, memory: &Memories, test: &Rtx, label: &Rtx) -> Option<Way>
    ensures { result ≡ spec.branch symbols.now regs.now memory.now test.now label.now }
{
    let holds = value(symbols, regs, memory, test, Width::W64)?;
    let uid = label.label_uid()?;
    if holds == 0 {
        Some(Way::Falls)
    } else {
        Some(Way::Goes(uid))
    }
}

fn way_of(symbols: &Symbols, regs: &Regs, memory: &Memories, source: &Rtx) -> Option<Way>
    ensures { result ≡ spec.way_of symbols.now regs.now memory.now source.now }
{
    match (source.code, source.kids.as_slice()) {
        (Code::IfThenElse, [test, label, other]) => {
            if other.is_pc() {
                branch(symbols, regs, memory, test, label)
            } else {
                None
            }
        }
        _ => goes_to(source),
    }
}

/// Where a jump leads, or `None` where it has no such meaning.
pub fn jump_of(symbols: &Symbols, regs: &Regs, memory: &Memories, x: &Rtx) -> Option<Way>
    ensures { result ≡ spec.jump_of symbols.now regs.now memory.now x.now }
{
    match (x.code, x.kids.as_slice()) {
        (Code::Return, _) => Some(Way::Leaves),
        (Code::Set, [place, source]) => {
            if place.is_pc() {
                way_of(symbols, regs, memory, source)
            } else {
                None
            }
        }
        _ => None,
    }
}
