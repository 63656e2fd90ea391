//! The one window that leads back to the caller on both sides.
ghost use Rattle.std.specs.Prelude.{◌≡◌};
ghost use Rattle.rv_text.specs.Lines.{action_of};
ghost use Rattle.equate.specs.Side as spec;
ghost use Rattle.equate.specs.Views.{side_of};

use crate::verdict::Side;
use reg_uses::is_return;
use rtl_func::shapes_agree;
use rtx_tree::{Insn, Kind};
use rv_text::{Action, Line, Source};

fn is_jump(kind: Kind) -> bool
    ensures { result ≡ spec.is_jump kind }
{
    match kind {
        Kind::Jump => true,
        Kind::Plain | Kind::Call | Kind::Label | Kind::Barrier => false,
    }
}

/// Whether an instruction is a jump that is `(return)`.
fn returns(insn: &Insn) -> bool
    ensures { result ≡ spec.returns insn.now }
{
    is_jump(insn.kind) && is_return(insn) && shapes_agree(&insn.pattern)
}

fn is_one_return(insns: &[Insn]) -> bool
    ensures { result ≡ spec.is_one_return insns.now }
{
    match insns {
        [] => false,
        [insn] => returns(insn),
        [_first, _second, ..] => false,
    }
}

fn returns_through(source: Source, line: &Line) -> bool
    ensures { result ≡ spec.returns_through source line.now }
{
    match source {
        Source::ReturnAddress => true,
        Source::First => line.rs == 1,
        Source::Second | Source::Immediate | Source::Constant { .. } => false,
    }
}

/// Whether a line is `ret` or `jr ra`.
fn returns_line(line: &Line) -> bool
    ensures { result ≡ spec.returns_by (action_of line.now) line.now }
{
    match line.action() {
        Some(Action::Return { through }) => returns_through(through, line),
        _ => false,
    }
}

fn are_one_return(lines: &[Line]) -> bool
    ensures { result ≡ spec.is_one_return_line (spec.Lines 0 lines.now) }
{
    match lines {
        [] => false,
        [line] => returns_line(line),
        [_first, _second, ..] => false,
    }
}

fn is_one_return_line(side: &Side) -> bool
    ensures { result ≡ spec.is_one_return_line (side_of side.now) }
{
    match side {
        Side::Insns { .. } => false,
        Side::Lines { lines, .. } => are_one_return(lines.as_slice()),
    }
}

/// Whether the one side is one `(return)`, and the other one line `ret` or `jr ra`.
pub fn both_return(before: &[Insn], after: &Side) -> bool
    ensures { result ≡ spec.both_return before.now (side_of after.now) }
{
    is_one_return(before) && is_one_return_line(after)
}
