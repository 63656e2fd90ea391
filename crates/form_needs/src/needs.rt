//! Which instructions need a form.
ghost use Rattle.std.specs.Prelude.{◌≡◌};
ghost use Rattle.form_needs.specs.Needs as spec;

use rtx_tree::{Code, Insn, Kind};

/// Whether a place of this kind is an instruction.
pub fn is_kind(kind: Kind) -> bool
    ensures { result ≡ spec.is_kind kind }
{
    matches!(kind, Kind::Plain | Kind::Jump | Kind::Call)
}

fn is_note(code: Code) -> bool
    ensures { result ≡ spec.is_note code }
{
    matches!(code, Code::Use | Code::Clobber)
}

/// Whether some form has to match an instruction: it is none of labels, barriers, and a `use` or
/// `clobber` alone.
pub fn needs_form(insn: &Insn) -> bool
    ensures { result ≡ spec.needs_form insn.now }
{
    is_kind(insn.kind) && !is_note(insn.pattern.code)
}

/// Whether an instruction gives nothing at output: a barrier, and a `use` or `clobber` alone.
pub fn is_silent(insn: &Insn) -> bool
    ensures { result ≡ spec.is_silent insn.now }
{
    !matches!(insn.kind, Kind::Label) && !needs_form(insn)
}
