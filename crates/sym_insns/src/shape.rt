//! Which instructions can be compared.
ghost use Rattle.std.specs.Prelude.{◌≡◌, ◌<◌, ◌^◌, length};
ghost use Rattle.rtx_tree.specs.Tree.{head_of};
ghost use Rattle.sym_insns.specs.Shape as spec;

use crate::jump::has_target;
use reg_uses::is_return;
use rtl_func::{call_result_agrees, kinds_agree, parallels_hold_simple, shapes_agree};
use rtx_tree::{Code, Insn, Kind, Rtx};

/// Whether a tree is no register with a number below 0.
fn is_natural(x: &Rtx) -> bool
    ensures { result ≡ spec.is_natural (head_of x.now).code (head_of x.now).number }
{
    !matches!(x.code, Code::Reg) || x.number >= 0
}

/// Whether no register in a tree has a number below 0.
#[tactic(auto, using(crate::proofs::Shapes::natural_out))]
fn all_natural(x: &Rtx) -> bool
    ensures { result ≡ spec.all_natural x.now }
{
    if !is_natural(x) {
        return false;
    }
    for kid in x.kids.as_slice() {
        if !all_natural(kid) {
            return false;
        }
    }
    true
}

fn is_shaped(insn: &Insn) -> bool
    ensures { result ≡ spec.is_shaped insn.now }
{
    kinds_agree(insn.kind, &insn.pattern)
        && shapes_agree(&insn.pattern)
        && all_natural(&insn.pattern)
        && call_result_agrees(insn.kind, &insn.pattern, insn.uses.as_slice())
        && parallels_hold_simple(&insn.pattern)
}

/// Whether an instruction can be compared, which may be the last.
fn does_fit(insn: &Insn, is_last: bool) -> bool
    ensures { result ≡ spec.fits_kind insn.now.kind insn.now is_last }
{
    match insn.kind {
        Kind::Plain => is_shaped(insn),
        Kind::Jump => {
            is_shaped(insn) && !is_return(insn) && has_target(&insn.pattern) && is_last
        }
        Kind::Call => is_shaped(insn) && is_last,
        Kind::Label => false,
        Kind::Barrier => kinds_agree(Kind::Label, &insn.pattern),
    }
}

/// The place of the first instruction that can't be compared.
#[tactic(auto, using(crate::proofs::Shapes::end_at))]
pub fn bad_insn(insns: &[Insn]) -> Option<u32>
    requires { length insns.now < 2 ^ 32 }
    ensures { result ≡ spec.bad_insn insns.now }
{
    for (i, insn) in insns.iter().enumerate() {
        if !does_fit(insn, i + 1 == insns.len()) {
            return Some(i as u32);
        }
    }
    None
}
