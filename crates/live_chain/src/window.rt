//! Windows of a chain as they are seen from outside.
ghost use Rattle.std.specs.Prelude.{◌≡◌, true, MatchOption};
ghost use Rattle.std.specs.List.{list_all};
ghost use Rattle.rtx_tree.specs.Patterns as patterns;
ghost use Rattle.rtl_func.specs.declared.flow.Flow.TheVariants.{Falls};
ghost use Rattle.rtl_func.specs.Successors.{source_flow, jump_flow};
ghost use Rattle.live_chain.specs.machine.Window as spec;

use reg_uses::is_return;
use rtl_func::is_jump;
use rtx_tree::{Code, Insn, Kind, Rtx};

/// Whether an instruction is neither a label nor a return.
pub fn is_inner(insn: &Insn) -> bool
    ensures { result ≡ spec.is_inner insn.now }
{
    !matches!(insn.kind, Kind::Label) && !is_return(insn)
}

/// Whether an instruction leads on to the next alone, and is entered from the one in front of it
/// alone: it is neither a label nor a return, nor a jump.
pub fn passes(insn: &Insn) -> bool
    ensures { result ≡ spec.passes insn.now }
{
    is_inner(insn) && !is_jump(insn)
}

/// Whether each of some instructions does.
pub fn all_pass(insns: &[Insn]) -> bool
    ensures { result ≡ list_all spec.passes insns.now }
{
    insns.iter().all(passes)
}

/// Whether a window is left at its end alone, by no return, and entered at its beginning alone.
pub fn leads_last(window: &[Insn]) -> bool
    ensures { result ≡ true → spec.leads_last window.now ≡ true }
{
    match window.split_last() {
        None => true,
        Some((last, before)) => is_inner(last) && all_pass(before),
    }
}

/// Whether two trees stand for the same label.
fn same_label(a: &Rtx, b: &Rtx) -> bool
    ensures { result ≡ true → patterns.label_of a.now ≡ patterns.label_of b.now }
{
    match (a.label_uid(), b.label_uid()) {
        (Some(a), Some(b)) => a == b,
        (None, None) => true,
        _ => false,
    }
}

/// Whether the pc is seen to be set to the same places.
fn same_source(a: &Rtx, b: &Rtx) -> bool
    ensures { result ≡ true → source_flow a.now ≡ source_flow b.now }
{
    match (a.code, a.kids.as_slice(), b.code, b.kids.as_slice()) {
        (Code::IfThenElse, [_, first, on], Code::IfThenElse, [_, second, on_too]) => {
            on.is_pc() && on_too.is_pc() && same_label(first, second)
        }
        (Code::LabelRef, [first], Code::LabelRef, [second]) => first.number == second.number,
        _ => false,
    }
}

/// Whether two jumps are seen to lead to the same places.
fn same_jump(a: &Rtx, b: &Rtx) -> bool
    ensures { result ≡ true → jump_flow a.now ≡ jump_flow b.now }
{
    match (a.code, a.kids.as_slice(), b.code, b.kids.as_slice()) {
        (Code::Set, [pc, first], Code::Set, [pc_too, second]) => {
            pc.is_pc() && pc_too.is_pc() && same_source(first, second)
        }
        _ => false,
    }
}

/// The pattern of the jump at the end of a window, if there is one.
fn last_jump(window: &[Insn]) -> Option<&Rtx>
    ensures { MatchOption result (spec.flow_behind window.now ≡ Falls)
        (λ x. spec.flow_behind window.now ≡ jump_flow x.now) }
{
    let last = window.last()?;
    if is_jump(last) {
        Some(&last.pattern)
    } else {
        None
    }
}

/// Whether two windows are seen to lead to the same places.
pub fn same_flow(old: &[Insn], new: &[Insn]) -> bool
    ensures { result ≡ true → spec.flow_behind old.now ≡ spec.flow_behind new.now }
{
    match (last_jump(old), last_jump(new)) {
        (None, None) => true,
        (Some(first), Some(second)) => same_jump(first, second),
        _ => false,
    }
}
