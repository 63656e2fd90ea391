//! The halves of forms.
ghost use Rattle.std.specs.Prelude.{◌≡◌, IfOk};
ghost use Rattle.md_recog.specs.Recog as spec;

use c_cond::Cond;
use c_eval::is_a;
use md_forms::{Form, FormHead};
use plain_data::{Items, Memory};
use rtx_tree::{Code, Kids, Rtx};
use std::alloc::Global;

/// The half of a form that is asked for.
#[derive(Clone, Copy)]
pub enum Half {
    /// An instruction, of `define_insn` and `define_insn_and_split`.
    Insn,
    /// What is split, of `define_split` and `define_insn_and_split`.
    Split,
    /// Neighbours that others are put in the place of, of `define_peephole2`.
    Window,
}

/// Whether a head defines an instruction.
fn is_instruction(head: FormHead) -> bool
    ensures { result ≡ spec.is_instruction head }
{
    matches!(head, FormHead::Insn | FormHead::InsnAndSplit)
}

fn is_split(head: FormHead) -> bool
    ensures { result ≡ spec.is_split head }
{
    matches!(head, FormHead::Split | FormHead::InsnAndSplit)
}

fn is_peephole(head: FormHead) -> bool
    ensures { result ≡ spec.is_peephole head }
{
    matches!(head, FormHead::Peephole2)
}

fn split_condition(form: &Form) -> &Cond
    ensures { result.now ≡ spec.split_condition form.now.head form.now }
{
    match form.head {
        FormHead::InsnAndSplit => &form.split_condition,
        _ => &form.condition,
    }
}

/// Whether an element of a window asks for a scratch register, and is no instruction.
pub fn is_scratch(pattern: &Rtx) -> bool
    ensures { result ≡ spec.is_scratch pattern.now }
{
    is_a(Code::MatchScratch, pattern)
}

/// The instructions of a window, of its elements.
pub fn window_of(alloc: Global, patterns: &[Rtx]) -> Result<Kids, Memory>
    ensures { IfOk result (λ window. window ≡ spec.window_of patterns.now) }
{
    let mut window = Items::new(alloc);
    for pattern in patterns {
        if !is_scratch(pattern) {
            window.push(pattern.copy(alloc)?)?;
        }
    }
    Ok(window)
}

impl Half {
    /// Whether a form has the half, by its head.
    pub fn is_of(self, head: FormHead) -> bool
        ensures { result ≡ spec.has_half self head }
    {
        match self {
            Half::Insn => is_instruction(head),
            Half::Split => is_split(head),
            Half::Window => is_peephole(head),
        }
    }

    /// The half's condition in a form.
    pub fn condition_of(self, form: &Form) -> &Cond
        ensures { result.now ≡ spec.condition_of self form.now }
    {
        match self {
            Half::Insn => &form.condition,
            Half::Split => split_condition(form),
            Half::Window => &form.condition,
        }
    }
}
