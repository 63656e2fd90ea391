//! What counts at output.
ghost use Rattle.std.specs.Prelude.{◌≡◌, ◌↔◌, ◌<◌, ℕ, Some, None, IfOk};
ghost use Rattle.md_constr.specs.md_attr.Alternatives.{alternatives_of};
ghost use Rattle.md_desc.specs.Recog as spec;
ghost use Rattle.md_desc.specs.machine.Steps as steps;
ghost use Rattle.md_desc.specs.declared.output.Chosen.{Chosen};

use crate::description::Description;
use c_eval::Facts;
use md_forms::{Entry, Form};
use md_recog::FormMatch;
use md_text::Template;
use plain_data::Memory;
use rtx_tree::{Operands, Rtx};
use std::alloc::Global;

/// A form that matches an instruction at output.
#[derive(Drop)]
pub struct Chosen {
    /// The index of the form.
    pub form: u32,
    /// The operands with which it matches.
    pub operands: Operands,
    /// The lowest enabled alternative that they fit.
    pub alternative: u32,
}

/// Whether a template is `#`.
fn is_only_split(template: &Template) -> bool
    ensures { result ≡ spec.is_only_split template.now }
{
    matches!(template, Template::Split)
}

fn is_printed_by(entry: &Entry) -> bool
    ensures { result ≡ spec.is_printed_by entry.now }
{
    match &entry.form {
        Ok(form) => !is_only_split(&form.template),
        Err(_) => false,
    }
}

impl Description {
    fn is_printed(&self, form: u32) -> bool
        ensures { result ≡ spec.is_printed self.now form }
    {
        match self.forms().as_slice().get(form as usize) {
            Some(entry) => is_printed_by(entry),
            None => false,
        }
    }

    fn is_usable(&self, form: u32, operands: &Operands, alternative: u32) -> bool
        ensures { result ≡ spec.is_usable self.now form operands.now alternative }
    {
        self.enabled(form, alternative) && self.fits(form, alternative, operands)
    }

    /// The lowest alternative of a form that can be used with operands. More alternatives than have
    /// a number are wanted as memory is.
    #[tactic(auto, using(crate::proofs::Lowest::is_lowest, crate::proofs::Lowest::none_lowest, crate::proofs::Lowest::goes_on))]
    fn lowest(&self, form: u32, operands: &Operands) -> Result<Option<u32>, Memory>
        ensures { IfOk result (λ r. (alternative : ℕ) →
            (r ≡ Some alternative) ↔ spec.IsLowest self.now form operands.now alternative) }
    {
        let mut alternative: u32 = 0;
        while self.has_alternative(form, alternative) {
            if self.is_usable(form, operands, alternative) {
                return Ok(Some(alternative));
            }
            let Some(next) = alternative.checked_add(1) else {
                return Err(Memory);
            };
            alternative = next;
        }
        Ok(None)
    }

    /// A match, with the lowest alternative that can be used, if it counts at output.
    #[tactic(auto, using(crate::proofs::Lowest::unprinted, crate::proofs::Lowest::unused, crate::proofs::Lowest::counts))]
    fn counted(&self, found: FormMatch) -> Result<Option<Chosen>, Memory>
        ensures { IfOk result (λ r. (c : Chosen) → (r ≡ Some c) ↔ steps.Counts self.now found c) }
    {
        if !self.is_printed(found.form) {
            return Ok(None);
        }
        match self.lowest(found.form, &found.operands)? {
            Some(alternative) => Ok(Some(Chosen {
                form: found.form,
                operands: found.operands,
                alternative,
            })),
            None => Ok(None),
        }
    }

    /// The first form that counts as matching an instruction at output: its template is not `#`,
    /// and an enabled alternative fits. It comes with the lowest such alternative; `None` comes
    /// exactly where there is no such form.
    #[tactic(auto, using(crate::proofs::Choosing::passes, crate::proofs::Choosing::chosen, crate::proofs::Choosing::ends, crate::proofs::Choosing::nowhere))]
    pub fn recog_out(
        &self,
        alloc: Global,
        insn: &Rtx,
        facts: &Facts,
    ) -> Result<Option<Chosen>, Memory>
        ensures chosen { IfOk result (λ r. (c : Chosen) →
            (r ≡ Some c) ↔ spec.IsChosen self.now facts.now insn.now c) }
        ensures none { IfOk result (λ r. r ≡ None →
            spec.NoneMatchesOut self.now facts.now insn.now) }
    {
        let mut from: u32 = 0;
        while let Some(found) = self.first_from(alloc, insn, facts, from)? {
            let next = found.form + 1;
            if let Some(chosen) = self.counted(found)? {
                return Ok(Some(chosen));
            }
            from = next;
        }
        Ok(None)
    }
}
