//! The table of constraints.
ghost use Rattle.std.specs.Prelude.{◌≡◌, ◌-◌, ◌^◌, List, IfOk, min, slice_get};
ghost use Rattle.std.specs.Option.{option_copied};
ghost use Rattle.md_forms.specs.declared.form.Entry.{Entry};
ghost use Rattle.md_attr.specs.Alternatives.{alternatives_of};
ghost use Rattle.md_constr.specs.Fits as spec;
ghost use Rattle.md_constr.specs.machine.Tables as tables;

use crate::asked::Asked;
use crate::forms::{FormConstraints, all_constraints};
use crate::meanings::{Meanings, meanings_of};
use c_eval::Preds;
use md_forms::Forms;
use plain_data::{Items, Memory};
use rtx_tree::{Operands, Rtx};
use std::alloc::Global;

/// What a description's forms ask of their operands.
#[derive(Drop)]
pub struct Constraints {
    meanings: Meanings,
    forms: Items<FormConstraints>,
}

impl Constraints {
    /// What a description's forms ask of their operands.
    pub fn of(alloc: Global, forms: &Forms) -> Result<Constraints, Memory>
        ensures { IfOk result (λ table. tables.AreConstraintsOf table forms.now) }
    {
        Ok(Constraints {
            meanings: meanings_of(alloc, forms.as_slice())?,
            forms: all_constraints(alloc, forms.as_slice())?,
        })
    }

    fn constraints_of(&self, form: u32) -> Option<&FormConstraints>
        ensures { option_copied result ≡ slice_get self.now.forms form }
    {
        self.forms.as_slice().get(form as usize)
    }

    fn found_fits<P: Preds>(
        &self,
        preds: &P,
        found: &FormConstraints,
        alternative: u32,
        operands: &Operands,
    ) -> bool
        ensures { result ≡ tables.found_fits (tables.name_admits_in self.now.meanings
            (P.accepts preds.now)) alternative operands.now found.now }
    {
        let asked = Asked {
            meanings: &self.meanings,
            preds,
            operands,
            numbers: found.operands.as_slice(),
            inputs: found.inputs.as_slice(),
            changed: found.changed.as_slice(),
            alternative: alternative as usize,
        };
        found.accepted && asked.fit_together(found.constraints.as_slice())
    }

    fn fits_in<P: Preds>(&self, preds: &P, form: u32, alternative: u32, operands: &Operands) -> bool
        ensures { result ≡
            tables.fits_in self.now (P.accepts preds.now) form alternative operands.now }
    {
        match self.constraints_of(form) {
            Some(found) => self.found_fits(preds, found, alternative, operands),
            None => false,
        }
    }

    fn found_number_fits<P: Preds>(
        &self,
        preds: &P,
        found: &FormConstraints,
        alternative: u32,
        operands: &Operands,
        number: u32,
    ) -> bool
        ensures { result ≡ tables.found_number_fits (tables.name_admits_in self.now.meanings
            (P.accepts preds.now)) alternative operands.now number found.now }
    {
        let asked = Asked {
            meanings: &self.meanings,
            preds,
            operands,
            numbers: found.operands.as_slice(),
            inputs: found.inputs.as_slice(),
            changed: found.changed.as_slice(),
            alternative: alternative as usize,
        };
        found.accepted && asked.fits_alone(found.constraints.as_slice(), number)
    }

    fn number_fits_in<P: Preds>(
        &self,
        preds: &P,
        form: u32,
        alternative: u32,
        operands: &Operands,
        number: u32,
    ) -> bool
        ensures { result ≡ tables.number_fits_in self.now
            (P.accepts preds.now) form alternative operands.now number }
    {
        match self.constraints_of(form) {
            Some(found) => self.found_number_fits(preds, found, alternative, operands, number),
            None => false,
        }
    }

    fn found_number_admits<P: Preds>(
        &self,
        preds: &P,
        found: &FormConstraints,
        alternative: u32,
        operands: &Operands,
        number: u32,
        x: &Rtx,
    ) -> bool
        ensures { result ≡ tables.found_number_admits (tables.name_admits_in self.now.meanings
            (P.accepts preds.now)) alternative operands.now number x.now found.now }
    {
        let asked = Asked {
            meanings: &self.meanings,
            preds,
            operands,
            numbers: found.operands.as_slice(),
            inputs: found.inputs.as_slice(),
            changed: found.changed.as_slice(),
            alternative: alternative as usize,
        };
        found.accepted && asked.number_admits(found.constraints.as_slice(), number, x)
    }

    fn number_admits_in<P: Preds>(
        &self,
        preds: &P,
        form: u32,
        alternative: u32,
        operands: &Operands,
        number: u32,
        x: &Rtx,
    ) -> bool
        ensures { result ≡ tables.number_admits_in self.now
            (P.accepts preds.now) form alternative operands.now number x.now }
    {
        match self.constraints_of(form) {
            Some(found) => {
                self.found_number_admits(preds, found, alternative, operands, number, x)
            }
            None => false,
        }
    }

    fn alternatives_in(&self, form: u32) -> usize
        ensures { result ≡ tables.alternatives_in self.now form }
    {
        match self.constraints_of(form) {
            Some(found) => found.alternatives,
            None => 0,
        }
    }
}

/// Whether operands fit an alternative of an accepted form: no operand of its patterns is memory at
/// a far address, each operand that has a constraint meets one of its members there, and an
/// earlyclobber output shares no register with an input. It takes no memory.
#[tactic(auto, using(crate::proofs::TableLaws::fits_same))]
pub fn fits<P: Preds>(
    table: &Constraints,
    preds: &P,
    form: u32,
    alternative: u32,
    operands: &Operands,
) -> bool
    ensures { (forms : List Entry) → tables.AreConstraintsOf table.now forms →
        result ≡ spec.fits forms (P.accepts preds.now) form alternative operands.now }
{
    table.fits_in(preds, form, alternative, operands)
}

/// Whether the operand with a number fits an alternative of an accepted form, by itself: it is no
/// memory at a far address, meets a member of its constraint there, and shares no register with an
/// input if it is an earlyclobber output. It takes no memory.
#[tactic(auto, using(crate::proofs::TableLaws::number_fits_same))]
pub fn operand_fits<P: Preds>(
    table: &Constraints,
    preds: &P,
    form: u32,
    alternative: u32,
    operands: &Operands,
    number: u32,
) -> bool
    ensures { (forms : List Entry) → tables.AreConstraintsOf table.now forms →
        result ≡ spec.number_fits forms (P.accepts preds.now) form alternative operands.now number }
{
    table.number_fits_in(preds, form, alternative, operands, number)
}

/// Whether the constraint of the operand with a number admits a tree in an alternative of an
/// accepted form. A digit admits what is the same as the operand that it names, and the letter `m`
/// memory at a far address too. It takes no memory.
#[tactic(auto, using(crate::proofs::TableLaws::number_admits_same))]
pub fn operand_admits<P: Preds>(
    table: &Constraints,
    preds: &P,
    form: u32,
    alternative: u32,
    operands: &Operands,
    number: u32,
    x: &Rtx,
) -> bool
    ensures { (forms : List Entry) → tables.AreConstraintsOf table.now forms → result ≡
        spec.number_admits forms (P.accepts preds.now) form alternative operands.now number x.now }
{
    table.number_admits_in(preds, form, alternative, operands, number, x)
}

/// How many alternatives an accepted form has, 1 where it has no constraints. The greatest `u32`
/// stands for more, of which no form has that was read from a text.
#[tactic(auto, using(crate::proofs::TableLaws::counted_same))]
pub fn alternatives_of(table: &Constraints, form: u32) -> u32
    ensures { (forms : List Entry) → tables.AreConstraintsOf table.now forms →
        result ≡ min (2 ^ 32 - 1) (alternatives_of forms form) }
{
    u32::try_from(table.alternatives_in(form)).unwrap_or(u32::MAX)
}
