//! Whether operands fit.
ghost use Rattle.std.specs.Prelude.{◌≡◌};
ghost use Rattle.std.specs.List.{list_any};
ghost use Rattle.md_constr.specs.Fits as spec;
ghost use Rattle.md_constr.specs.machine.Tables as tables;

use crate::admits::letter_admits;
use crate::early::clashes_in;
use crate::meanings::Meanings;
use c_eval::{Preds, same_tree};
use md_forms::OperandConstraint;
use md_operand::is_far;
use md_text::{Alternative, Member};
use rtx_tree::{Operands, Rtx};

/// What is known where an operand is asked for.
#[derive(Drop)]
pub struct Asked<'a, P: Preds> {
    /// The constraints that the description defines.
    pub meanings: &'a Meanings,
    /// The predicates that the description defines.
    pub preds: &'a P,
    /// The operands of the form.
    pub operands: &'a Operands,
    /// The numbers of the operands in the form's patterns.
    pub numbers: &'a [u64],
    /// The numbers of the form's inputs.
    pub inputs: &'a [u64],
    /// The numbers of the operands that the form changes.
    pub changed: &'a [u64],
    /// The alternative.
    pub alternative: usize,
}

fn is_same(operands: &Operands, number: u8, x: &Rtx) -> bool
    ensures { result ≡ spec.is_same operands.now number x.now }
{
    match operands.get(number as usize) {
        Some(other) => same_tree(x, other),
        None => false,
    }
}

/// Whether the operand with a number is memory at a far address.
fn is_far_at(operands: &Operands, number: u64) -> bool
    ensures { result ≡ spec.is_far_at operands.now number }
{
    match operands.get(number as usize) {
        Some(x) => is_far(x),
        None => false,
    }
}

fn none_far(operands: &Operands, numbers: &[u64]) -> bool
    ensures { result ≡ spec.none_far operands.now numbers.now }
{
    numbers.iter().all(|number| !is_far_at(operands, *number))
}

impl<P: Preds> Asked<'_, P> {
    fn member_admits(&self, x: &Rtx, member: &Member) -> bool
        ensures { result ≡ spec.member_admits (tables.name_admits_in self.now.meanings.now
            (P.accepts self.now.preds.now)) self.now.operands.now x.now member.now }
    {
        match member {
            Member::Letter(letter) => letter_admits(*letter, x),
            Member::Same(number) => is_same(self.operands, *number, x),
            Member::Defined(name) => self.meanings.admits(self.preds, name.bytes(), x),
        }
    }

    fn one_admits(&self, x: &Rtx, members: &[Member]) -> bool
        ensures { result ≡ list_any (spec.member_admits (tables.name_admits_in self.now.meanings.now
            (P.accepts self.now.preds.now)) self.now.operands.now x.now) members.now }
    {
        members.iter().any(|member| self.member_admits(x, member))
    }

    /// Whether an operand meets one of some members; no members accept anything.
    fn meets(&self, x: &Rtx, members: &[Member]) -> bool
        ensures { result ≡ spec.meets (tables.name_admits_in self.now.meanings.now
            (P.accepts self.now.preds.now)) self.now.operands.now x.now members.now }
    {
        members.is_empty() || self.one_admits(x, members)
    }

    /// Whether an operand fits an alternative of its constraint.
    fn fits_in(&self, constraint: &OperandConstraint, x: &Rtx, alternative: &Alternative) -> bool
        ensures { result ≡ spec.fits_in (tables.name_admits_in self.now.meanings.now
            (P.accepts self.now.preds.now)) self.now.inputs.now self.now.changed.now
            self.now.operands.now constraint.now x.now alternative.now }
    {
        self.meets(x, alternative.members.as_slice())
            && !clashes_in(
                self.inputs,
                self.changed,
                self.operands,
                constraint,
                x,
                alternative,
            )
    }

    fn fits_at(&self, constraint: &OperandConstraint, x: &Rtx) -> bool
        ensures { result ≡ spec.fits_at (tables.name_admits_in self.now.meanings.now
            (P.accepts self.now.preds.now)) self.now.inputs.now self.now.changed.now
            self.now.operands.now self.now.alternative constraint.now x.now }
    {
        if constraint.constraint.is_empty() {
            return true;
        }
        match constraint.constraint.as_slice().get(self.alternative) {
            Some(alternative) => self.fits_in(constraint, x, alternative),
            None => false,
        }
    }

    /// Whether the operand of a constraint fits, where there is one.
    fn operand_fits(&self, constraint: &OperandConstraint) -> bool
        ensures { result ≡ spec.operand_fits (tables.name_admits_in self.now.meanings.now
            (P.accepts self.now.preds.now)) self.now.inputs.now self.now.changed.now
            self.now.operands.now self.now.alternative constraint.now }
    {
        match self.operands.get(constraint.operand as usize) {
            Some(x) => self.fits_at(constraint, x),
            None => true,
        }
    }

    fn all_fit(&self, constraints: &[OperandConstraint]) -> bool
        ensures { result ≡ spec.all_fit (tables.name_admits_in self.now.meanings.now
            (P.accepts self.now.preds.now)) self.now.inputs.now self.now.changed.now
            self.now.operands.now self.now.alternative constraints.now }
    {
        constraints
            .iter()
            .all(|constraint| self.operand_fits(constraint))
    }

    /// Whether all operands fit, of which some have these constraints.
    pub fn fit_together(&self, constraints: &[OperandConstraint]) -> bool
        ensures { result ≡ spec.fit_together (tables.name_admits_in self.now.meanings.now
            (P.accepts self.now.preds.now)) self.now.numbers.now self.now.inputs.now
            self.now.changed.now self.now.operands.now self.now.alternative constraints.now }
    {
        none_far(self.operands, self.numbers) && self.all_fit(constraints)
    }

    fn constraint_admits(&self, constraint: &OperandConstraint, x: &Rtx) -> bool
        ensures { result ≡ spec.constraint_admits (tables.name_admits_in self.now.meanings.now
            (P.accepts self.now.preds.now)) self.now.operands.now self.now.alternative x.now
            constraint.now }
    {
        if constraint.constraint.is_empty() {
            return true;
        }
        match constraint.constraint.as_slice().get(self.alternative) {
            Some(alternative) => self.meets(x, alternative.members.as_slice()),
            None => false,
        }
    }

    fn each_fits(&self, constraints: &[OperandConstraint], number: u32) -> bool
        ensures { result ≡ spec.each_of number
            (spec.operand_fits (tables.name_admits_in self.now.meanings.now
            (P.accepts self.now.preds.now)) self.now.inputs.now self.now.changed.now
            self.now.operands.now self.now.alternative) constraints.now }
    {
        constraints.iter().all(|constraint| constraint.operand != number
            || self.operand_fits(constraint))
    }

    /// Whether the operand with a number fits, by each of its constraints.
    pub fn fits_alone(&self, constraints: &[OperandConstraint], number: u32) -> bool
        ensures { result ≡ spec.fits_alone (tables.name_admits_in self.now.meanings.now
            (P.accepts self.now.preds.now)) self.now.inputs.now self.now.changed.now
            self.now.operands.now self.now.alternative number constraints.now }
    {
        !is_far_at(self.operands, u64::from(number)) && self.each_fits(constraints, number)
    }

    /// Whether a tree is admitted in the place of the operand with a number, by each of its
    /// constraints.
    pub fn number_admits(&self, constraints: &[OperandConstraint], number: u32, x: &Rtx) -> bool
        ensures { result ≡ spec.each_of number
            (spec.constraint_admits (tables.name_admits_in self.now.meanings.now
            (P.accepts self.now.preds.now)) self.now.operands.now self.now.alternative x.now)
            constraints.now }
    {
        constraints.iter().all(|constraint| constraint.operand != number
            || self.constraint_admits(constraint, x))
    }
}
