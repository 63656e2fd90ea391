//! An alternative of a form that is tried.
ghost use Rattle.std.specs.Prelude.{◌≡◌};
ghost use Rattle.lint_tried.specs.Trial as spec;
ghost use Rattle.lint_tried.specs.machine.Views.{trial_of};

use c_eval::Preds;
use md_desc::Description;
use md_forms::Form;
use md_recog::names_predicate;
use rtx_tree::{Operands, Rtx};
use std::alloc::Global;

/// An alternative of a form of a description.
#[derive(Drop)]
pub struct Trial<'a> {
    /// Where lists are made.
    pub alloc: Global,
    /// The description.
    pub description: &'a Description,
    /// The index of the form.
    pub form: u32,
    /// The alternative.
    pub alternative: u32,
    /// What the form says.
    pub says: &'a Form,
    /// The form's pattern.
    pub pattern: &'a Rtx,
}

/// The number of an operand.
fn operand_number(number: i64) -> Option<u32>
    ensures { result ≡ spec.operand_number number }
{
    u32::try_from(number).ok()
}

impl Trial<'_> {
    /// Whether the predicate of a placeholder, if it names one, accepts a tree.
    #[tactic(auto, unfolding(crate::specs::Trial::predicate_takes))]
    fn predicate_takes(&self, placeholder: &Rtx, x: &Rtx) -> bool
        ensures { result ≡ spec.predicate_takes (trial_of self.now) placeholder.now x.now }
    {
        if !names_predicate(placeholder.code) {
            return true;
        }
        self.description
            .preds()
            .holds(&placeholder.name, x, placeholder.mode)
    }

    /// Whether the constraint of a placeholder's operand admits a tree in the alternative.
    #[tactic(auto, unfolding(crate::specs::Trial::constraint_takes))]
    fn constraint_takes(&self, placeholder: &Rtx, x: &Rtx) -> bool
        ensures { result ≡ spec.constraint_takes (trial_of self.now) placeholder.now x.now }
    {
        let nothing = Operands::new(self.alloc);
        match operand_number(placeholder.number) {
            Some(number) => self
                .description
                .operand_admits(self.form, self.alternative, &nothing, number, x),
            None => true,
        }
    }

    /// Whether a tree is taken in the place of a placeholder, by itself.
    #[tactic(auto, unfolding(crate::specs::Trial::takes))]
    pub fn takes(&self, placeholder: &Rtx, x: &Rtx) -> bool
        ensures { result ≡ spec.takes (trial_of self.now) placeholder.now x.now }
    {
        self.predicate_takes(placeholder, x) && self.constraint_takes(placeholder, x)
    }
}
