//! What is told of an alternative.
ghost use Rattle.std.specs.Prelude.{◌≡◌, ◌↔◌, ℕ, true, false, List, Some, IfOk, IsTrue};
ghost use Rattle.md_desc.specs.md_forms.declared.form.Entry.{Entry};
ghost use Rattle.md_desc.specs.md_attr.Alternatives.{form_at};
ghost use Rattle.lint_told.specs.Told.{IsHere, IsReached, IsKept, IsPrinted, InstancesTold, IsTold};
ghost use Rattle.lint_told.specs.machine.Steps.{Comes, Finds};

use form_needs::output_facts;
use lint_judge::{Judged, judge};
use lint_tried::{Instance, accepted_form, instances_tried};
use md_desc::{Chosen, Description};
use md_forms::Form;
use pass_name::Pass;
use plain_data::{Items, Memory};
use rtx_tree::Insn;
use split::first_split;
use std::alloc::Global;

/// What is told of an alternative.
#[derive(Drop)]
pub enum Told {
    /// Its lines do what its instances do, as far as they are tried.
    Right,
    /// The form is chosen for none of its instances in this alternative.
    Unreached,
    /// The lines don't do what an instance does.
    Wrong {
        /// The instance.
        instance: Instance,
        /// What comes of the template for it.
        judged: Judged,
    },
}

/// What is told of an alternative, and of how many instances.
#[derive(Drop)]
pub struct AlternativeTold {
    /// How many instances were tried.
    pub tried: usize,
    /// What is told.
    pub told: Told,
}

/// What comes of the form for an instance.
#[derive(Drop)]
enum Outcome {
    /// Another form or alternative is chosen for it, or none.
    Elsewhere,
    /// It is split before it would be printed, or its lines are equated with it.
    Right,
    /// Its lines are not equated with it.
    Wrong {
        /// What comes of the template.
        judged: Judged,
    },
}

/// What is found among the instances of an alternative.
#[derive(Drop)]
enum Found {
    /// Some are reached, and none is wrong.
    Right,
    /// None is reached.
    Unreached,
    /// The one at a place is the first that is wrong.
    Wrong {
        /// The place.
        at: usize,
        /// What comes of the template for it.
        judged: Judged,
    },
}

/// An alternative of a form.
#[derive(Drop)]
struct Place<'a> {
    alloc: Global,
    description: &'a Description,
    form: u32,
    alternative: u32,
    says: &'a Form,
}

/// What comes of the form for an instance whose lines are judged.
#[tactic(auto, using(crate::proofs::ComesLaws::is_wrong))]
fn outcome_of(judged: Judged) -> Outcome
    ensures { (forms : List Entry) (form alternative : ℕ) (i : Instance) →
        IsPrinted forms form alternative i judged → Comes forms form alternative i result }
{
    if judged.fault.is_some() {
        return Outcome::Wrong { judged };
    }
    Outcome::Right
}

impl Place<'_> {
    /// Whether a choice is of this form, in this alternative.
    fn is_here(&self, chosen: &Chosen) -> bool
        ensures { IsTrue result ↔ IsHere self.now.form self.now.alternative chosen.now }
    {
        chosen.form == self.form && chosen.alternative == self.alternative
    }

    /// Whether a form splits an instruction once registers have homes.
    fn is_split(&self, insn: &Insn) -> Result<bool, Memory>
        ensures splits { IfOk result (λ is.
            is ≡ true → IsKept self.now.description.now insn.now → ⊥) }
        ensures kept { IfOk result (λ is. is ≡ false → IsKept self.now.description.now insn.now) }
    {
        let Some(_) = first_split(self.alloc, self.description, Pass::Split2, 0, insn)? else {
            return Ok(false);
        };
        Ok(true)
    }

    /// What comes of the form for an instance that it is chosen for.
    #[tactic(auto, using(crate::proofs::ComesLaws::is_replaced))]
    fn lines(&self, instance: &Instance, chosen: &Chosen) -> Result<Outcome, Memory>
        requires says { form_at self.now.description.now self.now.form ≡ Some self.now.says.now }
        requires reached { IsReached self.now.description.now self.now.form self.now.alternative
            instance.now chosen.now }
        ensures { IfOk result (Comes self.now.description.now self.now.form self.now.alternative
            instance.now) }
    {
        if self.is_split(&instance.insn)? {
            return Ok(Outcome::Right);
        }
        let judged = judge(
            self.alloc,
            &self.says.template,
            self.alternative,
            &chosen.operands,
            &instance.insn,
        )?;
        Ok(outcome_of(judged))
    }

    /// What comes of the form for an instance.
    #[tactic(auto, using(crate::proofs::ComesLaws::is_reached, crate::proofs::ComesLaws::is_other, crate::proofs::ComesLaws::is_none))]
    fn outcome(&self, instance: &Instance) -> Result<Outcome, Memory>
        requires { form_at self.now.description.now self.now.form ≡ Some self.now.says.now }
        ensures { IfOk result (Comes self.now.description.now self.now.form self.now.alternative
            instance.now) }
    {
        let facts = output_facts(self.alloc);
        match self
            .description
            .recog_out(self.alloc, &instance.insn.pattern, &facts)?
        {
            None => Ok(Outcome::Elsewhere),
            Some(chosen) => {
                if !self.is_here(&chosen) {
                    return Ok(Outcome::Elsewhere);
                }
                self.lines(instance, &chosen)
            }
        }
    }

    /// The first instance that is wrong, or whether any is reached.
    #[tactic(auto, using(crate::proofs::ToldLaws::ends_right, crate::proofs::ToldLaws::ends_unreached))]
    fn found(&self, instances: &[Instance]) -> Result<Found, Memory>
        requires { form_at self.now.description.now self.now.form ≡ Some self.now.says.now }
        ensures { IfOk result (Finds self.now.description.now self.now.form self.now.alternative
            instances.now) }
    {
        let mut is_reached = false;
        for at in 0..instances.len() {
            match self.outcome(&instances[at])? {
                Outcome::Elsewhere => {}
                Outcome::Right => is_reached = true,
                Outcome::Wrong { judged } => return Ok(Found::Wrong { at, judged }),
            }
        }
        Ok(if is_reached {
            Found::Right
        } else {
            Found::Unreached
        })
    }
}

/// What is told of some instances by what is found among them.
fn told_by(instances: Items<Instance>, found: Found) -> Told
    ensures { (forms : List Entry) (form alternative : ℕ) →
        Finds forms form alternative instances found →
        InstancesTold forms form alternative false instances result }
{
    let mut instances = instances;
    match found {
        Found::Right => Told::Right,
        Found::Unreached => Told::Unreached,
        Found::Wrong { at, judged } => {
            if at >= instances.len() {
                return Told::Right;
            }
            Told::Wrong {
                instance: instances.remove(at),
                judged,
            }
        }
    }
}

/// What is told of an alternative of what a form says.
#[tactic(auto, using(crate::proofs::ToldLaws::is_told))]
fn told_with(
    alloc: Global,
    description: &Description,
    tested: &[i64],
    form: u32,
    alternative: u32,
    says: &Form,
) -> Result<AlternativeTold, Memory>
    requires { form_at description.now form ≡ Some says.now }
    ensures { IfOk result (IsTold description.now tested.now form alternative) }
{
    let place = Place {
        alloc,
        description,
        form,
        alternative,
        says,
    };
    let instances = instances_tried(alloc, description, tested, form, alternative)?;
    let tried = instances.len();
    let found = place.found(instances.as_slice())?;
    let told = told_by(instances, found);
    Ok(AlternativeTold { tried, told })
}

/// What is told of an alternative of a form, by the numbers in the tests of the description.
pub fn told_of(
    alloc: Global,
    description: &Description,
    tested: &[i64],
    form: u32,
    alternative: u32,
) -> Result<AlternativeTold, Memory>
    ensures { IfOk result (IsTold description.now tested.now form alternative) }
{
    match accepted_form(description.forms().as_slice(), form) {
        Some(says) => told_with(alloc, description, tested, form, alternative, says),
        None => Ok(AlternativeTold {
            tried: 0,
            told: Told::Unreached,
        }),
    }
}
