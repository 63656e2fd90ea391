//! What is found of a description.
ghost use Rattle.std.specs.Prelude.{◌≡◌, ◌<◌, IfOk, OnOk, length};
ghost use Rattle.std.specs.List.{list_any};
ghost use Rattle.md_constr.specs.md_attr.Values.{is_enabled as can_be_used};
ghost use Rattle.lint_tried.specs.Numbers.{tested_numbers as numbers_in};
ghost use Rattle.lint_found.specs.Found as spec;
ghost use Rattle.lint_found.specs.Found.{AreFound};
ghost use Rattle.lint_found.specs.machine.Steps.{AlternativeComes, AlternativesCome, FormComes};

use lint_told::{AlternativeTold, Told, tested_numbers, told_of};
use md_desc::Description;
use md_forms::{Entry, Form, FormHead};
use md_text::Template;
use plain_data::{Items, Memory};
use std::alloc::Global;

/// What is found.
#[derive(Drop)]
pub enum Finding {
    /// A form is set aside.
    Aside {
        /// The index of the form.
        form: u32,
        /// The number of the reason.
        reason: u8,
    },
    /// What is told of an alternative.
    Told {
        /// The index of the form.
        form: u32,
        /// The alternative.
        alternative: u32,
        /// What is told.
        told: AlternativeTold,
    },
}

/// What is found, in order.
pub type Findings = Items<Finding>;

/// A description that is looked at.
#[derive(Drop)]
struct Look<'a> {
    alloc: Global,
    description: &'a Description,
    tested: &'a [i64],
}

/// Whether a form defines an instruction, and is not split always.
fn prints(form: &Form) -> bool
    ensures { result ≡ spec.prints form.now }
{
    match form.head {
        FormHead::Insn | FormHead::InsnAndSplit => !matches!(form.template, Template::Split),
        _ => false,
    }
}

impl Look<'_> {
    /// Appends what is told of an alternative, where it can be used.
    #[tactic(auto, using(crate::proofs::FoundLaws::one_unused, crate::proofs::FoundLaws::one_told))]
    fn push_told(&self, form: u32, alternative: u32, found: &mut Findings) -> Result<(), Memory>
        requires { self.now.tested.now ≡ numbers_in self.now.description.now }
        ensures { OnOk result (AlternativeComes self.now.description.now form alternative found.old
            found.new) }
    {
        if !self.description.enabled(form, alternative) {
            return Ok(());
        }
        let told = told_of(self.alloc, self.description, self.tested, form, alternative)?;
        found.push(Finding::Told {
            form,
            alternative,
            told,
        })
    }

    /// Appends what is told of the alternatives of a form.
    #[tactic(auto, using(crate::proofs::FoundLaws::one_more, crate::proofs::FoundLaws::is_shorter))]
    fn push_alternatives(&self, form: u32, found: &mut Findings) -> Result<(), Memory>
        requires { self.now.tested.now ≡ numbers_in self.now.description.now }
        ensures { OnOk result (AlternativesCome self.now.description.now form found.old found.new) }
    {
        let mut alternative: u32 = 0;
        while self.description.has_alternative(form, alternative) {
            self.push_told(form, alternative, found)?;
            let Some(next) = alternative.checked_add(1) else {
                return Err(Memory);
            };
            alternative = next;
        }
        Ok(())
    }

    /// Appends what is found of a form.
    #[tactic(auto, using(crate::proofs::FoundLaws::is_aside, crate::proofs::FoundLaws::has_lines, crate::proofs::FoundLaws::has_none))]
    fn push_form(&self, form: u32, entry: &Entry, found: &mut Findings) -> Result<(), Memory>
        requires { self.now.tested.now ≡ numbers_in self.now.description.now }
        ensures { OnOk result (FormComes self.now.description.now form entry.now found.old
            found.new) }
    {
        match &entry.form {
            Ok(says) => {
                if prints(says) {
                    self.push_alternatives(form, found)
                } else {
                    Ok(())
                }
            }
            Err(reason) => found.push(Finding::Aside {
                form,
                reason: reason.number(),
            }),
        }
    }

    /// What is found of all forms.
    #[tactic(auto, using(crate::proofs::FoundLaws::form_more, crate::proofs::FoundLaws::form_ends))]
    fn found(&self) -> Result<Findings, Memory>
        requires { self.now.tested.now ≡ numbers_in self.now.description.now }
        ensures { IfOk result (AreFound self.now.description.now) }
    {
        let forms = self.description.forms().as_slice();
        let mut found = Items::new(self.alloc);
        for at in 0..forms.len() {
            self.push_form(at as u32, &forms[at], &mut found)?;
        }
        Ok(found)
    }
}

/// What is found of a description.
pub fn findings_of(alloc: Global, description: &Description) -> Result<Findings, Memory>
    ensures { IfOk result (AreFound description.now) }
{
    let tested = tested_numbers(alloc, description.forms().as_slice())?;
    let look = Look {
        alloc,
        description,
        tested: tested.as_slice(),
    };
    look.found()
}

fn tells_wrong(told: &Told) -> bool
    ensures { result ≡ spec.tells_wrong told.now }
{
    match told {
        Told::Wrong { .. } => true,
        Told::Right | Told::Unreached => false,
    }
}

impl Finding {
    /// Whether it says that something is wrong.
    pub fn is_wrong(&self) -> bool
        ensures { result ≡ spec.is_wrong self.now }
    {
        match self {
            Finding::Told { told, .. } => tells_wrong(&told.told),
            Finding::Aside { .. } => false,
        }
    }
}

/// Whether some finding says that something is wrong.
pub fn any_wrong(found: &[Finding]) -> bool
    ensures { result ≡ list_any spec.is_wrong found.now }
{
    for finding in found {
        if finding.is_wrong() {
            return true;
        }
    }
    false
}
