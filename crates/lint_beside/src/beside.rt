//! What is told beside findings.
ghost use Rattle.std.specs.Prelude.{◌≡◌, IfOk, length};
ghost use Rattle.lint_beside.specs.Beside.{IsReason, IsBesideTold, IsBeside, AreBeside};

use lint_found::Finding;
use lint_idle::{Idle, idle_of};
use lint_told::Told;
use lint_why::{Why, why_unreached};
use md_desc::Description;
use plain_data::{Items, Memory};
use std::alloc::Global;

/// What is told beside a finding.
#[derive(Drop)]
pub struct Beside {
    /// Why nothing is reached, where that is what is found.
    pub why: Option<Why>,
    /// The members of constraints that are idle.
    pub idle: Items<Idle>,
}

/// A description that is looked at.
#[derive(Clone, Copy)]
struct Look<'a> {
    alloc: Global,
    description: &'a Description,
    tested: &'a [i64],
}

impl Look<'_> {
    /// Why nothing is reached, where nothing is.
    fn why(&self, form: u32, alternative: u32, told: &Told) -> Result<Option<Why>, Memory>
        ensures { IfOk result (IsReason self.now.description.now self.now.tested.now form
            alternative told.now) }
    {
        match told {
            Told::Unreached => {
                let why = why_unreached(
                    self.alloc,
                    self.description,
                    self.tested,
                    form,
                    alternative,
                )?;
                Ok(Some(why))
            }
            Told::Right | Told::Wrong { .. } => Ok(None),
        }
    }

    fn beside_told(&self, form: u32, alternative: u32, told: &Told) -> Result<Beside, Memory>
        ensures { IfOk result (IsBesideTold self.now.description.now self.now.tested.now form
            alternative told.now) }
    {
        let why = self.why(form, alternative, told)?;
        let idle = idle_of(self.alloc, self.description, self.tested, form, alternative)?;
        Ok(Beside { why, idle })
    }

    fn beside(&self, finding: &Finding) -> Result<Beside, Memory>
        ensures { IfOk result (IsBeside self.now.description.now self.now.tested.now
            finding.now) }
    {
        match finding {
            Finding::Aside { .. } => Ok(Beside {
                why: None,
                idle: Items::new(self.alloc),
            }),
            Finding::Told {
                form,
                alternative,
                told,
            } => self.beside_told(*form, *alternative, &told.told),
        }
    }

    #[tactic(auto, using(crate::proofs::BesideLaws::all_are))]
    fn all(&self, found: &[Finding]) -> Result<Items<Beside>, Memory>
        ensures { IfOk result (AreBeside self.now.description.now self.now.tested.now
            found.now) }
    {
        let mut all = Items::new(self.alloc);
        for at in 0..found.len() {
            all.push(self.beside(&found[at])?)?;
        }
        Ok(all)
    }
}

/// What is told beside each of some findings of a description, by the numbers in its tests.
#[tactic(auto, using(crate::proofs::BesideLaws::are_as_many))]
pub fn all_beside(
    alloc: Global,
    description: &Description,
    tested: &[i64],
    found: &[Finding],
) -> Result<Items<Beside>, Memory>
    ensures are { IfOk result (AreBeside description.now tested.now found.now) }
    ensures as_many { IfOk result (λ all. length all ≡ length found.now) }
{
    let look = Look {
        alloc,
        description,
        tested,
    };
    let all = look.all(found)?;
    Ok(all)
}
