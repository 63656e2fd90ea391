//! What a form is set aside for.
ghost use Rattle.std.specs.Prelude.{◌≡◌, IfOk};
ghost use Rattle.lint_aside.specs.Causes.{cause_with};

use lint_about::About;
use md_pattern::Reason;
use plain_data::{Items, Memory};
use rtx_tree::{Name, Place};
use std::alloc::Global;

/// A form that is set aside.
#[derive(Drop)]
pub struct Aside {
    /// The index of the form.
    pub form: u32,
    /// Its reason.
    pub reason: Reason,
    /// What in the form that is about.
    pub about: About,
}

/// What a form is set aside for.
#[derive(Drop)]
pub struct Cause {
    /// The index of the form.
    pub form: u32,
    /// Its reason.
    pub reason: Reason,
    /// Where what its reason is about stands.
    pub place: Place,
    /// What it is about, as it is written; empty where that is a part or the form as a whole.
    pub about: Name,
    /// The other forms that are set aside for its sake, in order.
    pub so_aside: Items<u32>,
}

impl Aside {
    /// The cause of the form, with the others that are set aside for its sake.
    pub fn cause(&self, alloc: Global, others: Items<u32>) -> Result<Cause, Memory>
        ensures { IfOk result (λ cause. cause ≡ cause_with self.now others) }
    {
        Ok(Cause {
            form: self.form,
            reason: self.reason,
            place: self.about.place,
            about: self.about.text.copy(alloc)?,
            so_aside: others,
        })
    }
}
