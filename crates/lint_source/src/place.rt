//! Where forms begin.
ghost use Rattle.std.specs.Prelude.{◌≡◌, IfOk, map};
ghost use Rattle.lint_source.specs.Sourced as spec;

use lint_about::place_of;
use md_iter::Instance;
use plain_data::{Items, Memory};
use rtx_tree::Place;
use std::alloc::Global;

fn form_place(form: &Instance) -> Place
    ensures { result ≡ spec.form_place form.now }
{
    place_of(&form.tree)
}

/// The place at which each form begins, in the file that has it.
#[tactic(auto, using(lint_choices::proofs::PushedLaws::mapped_next, lint_choices::proofs::PushedLaws::pushed_ends))]
pub fn places_of(alloc: Global, forms: &[Instance]) -> Result<Items<Place>, Memory>
    ensures { IfOk result (λ places. places ≡ map spec.form_place forms.now) }
{
    let mut places = Items::new(alloc);
    for form in forms {
        places.push(form_place(form))?;
    }
    Ok(places)
}
