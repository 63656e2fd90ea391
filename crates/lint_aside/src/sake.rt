//! Which forms are set aside for the sake of others.
ghost use Rattle.std.specs.Prelude.{◌≡◌, ◌==◌, IfOk, slice_get};
ghost use Rattle.std.specs.Option.{option_copied};
ghost use Rattle.md_forms.specs.md_draft.Head.{head_named};
ghost use Rattle.lint_aside.specs.Sake as spec;

use crate::cause::Aside;
use md_forms::{Entry, FormHead, Reason, defines_attribute, defines_constraint, defines_predicate};
use plain_data::{Items, Memory};
use rtx_tree::Name;
use std::alloc::Global;
use text_words::same;

/// Whether what a head defines is what a reason asks for.
fn is_kind(head: Option<FormHead>, reason: Reason) -> bool
    ensures { result ≡ spec.is_kind head reason }
{
    match reason {
        Reason::Predicate => defines_predicate(head),
        Reason::Constraint => defines_constraint(head),
        Reason::Attribute => defines_attribute(head),
        _ => false,
    }
}

fn is_name(name: &[u8], own: &Option<Name>) -> bool
    ensures { result ≡ spec.is_name name.now own.now }
{
    match own {
        Some(own) => same(own.bytes(), name),
        None => false,
    }
}

/// Whether a form defines what a reason asks for, under a name.
fn defines(reason: Reason, name: &[u8], entry: &Entry) -> bool
    ensures { result ≡ spec.defines reason name.now entry.now }
{
    is_name(name, &entry.name) && is_kind(FormHead::named(entry.head.bytes()), reason)
}

fn entry_at(forms: &[Entry], form: u32) -> Option<&Entry>
    ensures { option_copied result ≡ slice_get forms.entry.now form }
{
    forms.get(form as usize)
}

/// Whether a form that is set aside defines what the reason of another is about.
fn is_asked(forms: &[Entry], aside: &Aside, other: &Aside) -> bool
    ensures { result ≡ spec.is_asked forms.now aside.now other.now }
{
    match entry_at(forms, other.form) {
        Some(entry) => {
            other.form != aside.form && defines(aside.reason, aside.about.text.bytes(), entry)
        }
        None => false,
    }
}

/// The place of the first that a form asks for.
fn asked_by(forms: &[Entry], all: &[Aside], aside: &Aside) -> Option<usize>
    ensures { result ≡ spec.asked_by forms.now all.now aside.now }
{
    all.iter().position(|other| is_asked(forms, aside, other))
}

/// For each of those that are set aside, the place of the first that it asks for.
#[tactic(auto, unfolding(crate::specs::Sake::all_asked))]
fn all_asked(alloc: Global, forms: &[Entry], all: &[Aside]) -> Result<Items<Option<usize>>, Memory>
    ensures { IfOk result (λ asked. asked ≡ spec.all_asked forms.now all.now) }
{
    let mut asked = Items::new(alloc);
    for aside in all {
        asked.push(asked_by(forms, all, aside))?;
    }
    Ok(asked)
}

fn is_definition(head: Option<FormHead>) -> bool
    ensures { result ≡ spec.is_definition head }
{
    defines_predicate(head) || defines_constraint(head) || defines_attribute(head)
}

fn is_asked_for(forms: &[Entry], aside: &Aside) -> bool
    ensures { result ≡ spec.is_asked_for forms.now aside.now }
{
    match entry_at(forms, aside.form) {
        Some(entry) => is_definition(FormHead::named(entry.head.bytes())),
        None => false,
    }
}

/// How many of those that are set aside are definitions.
#[tactic(auto, unfolding(crate::specs::Sake::steps_of))]
fn steps_of(forms: &[Entry], all: &[Aside]) -> usize
    ensures { result ≡ spec.steps_of forms.now all.now }
{
    all.iter()
        .filter(|aside| is_asked_for(forms, *aside))
        .count()
}

fn next_of(asked: &[Option<usize>], from: usize) -> Option<usize>
    ensures { result ≡ spec.next_of asked.now from }
{
    *asked.get(from)?
}

fn is_at(next: usize, to: usize) -> bool
    ensures { result ≡ (next == to) }
{
    next == to
}

/// Whether the form at a place asks for that at another, or for one that asks for it in turn,
/// within so many steps.
#[tactic(auto, using(crate::proofs::SakeLaws::come_next, crate::proofs::SakeLaws::come_here, crate::proofs::SakeLaws::come_nowhere, crate::proofs::SakeLaws::come_no_further))]
fn comes_to(steps: usize, asked: &[Option<usize>], to: usize, from: usize) -> bool
    ensures { result ≡ spec.comes_to steps asked.now to from }
{
    let mut at = from;
    for _step in 0..steps {
        let Some(next) = next_of(asked, at) else {
            return false;
        };
        if is_at(next, to) {
            return true;
        }
        at = next;
    }
    false
}

/// For whose sake forms are set aside: what each asks for, and how many steps lead further.
#[derive(Drop)]
pub struct Sakes {
    /// For each of those that are set aside, the place of the first that it asks for.
    pub asked: Items<Option<usize>>,
    /// As many steps as there are definitions that are set aside.
    pub steps: usize,
}

impl Sakes {
    /// Those of forms that are set aside.
    #[tactic(auto, unfolding(crate::specs::Sake::sakes_of))]
    pub fn of(alloc: Global, forms: &[Entry], all: &[Aside]) -> Result<Sakes, Memory>
        ensures { IfOk result (λ sakes. sakes ≡ spec.sakes_of forms.now all.now) }
    {
        Ok(Sakes {
            asked: all_asked(alloc, forms, all)?,
            steps: steps_of(forms, all),
        })
    }

    /// Whether the form at one place is set aside for the sake of that at another.
    fn is_for(&self, to: usize, from: usize) -> bool
        ensures { result ≡ spec.is_for self.now to from }
    {
        from != to && comes_to(self.steps, self.asked.as_slice(), to, from)
    }

    /// A form at a place, if it is set aside for the sake of that at another.
    fn if_for(&self, to: usize, at: usize, aside: &Aside) -> Option<u32>
        ensures { result ≡ spec.if_for self.now to (at, aside.now) }
    {
        if self.is_for(to, at) {
            Some(aside.form)
        } else {
            None
        }
    }

    /// The others that are set aside for the sake of the one at a place.
    #[tactic(auto, using(crate::proofs::PlacedLaws::found_next, crate::proofs::PlacedLaws::found_none, crate::proofs::PlacedLaws::found_all))]
    pub fn others(&self, alloc: Global, all: &[Aside], to: usize) -> Result<Items<u32>, Memory>
        ensures { IfOk result (λ others. others ≡ spec.others_for self.now all.now to) }
    {
        let mut others = Items::new(alloc);
        for (at, aside) in all.iter().enumerate() {
            if let Some(form) = self.if_for(to, at, aside) {
                others.push(form)?;
            }
        }
        Ok(others)
    }
}
