//! The names under which the forms of a description are shown.
ghost use Rattle.std.specs.Prelude.{◌≡◌, ◌<◌, ◌++◌, ◌∷◌, [], List, ℕ, IfOk, OnOk, length};
ghost use Rattle.md_forms.specs.machine.Counts.{count_in, CountsOneMore};
ghost use Rattle.md_forms.specs.Forms as spec;

use crate::form::Entry;
use crate::one_line::shown_name;
use indexmap::IndexMap;
use plain_data::{Items, Memory};
use rtx_tree::Name;
use std::alloc::Global;
use text_words::print_count;

/// How many forms of each head were met.
#[derive(Drop)]
pub struct HeadCounts {
    by_head: IndexMap<Vec<u8>, usize>,
}

impl HeadCounts {
    fn new(alloc: Global) -> HeadCounts
        ensures { (head : List ℕ) → count_in result head ≡ 0 }
    {
        HeadCounts {
            by_head: IndexMap::new(alloc),
        }
    }

    /// Counts a form, and gives the number of those of its head that were counted before.
    fn count(&mut self, alloc: Global, head: &[u8]) -> Result<usize, Memory>
        requires { count_in self.old head.now < 18446744073709551615 }
        ensures number { IfOk result (λ number. number ≡ count_in self.old head.now) }
        ensures more { OnOk result (CountsOneMore self.old self.new head.now) }
    {
        let number = self.by_head.get(head).copied().unwrap_or(0);
        self.by_head
            .insert(Vec::from_slice(alloc, head)?, number + 1)?;
        Ok(number)
    }
}

fn numbered(alloc: Global, head: &[u8], number: usize) -> Result<Name, Memory>
    ensures { IfOk result (λ name. name ≡ spec.numbered head.now number) }
{
    let mut text = Vec::from_slice(alloc, head)?;
    text.push(b'@')?;
    print_count(number as u64, &mut text)?;
    Ok(Name::from_vec(text))
}

/// The name under which a form is shown that has so many of its head in front of it.
fn shown(alloc: Global, form: &Entry, number: usize) -> Result<Name, Memory>
    ensures { IfOk result (λ name. name ≡ spec.shown form.now.name form.now.head number) }
{
    match &form.name {
        Some(name) => Ok(shown_name(name.copy(alloc)?)),
        None => numbered(alloc, form.head.bytes(), number),
    }
}

/// Appends the name of a form behind those that were counted, which is then counted too.
fn push_next(
    alloc: Global,
    counts: &mut HeadCounts,
    names: &mut Items<Name>,
    form: &Entry,
) -> Result<(), Memory>
    requires { count_in counts.old form.now.head < 18446744073709551615 }
    ensures names { OnOk result (names.new ≡ names.old ++ spec.shown form.now.name form.now.head
        (count_in counts.old form.now.head) ∷ []) }
    ensures more { OnOk result (CountsOneMore counts.old counts.new form.now.head) }
{
    let number = counts.count(alloc, form.head.bytes())?;
    names.push(shown(alloc, form, number)?)
}

/// The names under which the forms of a description are shown, in order: each its own, with a
/// question mark for each control character, or else its head, `@`, and its number among the forms
/// of that head.
#[tactic(auto, using(crate::proofs::ShownNames::named_ends, crate::proofs::CountLaws::few))]
pub fn names_of(alloc: Global, forms: &[Entry]) -> Result<Items<Name>, Memory>
    ensures names { IfOk result (λ names. names ≡ spec.names_of forms.now) }
    ensures count { IfOk result (λ names. length names ≡ length forms.now) }
{
    let mut counts = HeadCounts::new(alloc);
    let mut names = Items::new(alloc);
    for form in forms {
        push_next(alloc, &mut counts, &mut names, form)?;
    }
    drop(counts);
    Ok(names)
}
