//! The table of attributes.
ghost use Rattle.std.specs.Prelude.{◌≡◌, ◌↔◌, List, ℕ, IfOk, IsTrue, slice_get};
ghost use Rattle.std.specs.Option.{option_copied};
ghost use Rattle.md_forms.specs.declared.form.Entry.{Entry};
ghost use Rattle.md_attr.specs.Alternatives.{IsAlternative};
ghost use Rattle.md_attr.specs.machine.Tables.{AreAttributesOf};
ghost use Rattle.md_attr.specs.machine.Tables as tables;
ghost use Rattle.md_attr.specs.Values as spec;

use crate::defaults::{Defaults, defaults_of};
use crate::settings::{FormSettings, all_settings, given_by, value_at};
use md_forms::Forms;
use plain_data::{Items, Memory};
use rtx_tree::Name;
use std::alloc::Global;
use text_words::same;

/// The attributes of a description's forms.
#[derive(Drop)]
pub struct Attributes {
    defaults: Defaults,
    forms: Items<FormSettings>,
}

impl Attributes {
    /// The attributes of a description's forms.
    pub fn of(alloc: Global, forms: &Forms) -> Result<Attributes, Memory>
        ensures { IfOk result (λ attrs. AreAttributesOf attrs forms.now) }
    {
        Ok(Attributes {
            defaults: defaults_of(alloc, forms.as_slice())?,
            forms: all_settings(alloc, forms.as_slice())?,
        })
    }

    fn settings_of(&self, form: usize) -> Option<&FormSettings>
        ensures { option_copied result ≡ slice_get self.now.forms form }
    {
        self.forms.as_slice().get(form)
    }

    /// The values that a form gives an attribute.
    fn values_of(&self, name: &[u8], form: usize) -> Option<&Items<Name>>
        ensures { option_copied result ≡ tables.values_in self.now name.now form }
    {
        match self.settings_of(form) {
            Some(found) => given_by(name, found.settings.as_slice()),
            None => None,
        }
    }

    /// The value that a form gives an attribute in an alternative.
    fn given(&self, name: &[u8], form: usize, alternative: usize) -> Option<&Name>
        ensures { option_copied result ≡ tables.given_in self.now name.now form alternative }
    {
        match self.values_of(name, form) {
            Some(values) => value_at(alternative, values.as_slice()),
            None => None,
        }
    }

    /// The value of an attribute in an alternative of a form.
    fn value_of(&self, name: &[u8], form: usize, alternative: usize) -> Option<&Name>
        ensures { option_copied result ≡ tables.value_in self.now name.now form alternative }
    {
        match self.defaults.default_of(name) {
            Some(default) => Some(or_default(default, self.given(name, form, alternative))),
            None => None,
        }
    }

    fn enabled_in(&self, form: usize, alternative: usize) -> bool
        ensures { result ≡ tables.is_enabled_in self.now form alternative }
    {
        match self.value_of(b"enabled", form, alternative) {
            Some(value) => !same(value.bytes(), b"no"),
            None => true,
        }
    }
}

/// A given value, unless there is none or it is `*`: then the default.
fn or_default<'a>(default: &'a Name, given: Option<&'a Name>) -> &'a Name
    ensures { result.now ≡ spec.or_default default.now (option_copied given.entry) }
{
    match given {
        Some(value) if !same(value.bytes(), b"*") => value,
        _ => default,
    }
}

/// Whether a form is accepted and has an alternative.
pub fn has_alternative(attrs: &Attributes, form: u32, alternative: u32) -> bool
    ensures { (forms : List Entry) → AreAttributesOf attrs.now forms →
        IsTrue result ↔ IsAlternative forms form alternative }
{
    match attrs.settings_of(form as usize) {
        Some(found) => (alternative as usize) < found.alternatives,
        None => false,
    }
}

/// The value of an attribute in an alternative of a form: the one that the form gives it, or the
/// attribute's default. It is `None` exactly where there is no such attribute: where no form
/// defines it, or where the first that does is set aside.
#[tactic(auto, using(crate::proofs::TableLaws::value_same))]
pub fn value<'a>(
    attrs: &'a Attributes,
    name: &Name,
    form: u32,
    alternative: u32,
) -> Option<&'a Name>
    ensures { (forms : List Entry) → AreAttributesOf attrs.now forms →
        option_copied result ≡ spec.value_of forms name.now form alternative }
{
    attrs.value_of(name.bytes(), form as usize, alternative as usize)
}

/// Whether an alternative of a form can be used: it can, unless the attribute `enabled` has the
/// value `no` there.
#[tactic(auto, using(crate::proofs::TableLaws::enabled_same))]
pub fn enabled(attrs: &Attributes, form: u32, alternative: u32) -> bool
    ensures { (forms : List Entry) → AreAttributesOf attrs.now forms →
        result ≡ spec.is_enabled forms form alternative }
{
    attrs.enabled_in(form as usize, alternative as usize)
}
