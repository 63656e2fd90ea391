//! What forms give attributes.
ghost use Rattle.std.specs.Prelude.{◌≡◌, IfOk, map};
ghost use Rattle.std.specs.Option.{option_copied};
ghost use Rattle.md_attr.specs.machine.Tables as tables;
ghost use Rattle.md_attr.specs.Values as spec;

use md_forms::{Attribute, Entry, alternatives, copied_names};
use plain_data::{Items, Memory};
use rtx_tree::Name;
use std::alloc::Global;
use text_words::same;

/// What a form gives attributes.
#[derive(Drop)]
pub struct FormSettings {
    /// The settings, in the order of the text.
    pub settings: Items<Attribute>,
    /// How many alternatives the form has, which is 0 where it is set aside.
    pub alternatives: usize,
}

fn copied(alloc: Global, setting: &Attribute) -> Result<Attribute, Memory>
    ensures { IfOk result (λ one. one ≡ setting.now) }
{
    Ok(Attribute {
        name: setting.name.copy(alloc)?,
        values: copied_names(alloc, setting.values.as_slice())?,
    })
}

fn all_copied(alloc: Global, settings: &[Attribute]) -> Result<Items<Attribute>, Memory>
    ensures { IfOk result (λ all. all ≡ settings.now) }
{
    let mut all = Items::new(alloc);
    for setting in settings {
        all.push(copied(alloc, setting)?)?;
    }
    Ok(all)
}

fn settings_of(alloc: Global, entry: &Entry) -> Result<FormSettings, Memory>
    ensures { IfOk result (λ one. one ≡ tables.settings_of entry.now) }
{
    match &entry.form {
        Ok(form) => Ok(FormSettings {
            settings: all_copied(alloc, form.attributes.as_slice())?,
            alternatives: alternatives(form.constraints.as_slice()),
        }),
        Err(_) => Ok(FormSettings {
            settings: Items::new(alloc),
            alternatives: 0,
        }),
    }
}

/// What each of some forms gives attributes.
pub fn all_settings(alloc: Global, forms: &[Entry]) -> Result<Items<FormSettings>, Memory>
    ensures { IfOk result (λ all. all ≡ map tables.settings_of forms.now) }
{
    let mut all = Items::new(alloc);
    for entry in forms {
        all.push(settings_of(alloc, entry)?)?;
    }
    Ok(all)
}

/// The values that the first of some settings of an attribute gives it.
pub fn given_by<'a>(name: &[u8], settings: &'a [Attribute]) -> Option<&'a Items<Name>>
    ensures { option_copied result ≡ spec.given_by name.now settings.now }
{
    for setting in settings {
        if same(setting.name.bytes(), name) {
            return Some(&setting.values);
        }
    }
    None
}

/// The value of an alternative, among those that were given: one value alone is that of each.
pub fn value_at(alternative: usize, values: &[Name]) -> Option<&Name>
    ensures { option_copied result ≡ spec.value_at alternative values.now }
{
    match values {
        [value] => Some(value),
        _ => values.get(alternative),
    }
}
