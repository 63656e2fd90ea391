//! The defaults of attributes by their names.
ghost use Rattle.std.specs.Prelude.{◌≡◌, List, ℕ, None, Some, OnOk, IfOk, if◌then◌else◌};
ghost use Rattle.std.specs.Option.{option_copied, option_or};
ghost use Rattle.std.specs.Str.{bytes_eq};
ghost use Rattle.md_forms.specs.md_tables.Tables.{defines_attribute};
ghost use Rattle.md_attr.specs.Alternatives.{defined, defines};
ghost use Rattle.md_attr.specs.machine.Tables.{definition_in, default_in};
ghost use Rattle.md_attr.specs.Values as spec;

use indexmap::IndexMap;
use md_forms::{Entry, FormHead, defines_attribute};
use plain_data::Memory;
use rtx_tree::Name;
use std::alloc::Global;

/// What the first definitions of attributes give, by the attributes' names, in the order of the
/// definitions.
#[derive(Drop)]
pub struct Defaults {
    by_name: IndexMap<Vec<u8>, Option<Name>>,
}

impl Defaults {
    /// No attribute is defined.
    fn new(alloc: Global) -> Defaults
        ensures { (name : List ℕ) → definition_in result name ≡ None }
    {
        Defaults {
            by_name: IndexMap::new(alloc),
        }
    }

    /// What the first definition of a name gives, if there is one.
    fn definition_of(&self, name: &[u8]) -> Option<&Option<Name>>
        ensures { option_copied result ≡ definition_in self.now name.now }
    {
        self.by_name.get(name)
    }

    /// The default of an attribute, or `None` where there is no such attribute.
    pub fn default_of(&self, name: &[u8]) -> Option<&Name>
        ensures { option_copied result ≡ default_in self.now name.now }
    {
        match self.definition_of(name) {
            Some(default) => default.as_ref(),
            None => None,
        }
    }

    /// A definition, which counts where the name has none yet.
    fn put(&mut self, alloc: Global, name: &[u8], default: Option<Name>) -> Result<(), Memory>
        ensures { OnOk result ((other : List ℕ) →
            definition_in self.new other ≡ option_or (definition_in self.old other)
            (if bytes_eq name.now other then Some default else None)) }
    {
        if self.definition_of(name).is_none() {
            self.by_name.insert(Vec::from_slice(alloc, name)?, default)?;
        }
        Ok(())
    }

    /// The definition in a form, if it has one.
    fn add(&mut self, alloc: Global, entry: &Entry) -> Result<(), Memory>
        ensures { OnOk result ((name : List ℕ) →
            definition_in self.new name ≡ option_or (definition_in self.old name)
            (if defines defines_attribute name entry.now then Some
            (spec.default_by entry.now) else None)) }
    {
        match defined(entry) {
            Some(name) => self.put(alloc, name.bytes(), default_by(alloc, entry)?),
            None => Ok(()),
        }
    }
}

/// The name of the attribute that a form defines.
fn defined(entry: &Entry) -> Option<&Name>
    ensures { option_copied result ≡ defined defines_attribute entry.now }
{
    if defines_attribute(FormHead::named(entry.head.bytes())) {
        entry.name.as_ref()
    } else {
        None
    }
}

/// The default that a form gives, if it is accepted.
fn default_by(alloc: Global, entry: &Entry) -> Result<Option<Name>, Memory>
    ensures { IfOk result (λ default. default ≡ spec.default_by entry.now) }
{
    match &entry.form {
        Ok(form) => Ok(Some(form.default.copy(alloc)?)),
        Err(_) => Ok(None),
    }
}

/// What the first definitions of attributes give, in some forms.
pub fn defaults_of(alloc: Global, forms: &[Entry]) -> Result<Defaults, Memory>
    ensures { IfOk result (λ defaults. (name : List ℕ) →
        default_in defaults name ≡ spec.default_of forms.now name) }
{
    let mut defaults = Defaults::new(alloc);
    for entry in forms {
        defaults.add(alloc, entry)?;
    }
    Ok(defaults)
}
