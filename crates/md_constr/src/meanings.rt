//! What constraints mean, by their names.
ghost use Rattle.std.specs.Prelude.{◌≡◌, List, ℕ, None, Some, OnOk, IfOk, if◌then◌else◌};
ghost use Rattle.std.specs.Option.{option_copied, option_map, option_or};
ghost use Rattle.std.specs.Str.{bytes_eq};
ghost use Rattle.rtx_tree.specs.declared.tree.Rtx.{Rtx};
ghost use Rattle.pred_rows.specs.Tests.{Accepts};
ghost use Rattle.md_forms.specs.md_tables.Tables.{defines_constraint};
ghost use Rattle.md_attr.specs.Alternatives.{defined, defines};
ghost use Rattle.md_constr.specs.Admits as spec;
ghost use Rattle.md_constr.specs.machine.Tables as tables;

use crate::meaning::Meaning;
use c_eval::Preds;
use indexmap::IndexMap;
use md_forms::{Entry, FormHead, defines_constraint};
use plain_data::Memory;
use rtx_tree::{Name, Rtx};
use std::alloc::Global;

/// What the first definitions of constraints mean, by the constraints' names, in the order of the
/// definitions.
#[derive(Drop)]
pub struct Meanings {
    by_name: IndexMap<Vec<u8>, Option<Meaning>>,
}

impl Meanings {
    /// No constraint is defined.
    fn new(alloc: Global) -> Meanings
        ensures { (name : List ℕ) → tables.meaning_in result name ≡ None }
    {
        Meanings {
            by_name: IndexMap::new(alloc),
        }
    }

    /// What the first definition of a name means, if there is one.
    fn meaning_of(&self, name: &[u8]) -> Option<&Option<Meaning>>
        ensures { option_copied result ≡ tables.meaning_in self.now name.now }
    {
        self.by_name.get(name)
    }

    /// Whether the constraint of a name admits an operand.
    pub fn admits<P: Preds>(&self, preds: &P, name: &[u8], x: &Rtx) -> bool
        ensures { result ≡ tables.name_admits_in self.now (P.accepts preds.now) name.now x.now }
    {
        match self.meaning_of(name) {
            Some(Some(meaning)) => meaning.admits(preds, x),
            _ => false,
        }
    }

    /// A definition, which counts where the name has none yet.
    fn put(&mut self, alloc: Global, name: &[u8], meaning: Option<Meaning>) -> Result<(), Memory>
        ensures { OnOk result ((other : List ℕ) →
            tables.meaning_in self.new other ≡ option_or (tables.meaning_in self.old other)
            (if bytes_eq name.now other then Some meaning else None)) }
    {
        if self.meaning_of(name).is_none() {
            self.by_name.insert(Vec::from_slice(alloc, name)?, meaning)?;
        }
        Ok(())
    }

    /// The definition in a form, if it has one.
    fn add(&mut self, alloc: Global, entry: &Entry) -> Result<(), Memory>
        ensures { OnOk result ((name : List ℕ) →
            option_map tables.definition_admits (tables.meaning_in self.new name) ≡ option_or
            (option_map tables.definition_admits (tables.meaning_in self.old name))
            (if defines defines_constraint name entry.now then Some
            (tables.entry_admits entry.now) else None)) }
    {
        match defined(entry) {
            Some(name) => self.put(alloc, name.bytes(), meaning_by(alloc, entry)?),
            None => Ok(()),
        }
    }
}

/// The name of the constraint that a form defines.
fn defined(entry: &Entry) -> Option<&Name>
    ensures { option_copied result ≡ defined defines_constraint entry.now }
{
    if defines_constraint(FormHead::named(entry.head.bytes())) {
        entry.name.as_ref()
    } else {
        None
    }
}

/// What the constraint means that a form defines, if it is accepted.
fn meaning_by(alloc: Global, entry: &Entry) -> Result<Option<Meaning>, Memory>
    ensures { IfOk result (λ m. (accepts : Accepts) (x : Rtx) →
        tables.definition_admits m accepts x ≡ tables.entry_admits entry.now accepts x) }
{
    match &entry.form {
        Ok(form) => Ok(Some(Meaning::of(alloc, form)?)),
        Err(_) => Ok(None),
    }
}

/// What the first definitions of constraints mean, in some forms.
pub fn meanings_of(alloc: Global, forms: &[Entry]) -> Result<Meanings, Memory>
    ensures { IfOk result (λ meanings. (accepts : Accepts) (name : List ℕ) (x : Rtx) →
        tables.name_admits_in meanings accepts name x ≡ spec.name_admits forms.now accepts name x) }
{
    let mut meanings = Meanings::new(alloc);
    for entry in forms {
        meanings.add(alloc, entry)?;
    }
    Ok(meanings)
}
