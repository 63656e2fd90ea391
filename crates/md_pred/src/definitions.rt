//! The definitions of predicates, by their names.
ghost use Rattle.std.specs.Prelude.{◌≡◌, ℕ, List, [], ◌∷◌, ◌++◌, length, take, None, Some, IfOk, OnOk, if◌then◌else◌};
ghost use Rattle.std.specs.Option.{option_copied, option_or};
ghost use Rattle.std.specs.Str.{bytes_eq};
ghost use Rattle.md_forms.specs.declared.form.Entry.{Entry};
ghost use Rattle.md_pred.specs.machine.Steps as steps;
ghost use Rattle.md_pred.specs.machine.Table as table;

use indexmap::IndexMap;
use md_forms::{Entry, Form, FormHead, Judged, defines_predicate};
use plain_data::Memory;
use pred_expr::Test;
use pred_rows::TestRows;
use rtx_tree::Name;
use std::alloc::Global;

/// What is kept of the definition of a predicate.
#[derive(Clone, Copy)]
pub struct Definition {
    /// The head of the definition.
    pub head: FormHead,
    /// The root of its test; none where it accepts nothing.
    pub root: Option<usize>,
}

/// The first definitions of predicates, and their tests.
#[derive(Drop)]
pub struct Definitions {
    /// The tests.
    pub rows: TestRows,
    /// The definitions, also those that are set aside.
    pub by_name: IndexMap<Vec<u8>, Definition>,
}

/// The name of the predicate that a form defines.
fn predicate_name(entry: &Entry) -> Option<&Name>
    ensures { option_copied result ≡ steps.predicate_name entry.now }
{
    if defines_predicate(FormHead::named(entry.head.bytes())) {
        entry.name.as_ref()
    } else {
        None
    }
}

/// What is kept of a test.
fn root_of(alloc: Global, rows: &mut TestRows, test: Option<&Test>) -> Result<Option<usize>, Memory>
    ensures kept { take (length rows.old) rows.new ≡ rows.old }
    ensures root { IfOk result (steps.KeepsTest rows.new (option_copied test.entry)) }
{
    match test {
        Some(test) => Ok(Some(rows.push(alloc, test)?)),
        None => Ok(None),
    }
}

/// What is kept of a definition.
fn definition_of(
    alloc: Global,
    rows: &mut TestRows,
    form: &Judged<Form>,
) -> Result<Definition, Memory>
    ensures kept { take (length rows.old) rows.new ≡ rows.old }
    ensures definition { IfOk result (steps.Keeps rows.new form.now) }
{
    match form {
        Ok(form) => Ok(Definition {
            head: form.head,
            root: root_of(alloc, rows, form.test.as_ref())?,
        }),
        Err(_) => Ok(Definition {
            head: FormHead::Predicate,
            root: None,
        }),
    }
}

impl Definitions {
    /// No definition. It takes no memory.
    fn new(alloc: Global) -> Definitions
        ensures { (name : List ℕ) → table.definition_in result name ≡ None }
    {
        Definitions {
            rows: TestRows::new(alloc),
            by_name: IndexMap::new(alloc),
        }
    }

    /// What is kept of the definition of a name.
    pub fn named(&self, name: &[u8]) -> Option<Definition>
        ensures { result ≡ table.definition_in self.now name.now }
    {
        self.by_name.get(name).copied()
    }

    /// Keeps the definition of a name that has none.
    fn put(&mut self, alloc: Global, name: &[u8], definition: Definition) -> Result<(), Memory>
        requires { table.definition_in self.old name.now ≡ None }
        ensures names { OnOk result ((other : List ℕ) →
            table.definition_in self.new other ≡ option_or (table.definition_in self.old other)
            (if bytes_eq name.now other then Some definition else None)) }
        ensures rows { OnOk result (self.new.rows ≡ self.old.rows) }
    {
        self.by_name
            .insert(Vec::from_slice(alloc, name)?, definition)?;
        Ok(())
    }

    /// Keeps the definition of a name, where it has none yet.
    fn define(&mut self, alloc: Global, name: &[u8], form: &Judged<Form>) -> Result<(), Memory>
        ensures { OnOk result (steps.Defines self.old self.new name.now form.now) }
    {
        if self.named(name).is_some() {
            return Ok(());
        }
        let definition = definition_of(alloc, &mut self.rows, form)?;
        self.put(alloc, name, definition)
    }

    /// Keeps what a form defines.
    fn add(&mut self, alloc: Global, entry: &Entry) -> Result<(), Memory>
        ensures { OnOk result ((es : List Entry) → steps.AreKept self.old es →
            steps.AreKept self.new (es ++ entry.now ∷ [])) }
    {
        match predicate_name(entry) {
            Some(name) => self.define(alloc, name.bytes(), &entry.form),
            None => Ok(()),
        }
    }

    /// The first definitions of the predicates that some forms define.
    pub fn of(alloc: Global, entries: &[Entry]) -> Result<Definitions, Memory>
        ensures { IfOk result (λ ds. steps.AreKept ds entries.now) }
    {
        let mut definitions = Definitions::new(alloc);
        for entry in entries {
            definitions.add(alloc, entry)?;
        }
        Ok(definitions)
    }
}
