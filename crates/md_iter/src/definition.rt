//! Definitions of iterators, of their attributes and of constants.
ghost use Rattle.std.specs.Prelude.{◌≡◌, IfOk, option_map};
ghost use Rattle.md_iter.specs.Definition as spec;

use crate::kinded::{Kinded, KindedItems};
use crate::number::number_in;
use crate::shape::vector;
use lisp_read::{Tree, atom, items, string};
use name_places::{Constants, NameTable, Named};
use plain_data::{Items, Memory};
use rtx_tree::{Constant, Name};
use std::alloc::Global;
use text_words::same;

/// What an iterator stands for.
#[derive(Clone, Copy)]
pub enum DefinitionKind {
    Mode,
    Code,
    Int,
}

impl DefinitionKind {
    /// Whether two kinds are the same.
    pub fn same(self, other: DefinitionKind) -> bool
        ensures { result ≡ spec.same_kind self other }
    {
        match (self, other) {
            (DefinitionKind::Mode, DefinitionKind::Mode)
            | (DefinitionKind::Code, DefinitionKind::Code)
            | (DefinitionKind::Int, DefinitionKind::Int) => true,
            _ => false,
        }
    }
}

/// A value of an iterator.
#[derive(Drop)]
pub struct Value {
    /// What stands in the iterator's place.
    pub name: Name,
    /// When there is a form with this value. The empty condition is always true.
    pub condition: Name,
}

/// A name that stands for each of some values.
#[derive(Drop)]
pub struct FormIterator {
    pub kind: DefinitionKind,
    pub name: Name,
    /// The values, in order.
    pub values: Items<Value>,
}

impl Kinded for FormIterator {
    ghost kind = { λ i. i.kind };

    ghost name = { λ i. i.name };

    fn kind(&self) -> DefinitionKind {
        self.kind
    }

    fn name(&self) -> &[u8] {
        self.name.bytes()
    }
}

/// What an attribute is at one value.
#[derive(Drop)]
pub struct Entry {
    pub value: Name,
    pub text: Name,
}

// An entry is found by its value.
impl Named for Entry {
    ghost name = { λ e. e.value };

    fn name(&self) -> &[u8] {
        self.value.bytes()
    }
}

/// An attribute of the iterators of a kind: a text for some of their values.
#[derive(Drop)]
pub struct IteratorAttribute {
    pub kind: DefinitionKind,
    pub name: Name,
    pub entries: NameTable<Entry>,
}

impl Kinded for IteratorAttribute {
    ghost kind = { λ a. a.kind };

    ghost name = { λ a. a.name };

    fn kind(&self) -> DefinitionKind {
        self.kind
    }

    fn name(&self) -> &[u8] {
        self.name.bytes()
    }
}

/// What a description defines for its forms, each list in the order of the text.
#[derive(Drop)]
pub struct Definitions {
    pub iterators: KindedItems<FormIterator>,
    pub attributes: KindedItems<IteratorAttribute>,
    pub constants: Constants,
}

/// An atom and a string behind it.
fn named_text(trees: &[Tree]) -> Option<(&Name, &Name)>
    ensures { option_map (λ parts. (parts.0.now, parts.1.now)) result ≡
        spec.named_text trees.entry.now }
{
    match trees {
        [name, text] => Some((atom(name)?, string(text)?)),
        _ => None,
    }
}

/// `NAME` or `(NAME "condition")`.
fn value_in(alloc: Global, tree: &Tree) -> Result<Option<Value>, Memory>
    ensures { IfOk result (λ value. value ≡ spec.value_of tree.now) }
{
    if let Some(name) = atom(tree) {
        return Ok(Some(Value {
            name: name.copy(alloc)?,
            condition: Name::empty(alloc),
        }));
    }
    match named_text(items(tree)) {
        Some((name, condition)) => Ok(Some(Value {
            name: name.copy(alloc)?,
            condition: condition.copy(alloc)?,
        })),
        None => Ok(None),
    }
}

/// `(VALUE "text")`.
fn entry_in(alloc: Global, tree: &Tree) -> Result<Option<Entry>, Memory>
    ensures { IfOk result (λ entry. entry ≡ spec.entry_of tree.now) }
{
    match named_text(items(tree)) {
        Some((value, text)) => Ok(Some(Entry {
            value: value.copy(alloc)?,
            text: text.copy(alloc)?,
        })),
        None => Ok(None),
    }
}

fn named_number(trees: &[Tree]) -> Option<(&Name, i64)>
    ensures { option_map (λ parts. (parts.0.now, parts.1)) result ≡
        spec.named_number trees.entry.now }
{
    match trees {
        [name, number] => Some((atom(name)?, number_in(atom(number)?.bytes())?)),
        _ => None,
    }
}

/// `(NAME NUMBER)`.
fn constant_in(alloc: Global, tree: &Tree) -> Result<Option<Constant>, Memory>
    ensures { IfOk result (λ constant. constant ≡ spec.constant_of tree.now) }
{
    match named_number(items(tree)) {
        Some((name, number)) => Ok(Some(Constant {
            name: name.copy(alloc)?,
            number,
        })),
        None => Ok(None),
    }
}

#[tactic(auto, using(crate::proofs::Each::with_nothing, crate::proofs::Each::each_next, crate::proofs::Each::each_stops, crate::proofs::Each::each_ends))]
fn values(alloc: Global, trees: &[Tree]) -> Result<Option<Items<Value>>, Memory>
    ensures { IfOk result (λ values. values ≡ spec.each_of spec.value_of trees.now) }
{
    let mut values = Items::new(alloc);
    for tree in trees {
        match value_in(alloc, tree)? {
            Some(value) => values.push(value)?,
            None => return Ok(None),
        }
    }
    Ok(Some(values))
}

#[tactic(auto, using(crate::proofs::Each::with_nothing, crate::proofs::Each::each_next, crate::proofs::Each::each_stops, crate::proofs::Each::each_ends))]
fn entries(alloc: Global, trees: &[Tree]) -> Result<Option<Items<Entry>>, Memory>
    ensures { IfOk result (λ entries. entries ≡ spec.each_of spec.entry_of trees.now) }
{
    let mut entries = Items::new(alloc);
    for tree in trees {
        match entry_in(alloc, tree)? {
            Some(entry) => entries.push(entry)?,
            None => return Ok(None),
        }
    }
    Ok(Some(entries))
}

#[tactic(auto, using(crate::proofs::Each::with_nothing, crate::proofs::Each::each_next, crate::proofs::Each::each_stops, crate::proofs::Each::each_ends))]
fn constants(alloc: Global, trees: &[Tree]) -> Result<Option<Items<Constant>>, Memory>
    ensures { IfOk result (λ constants. constants ≡ spec.each_of spec.constant_of trees.now) }
{
    let mut constants = Items::new(alloc);
    for tree in trees {
        match constant_in(alloc, tree)? {
            Some(constant) => constants.push(constant)?,
            None => return Ok(None),
        }
    }
    Ok(Some(constants))
}

/// The kind of iterator that a head defines.
fn iterator_kind(head: &[u8]) -> Option<DefinitionKind>
    ensures { result ≡ spec.iterator_kind head.now }
{
    if same(head, b"define_mode_iterator") {
        Some(DefinitionKind::Mode)
    } else if same(head, b"define_code_iterator") {
        Some(DefinitionKind::Code)
    } else if same(head, b"define_int_iterator") {
        Some(DefinitionKind::Int)
    } else {
        None
    }
}

/// The kind of iterators that a head defines an attribute of.
fn attribute_kind(head: &[u8]) -> Option<DefinitionKind>
    ensures { result ≡ spec.attribute_kind head.now }
{
    if same(head, b"define_mode_attr") {
        Some(DefinitionKind::Mode)
    } else if same(head, b"define_code_attr") {
        Some(DefinitionKind::Code)
    } else if same(head, b"define_int_attr") {
        Some(DefinitionKind::Int)
    } else {
        None
    }
}

/// `(HEAD NAME [..])`.
fn named_vector(trees: &[Tree]) -> Option<(&Name, &Name, &[Tree])>
    ensures { option_map (λ parts. (parts.0.now, parts.1.now, parts.2.now)) result ≡
        spec.named_vector trees.entry.now }
{
    match trees {
        [head, name, parts] => Some((atom(head)?, atom(name)?, vector(parts)?)),
        _ => None,
    }
}

/// The iterator that a tree defines.
pub fn iterator(alloc: Global, tree: &Tree) -> Result<Option<FormIterator>, Memory>
    ensures { IfOk result (λ iterator. iterator ≡ spec.iterator_of tree.now) }
{
    let Some((head, name, parts)) = named_vector(items(tree)) else {
        return Ok(None);
    };
    let Some(kind) = iterator_kind(head.bytes()) else {
        return Ok(None);
    };
    match values(alloc, parts)? {
        Some(values) => Ok(Some(FormIterator {
            kind,
            name: name.copy(alloc)?,
            values,
        })),
        None => Ok(None),
    }
}

/// The attribute of iterators that a tree defines.
pub fn attribute(alloc: Global, tree: &Tree) -> Result<Option<IteratorAttribute>, Memory>
    ensures { IfOk result (λ attribute. attribute ≡ spec.attribute_of tree.now) }
{
    let Some((head, name, parts)) = named_vector(items(tree)) else {
        return Ok(None);
    };
    let Some(kind) = attribute_kind(head.bytes()) else {
        return Ok(None);
    };
    match entries(alloc, parts)? {
        Some(entries) => Ok(Some(IteratorAttribute {
            kind,
            name: name.copy(alloc)?,
            entries: NameTable::of(alloc, entries)?,
        })),
        None => Ok(None),
    }
}

fn constant_trees(trees: &[Tree]) -> Option<&[Tree]>
    ensures { option_map (λ parts. parts.now) result ≡ spec.constant_trees trees.entry.now }
{
    match trees {
        [head, parts] if same(atom(head)?.bytes(), b"define_constants") => vector(parts),
        _ => None,
    }
}

/// The constants that a tree defines.
pub fn constants_of(alloc: Global, tree: &Tree) -> Result<Option<Items<Constant>>, Memory>
    ensures { IfOk result (λ constants. constants ≡ spec.constants_of tree.now) }
{
    match constant_trees(items(tree)) {
        Some(parts) => constants(alloc, parts),
        None => Ok(None),
    }
}

/// Whether a tree is a form, and no definition that is applied.
pub fn is_form(alloc: Global, tree: &Tree) -> Result<bool, Memory>
    ensures { IfOk result (λ form. form ≡ spec.is_form tree.now) }
{
    let is_iterator = iterator(alloc, tree)?.is_some();
    let is_attribute = attribute(alloc, tree)?.is_some();
    let is_constants = constants_of(alloc, tree)?.is_some();
    Ok(!is_iterator && !is_attribute && !is_constants)
}

#[tactic(auto, using(crate::proofs::Lists::filter_map_found, crate::proofs::Lists::filter_map_passed))]
fn iterators_in(alloc: Global, trees: &[Tree]) -> Result<KindedItems<FormIterator>, Memory>
    ensures { IfOk result (λ iterators. iterators ≡ spec.iterators_in trees.now) }
{
    let mut iterators = Items::new(alloc);
    for tree in trees {
        if let Some(iterator) = iterator(alloc, tree)? {
            iterators.push(iterator)?;
        }
    }
    KindedItems::of(alloc, iterators)
}

#[tactic(auto, using(crate::proofs::Lists::filter_map_found, crate::proofs::Lists::filter_map_passed))]
fn attributes_in(alloc: Global, trees: &[Tree]) -> Result<KindedItems<IteratorAttribute>, Memory>
    ensures { IfOk result (λ attributes. attributes ≡ spec.attributes_in trees.now) }
{
    let mut attributes = Items::new(alloc);
    for tree in trees {
        if let Some(attribute) = attribute(alloc, tree)? {
            attributes.push(attribute)?;
        }
    }
    KindedItems::of(alloc, attributes)
}

fn all_constants_in(alloc: Global, trees: &[Tree]) -> Result<Constants, Memory>
    ensures { IfOk result (λ constants. constants ≡ spec.all_constants_in trees.now) }
{
    let mut all = Vec::new(alloc);
    for tree in trees {
        if let Some(constants) = constants_of(alloc, tree)? {
            all.append(&mut constants.into_vec())?;
        }
    }
    NameTable::of(alloc, Items::from_vec(all))
}

/// What the trees of a description define.
pub fn definitions_in(alloc: Global, trees: &[Tree]) -> Result<Definitions, Memory>
    ensures { IfOk result (λ definitions. definitions ≡ spec.definitions_in trees.now) }
{
    Ok(Definitions {
        iterators: iterators_in(alloc, trees)?,
        attributes: attributes_in(alloc, trees)?,
        constants: all_constants_in(alloc, trees)?,
    })
}
