//! A form with the values of a choice in the places of its iterators.
ghost use Rattle.std.specs.Prelude.{◌≡◌, ◌++◌, IfOk, OnOk, map};
ghost use Rattle.std.specs.Fmt.{signed_decimal};
ghost use Rattle.std.specs.Option.{option_copied};
ghost use Rattle.md_iter.specs.Choice.{chosen_of};
ghost use Rattle.md_iter.specs.Substitution as spec;
ghost use Rattle.md_iter.specs.machine.Steps as steps;

use crate::angles::filled;
use crate::choice::Choice;
use crate::definition::{DefinitionKind, Definitions};
use lisp_read::{Tree, Trees};
use name_places::constant_named;
use plain_data::{Items, Memory};
use rtx_tree::Name;
use std::alloc::Global;
use text_words::{cut, print_number, same};

/// A form with values in the places of its iterators.
#[derive(Drop)]
pub struct Instance {
    /// The form's tree.
    pub tree: Tree,
    /// The conditions of the values, in the order of the iterators. Where the form has a condition,
    /// they hold besides it. The empty condition is always true.
    pub conditions: Items<Name>,
}

/// The value of the iterator of a kind and a name.
fn value_named<'a>(choices: &[Choice<'a>], kind: DefinitionKind, name: &[u8]) -> Option<&'a Name>
    ensures { option_copied result ≡ spec.value_named (map chosen_of choices.now) kind name.now }
{
    for choice in choices {
        if choice.iterator.kind.same(kind) && same(choice.iterator.name.bytes(), name) {
            return Some(&choice.value.name);
        }
    }
    None
}

/// Appends the value of the iterator of a kind and a name, or the name as it stands.
fn push_value(
    choices: &[Choice],
    kind: DefinitionKind,
    name: &[u8],
    out: &mut Vec<u8>,
) -> Result<(), Memory>
    ensures { OnOk result (out.new.items ≡ out.old.items ++ spec.value_or_name
        (map chosen_of choices.now) kind name.now) }
{
    match value_named(choices, kind, name) {
        Some(value) => out.extend_from_slice(value.bytes())?,
        None => out.extend_from_slice(name)?,
    }
    Ok(())
}

fn push_code(
    choices: &[Choice],
    is_head: bool,
    code: &[u8],
    out: &mut Vec<u8>,
) -> Result<(), Memory>
    ensures { OnOk result (out.new.items ≡ out.old.items ++ spec.code_under
        (map chosen_of choices.now) is_head code.now) }
{
    if is_head {
        push_value(choices, DefinitionKind::Code, code, out)
    } else {
        out.extend_from_slice(code)?;
        Ok(())
    }
}

fn push_with_mode(
    choices: &[Choice],
    is_head: bool,
    code: &[u8],
    mode: &[u8],
    out: &mut Vec<u8>,
) -> Result<(), Memory>
    ensures { OnOk result (out.new.items ≡ out.old.items ++ spec.with_mode
        (map chosen_of choices.now) is_head code.now mode.now) }
{
    push_code(choices, is_head, code, out)?;
    out.push(b':')?;
    push_value(choices, DefinitionKind::Mode, mode, out)
}

fn push_without_mode(
    choices: &[Choice],
    is_head: bool,
    text: &[u8],
    out: &mut Vec<u8>,
) -> Result<(), Memory>
    ensures { OnOk result (out.new.items ≡ out.old.items ++ spec.without_mode
        (map chosen_of choices.now) is_head text.now) }
{
    if is_head {
        push_value(choices, DefinitionKind::Code, text, out)
    } else {
        push_value(choices, DefinitionKind::Int, text, out)
    }
}

/// An atom with the values in the places of its iterators.
fn with_values(
    alloc: Global,
    choices: &[Choice],
    is_head: bool,
    text: &[u8],
) -> Result<Vec<u8>, Memory>
    ensures { IfOk result (λ out. out.items ≡ spec.with_values
        (map chosen_of choices.now) is_head text.now) }
{
    let mut out = Vec::new(alloc);
    match cut(text, b':') {
        Some((code, mode)) => push_with_mode(choices, is_head, code, mode, &mut out)?,
        None => push_without_mode(choices, is_head, text, &mut out)?,
    }
    Ok(out)
}

fn printed(alloc: Global, number: i64) -> Result<Name, Memory>
    ensures { IfOk result (λ name. name ≡ signed_decimal number) }
{
    let mut text = Vec::new(alloc);
    print_number(number, &mut text)?;
    Ok(Name::from_vec(text))
}

/// An atom: its iterators, its `<..>`, and where it isn't a head the constant that it then is.
fn atom_text(
    alloc: Global,
    definitions: &Definitions,
    choices: &[Choice],
    is_head: bool,
    text: &[u8],
) -> Result<Name, Memory>
    ensures { IfOk result (λ name.
        name ≡ spec.atom_text definitions.now (map chosen_of choices.now) is_head text.now) }
{
    let put = with_values(alloc, choices, is_head, text)?;
    let text = filled(alloc, definitions, choices, put.as_slice())?;
    if is_head {
        return Ok(Name::from_vec(text));
    }
    match constant_named(&definitions.constants, text.as_slice()) {
        Some(number) => printed(alloc, number),
        None => Ok(Name::from_vec(text)),
    }
}

fn filled_name(
    alloc: Global,
    definitions: &Definitions,
    choices: &[Choice],
    text: &[u8],
) -> Result<Name, Memory>
    ensures { IfOk result (λ name.
        name ≡ spec.filled_text definitions.now (map chosen_of choices.now) text.now) }
{
    Ok(Name::from_vec(filled(alloc, definitions, choices, text)?))
}

/// Some trees, of which the first may be the head of a list.
#[tactic(auto, using(crate::proofs::Uses::substituted_next))]
#[cycle(substitution)]
fn substituted_trees(
    alloc: Global,
    definitions: &Definitions,
    choices: &[Choice],
    trees: &[Tree],
    head_first: bool,
) -> Result<Trees, Memory>
    ensures { IfOk result (λ out. out ≡ steps.substituted_trees definitions.now
        (map chosen_of choices.now) trees.now head_first) }
{
    let mut out = Items::new(alloc);
    let mut is_head = head_first;
    for tree in trees {
        out.push(substituted(alloc, definitions, choices, tree, is_head)?)?;
        is_head = false;
    }
    Ok(out)
}

/// A tree, which may be the head of a list.
#[cycle(substitution)]
fn substituted(
    alloc: Global,
    definitions: &Definitions,
    choices: &[Choice],
    tree: &Tree,
    is_head: bool,
) -> Result<Tree, Memory>
    ensures { IfOk result (λ out. out ≡ spec.substituted definitions.now
        (map chosen_of choices.now) tree.now is_head) }
{
    match tree {
        Tree::Atom { place, text } => Ok(Tree::Atom {
            place: *place,
            text: atom_text(alloc, definitions, choices, is_head, text.bytes())?,
        }),
        Tree::Str { place, text } => Ok(Tree::Str {
            place: *place,
            text: filled_name(alloc, definitions, choices, text.bytes())?,
        }),
        Tree::Block { place, text } => Ok(Tree::Block {
            place: *place,
            text: filled_name(alloc, definitions, choices, text.bytes())?,
        }),
        Tree::List { place, items } => Ok(Tree::List {
            place: *place,
            items: substituted_trees(alloc, definitions, choices, items.as_slice(), true)?,
        }),
        Tree::Vector { place, items } => Ok(Tree::Vector {
            place: *place,
            items: substituted_trees(alloc, definitions, choices, items.as_slice(), false)?,
        }),
    }
}

/// The conditions of the values of a choice, in the order of the iterators.
fn conditions_of(alloc: Global, choices: &[Choice]) -> Result<Items<Name>, Memory>
    ensures { IfOk result (λ conditions.
        conditions ≡ spec.conditions_of (map chosen_of choices.now)) }
{
    let mut conditions = Items::new(alloc);
    for choice in choices {
        conditions.push(choice.value.condition.copy(alloc)?)?;
    }
    Ok(conditions)
}

/// A form under a choice of values.
pub fn form_under(
    alloc: Global,
    definitions: &Definitions,
    choices: &[Choice],
    form: &Tree,
) -> Result<Instance, Memory>
    ensures { IfOk result (λ out. out ≡ spec.form_under definitions.now form.now
        (map chosen_of choices.now)) }
{
    let tree = substituted(alloc, definitions, choices, form, false)?;
    Ok(Instance {
        tree,
        conditions: conditions_of(alloc, choices)?,
    })
}
