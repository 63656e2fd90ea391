//! What is asked of a form whose own text is in order.
ghost use Rattle.std.specs.Prelude.{◌≡◌, ◌==◌, ◌||◌, nat_le, IfOk, Some};
ghost use Rattle.std.specs.List.{flat_map, list_all};
ghost use Rattle.md_tables.specs.md_pattern.Reason.{judged_map};
ghost use Rattle.md_tables.specs.md_text.Lists as lists;
ghost use Rattle.md_forms.specs.Checks as spec;
ghost use Rattle.md_forms.specs.machine.Steps as steps;
ghost use Rattle.md_forms.specs.Names as names;

use crate::form::{Form, OperandConstraint};
use crate::names::{assigned_by, push_all_dups, push_all_operands};
use crate::operands::OperandNumbers;
use md_tables::{
    Alternative, Attribute, AttributeDraft, ConstraintDraft, ConstraintNames, Defined, Draft,
    FormHead, Judged, Matched, Member, OperandText, Output, Patterns, Printed, Reason, Replacement,
    Tables, Template, all_known, constraint_of, is_among, is_constraint, predicates_named,
};
use name_places::NameTable;
use plain_data::{Items, Memory};
use rtx_tree::{Kids, Name, Rtx};
use std::alloc::Global;
use std::collections::BTreeSet;
use text_words::same;

/// The greatest number of operands, and of alternatives.
const MOST: usize = 30;

/// The operands of a form by their numbers.
#[derive(Drop)]
pub struct Numbers {
    /// The operands of the patterns.
    pub matched: OperandNumbers,
    /// The operands of the patterns and of the new sequence.
    pub all: Items<u64>,
}

// ---- predicates

#[tactic(auto, unfolding(crate::specs::Checks::predicates_known))]
fn predicates_known(alloc: Global, tables: &Tables, draft: &Draft) -> Result<bool, Memory>
    ensures { IfOk result (λ known. known ≡ spec.predicates_known tables.now draft.now) }
{
    let names = predicates_named(alloc, draft)?;
    Ok(all_known(
        &tables.predicates,
        tables.accepted.as_slice(),
        names.as_slice(),
    ))
}

// ---- operands

fn operands_of(alloc: Global, trees: &[Rtx]) -> Result<Items<u64>, Memory>
    ensures { IfOk result (λ numbers. numbers ≡ flat_map names.operands_in trees.now) }
{
    let mut numbers = Items::new(alloc);
    push_all_operands(trees, &mut numbers)?;
    Ok(numbers)
}

fn dups_of(alloc: Global, trees: &[Rtx]) -> Result<Items<u64>, Memory>
    ensures { IfOk result (λ numbers. numbers ≡ flat_map names.dups_in trees.now) }
{
    let mut numbers = Items::new(alloc);
    push_all_dups(trees, &mut numbers)?;
    Ok(numbers)
}

#[tactic(auto, unfolding(crate::specs::Checks::matched, crate::specs::Checks::all_operands))]
fn numbers_of(alloc: Global, draft: &Draft) -> Result<Numbers, Memory>
    ensures { IfOk result (λ numbers. steps.AreNumbers numbers draft.now) }
{
    let matched = OperandNumbers::of(
        alloc,
        operands_of(alloc, draft.matched.patterns.trees.as_slice())?,
    )?;
    let mut all = operands_of(alloc, draft.matched.patterns.trees.as_slice())?;
    push_all_operands(draft.replacement.sequence.trees.as_slice(), &mut all)?;
    Ok(Numbers { matched, all })
}

fn are_distinct(numbers: &[u64]) -> bool
    ensures { result ≡ spec.are_distinct numbers.now }
{
    for at in 0..numbers.len() {
        if numbers[at + 1..].contains(&numbers[at]) {
            return false;
        }
    }
    true
}

fn is_expander(head: FormHead) -> bool
    ensures { result ≡ spec.is_expander head }
{
    matches!(head, FormHead::Expand)
}

/// Whether an operand may stand once more in a pattern.
fn dup_stands(
    expander: bool,
    matched: &OperandNumbers,
    assigned: &BTreeSet<u64>,
    number: u64,
) -> bool
    ensures { result ≡ steps.dup_in expander matched.now assigned.now number }
{
    matched.has(number) || (expander && assigned.contains(&number))
}

fn all_dups_stand(
    expander: bool,
    matched: &OperandNumbers,
    assigned: &BTreeSet<u64>,
    dups: &[u64],
) -> bool
    ensures { result ≡ list_all (steps.dup_in expander matched.now assigned.now) dups.now }
{
    dups.iter()
        .all(|number| dup_stands(expander, matched, assigned, *number))
}

#[tactic(auto, using(crate::proofs::NumberLaws::all_dups), unfolding(crate::specs::Checks::dups_by))]
fn dups_stand(alloc: Global, draft: &Draft, matched: &OperandNumbers) -> Result<bool, Memory>
    ensures { IfOk result (λ stand. stand ≡ spec.dups_by matched.now draft.now) }
{
    let assigned = assigned_by(alloc, draft.replacement.statements.heads())?;
    let dups = dups_of(alloc, draft.matched.patterns.trees.as_slice())?;
    let new_dups = dups_of(alloc, draft.replacement.sequence.trees.as_slice())?;
    Ok(
        all_dups_stand(is_expander(draft.head), matched, &assigned, dups.as_slice())
            && all_dups_stand(true, matched, &assigned, new_dups.as_slice()),
    )
}

// ---- constraints

fn constraint_in(
    alloc: Global,
    names: &ConstraintNames,
    text: &OperandText,
) -> Result<Option<OperandConstraint>, Memory>
    ensures { IfOk result (λ constraint. constraint ≡ spec.constraint_in names.now text.now) }
{
    match constraint_of(alloc, text.text.bytes(), names)? {
        Some(constraint) => Ok(Some(OperandConstraint {
            operand: text.operand,
            constraint,
        })),
        None => Ok(None),
    }
}

#[tactic(auto, using(md_text::proofs::Each::with_nothing, md_text::proofs::Each::each_next, md_text::proofs::Each::each_stops, md_text::proofs::Each::each_ends))]
fn constraints_of(
    alloc: Global,
    names: &ConstraintNames,
    texts: &[OperandText],
) -> Result<Option<Items<OperandConstraint>>, Memory>
    ensures { IfOk result (λ constraints.
        constraints ≡ lists.each (spec.constraint_in names.now) texts.now) }
{
    let mut constraints = Items::new(alloc);
    for text in texts {
        match constraint_in(alloc, names, text)? {
            Some(constraint) => constraints.push(constraint)?,
            None => return Ok(None),
        }
    }
    Ok(Some(constraints))
}

/// The constraints of a form, or none where one of them has something unknown in it.
#[tactic(auto, unfolding(crate::specs::Checks::constraints_in))]
fn constraints_in(
    alloc: Global,
    names: &ConstraintNames,
    draft: &Draft,
) -> Result<Option<Items<OperandConstraint>>, Memory>
    ensures { IfOk result (λ constraints. constraints ≡ spec.constraints_in names.now draft.now) }
{
    let constraints = constraints_of(alloc, names, draft.matched.patterns.texts.as_slice())?;
    let more = constraints_of(alloc, names, draft.replacement.sequence.texts.as_slice())?;
    match (constraints, more) {
        (Some(constraints), Some(more)) => Ok(Some(constraints.append(more)?)),
        _ => Ok(None),
    }
}

fn member_stands(
    numbers: &OperandNumbers,
    known: &NameTable<ConstraintDraft>,
    member: &Member,
) -> bool
    ensures { result ≡ spec.member_stands numbers.now known.now member.now }
{
    match member {
        Member::Letter(_) => true,
        Member::Same(number) => numbers.has(u64::from(*number)),
        Member::Defined(name) => is_constraint(known, name.bytes()),
    }
}

fn alternative_stands(
    numbers: &OperandNumbers,
    known: &NameTable<ConstraintDraft>,
    alternative: &Alternative,
) -> bool
    ensures { result ≡ spec.alternative_stands numbers.now known.now alternative.now }
{
    alternative
        .members
        .as_slice()
        .iter()
        .all(|member| member_stands(numbers, known, member))
}

fn constraint_stands(
    numbers: &OperandNumbers,
    known: &NameTable<ConstraintDraft>,
    constraint: &OperandConstraint,
) -> bool
    ensures { result ≡ spec.constraint_stands numbers.now known.now constraint.now }
{
    constraint.constraint.as_slice().iter().all(|alternative| alternative_stands(
        numbers,
        known,
        alternative,
    ))
}

/// How many alternatives a form has.
pub fn alternatives(constraints: &[OperandConstraint]) -> usize
    ensures { result ≡ spec.alternatives constraints.now }
{
    for constraint in constraints {
        if constraint.constraint.len() > 0 {
            return constraint.constraint.len();
        }
    }
    1
}

fn has_length(count: usize, constraint: &OperandConstraint) -> bool
    ensures { result ≡ spec.has_length count constraint.now }
{
    constraint.constraint.len() == 0 || constraint.constraint.len() == count
}

fn all_have_length(count: usize, constraints: &[OperandConstraint]) -> bool
    ensures { result ≡ list_all (spec.has_length count) constraints.now }
{
    constraints
        .iter()
        .all(|constraint| has_length(count, constraint))
}

fn all_stand(
    numbers: &OperandNumbers,
    known: &NameTable<ConstraintDraft>,
    constraints: &[OperandConstraint],
) -> bool
    ensures { result ≡ list_all (spec.constraint_stands numbers.now known.now) constraints.now }
{
    constraints
        .iter()
        .all(|constraint| constraint_stands(numbers, known, constraint))
}

#[tactic(auto, unfolding(crate::specs::Checks::constraints_stand))]
fn constraints_stand(
    numbers: &OperandNumbers,
    known: &NameTable<ConstraintDraft>,
    constraints: &[OperandConstraint],
) -> bool
    ensures { result ≡ spec.constraints_stand numbers.now known.now constraints.now }
{
    all_stand(numbers, known, constraints)
        && all_have_length(alternatives(constraints), constraints)
}

// ---- attributes

#[tactic(auto, using(name_places::proofs::FirstNames::found_among))]
fn is_value(attribute: &AttributeDraft, value: &[u8]) -> bool
    ensures { result ≡ spec.is_value attribute.now value.now }
{
    same(b"*", value) || attribute.values.place_of(value).is_some()
}

fn all_values(attribute: &AttributeDraft, values: &[Name]) -> bool
    ensures { result ≡ list_all (spec.is_value attribute.now) values.now }
{
    values
        .iter()
        .all(|value| is_value(attribute, value.bytes()))
}

fn counts(count: usize, alternatives: usize) -> bool
    ensures { result ≡ ((count == 1) || (count == alternatives)) }
{
    count == 1 || count == alternatives
}

fn attribute_stands(
    known: &NameTable<AttributeDraft>,
    alternatives: usize,
    given: &Attribute,
) -> bool
    ensures { result ≡ spec.attribute_stands known.now alternatives given.now }
{
    match known.first(given.name.bytes()) {
        Some(attribute) => {
            attribute.accepted
                && all_values(attribute, given.values.as_slice())
                && counts(given.values.len(), alternatives)
        }
        None => false,
    }
}

fn all_attributes_stand(
    known: &NameTable<AttributeDraft>,
    alternatives: usize,
    attributes: &[Attribute],
) -> bool
    ensures { result ≡ list_all (spec.attribute_stands known.now alternatives) attributes.now }
{
    attributes
        .iter()
        .all(|given| attribute_stands(known, alternatives, given))
}

fn is_attr(head: FormHead) -> bool
    ensures { result ≡ spec.is_attr head }
{
    matches!(head, FormHead::Attr)
}

fn default_stands(draft: &Draft) -> bool
    ensures { result ≡ spec.default_stands draft.now }
{
    !is_attr(draft.head)
        || is_among(
            draft.defined.values.as_slice(),
            draft.defined.default.bytes(),
        )
}

#[tactic(auto, unfolding(crate::specs::Checks::attributes_stand))]
fn attributes_stand(known: &NameTable<AttributeDraft>, draft: &Draft, alternatives: usize) -> bool
    ensures { result ≡ spec.attributes_stand known.now draft.now alternatives }
{
    default_stands(draft)
        && all_attributes_stand(known, alternatives, draft.printed.attributes.as_slice())
}

// ---- numbers and templates

fn within(count: usize) -> bool
    ensures { result ≡ nat_le count 30 }
{
    count <= MOST
}

fn numbers_stand(numbers: &[u64], alternatives: usize) -> bool
    ensures { result ≡ spec.numbers_stand numbers.now alternatives }
{
    within(numbers.len()) && within(alternatives) && are_distinct(numbers)
}

#[tactic(auto, unfolding(crate::specs::Checks::operands_stand))]
fn operands_stand(
    alloc: Global,
    draft: &Draft,
    numbers: &Numbers,
    alternatives: usize,
) -> Result<bool, Memory>
    requires { steps.AreNumbers numbers.now draft.now }
    ensures { IfOk result (λ stand. stand ≡ spec.operands_stand draft.now alternatives) }
{
    if !numbers_stand(numbers.all.as_slice(), alternatives) {
        return Ok(false);
    }
    dups_stand(alloc, draft, &numbers.matched)
}

/// Whether a template has a text for each alternative.
fn template_stands(alternatives: usize, template: &Template) -> bool
    ensures { result ≡ spec.template_stands alternatives template.now }
{
    match template {
        Template::Split | Template::One(_) => true,
        Template::Each(lines) => lines.len() == alternatives,
    }
}

/// Whether an output is printed for each alternative.
fn output_stands(alternatives: usize, output: &Output) -> bool
    ensures { result ≡ spec.output_stands alternatives output.now }
{
    match output {
        Output::Template(template) => template_stands(alternatives, template),
        Output::Outside => false,
    }
}

// ---- all in the order of the reasons

/// The smallest reason behind those of predicates, where the numbers of the operands are known.
fn reason_with(
    alloc: Global,
    tables: &Tables,
    draft: &Draft,
    constraints: &[OperandConstraint],
    numbers: &Numbers,
) -> Result<Option<Reason>, Memory>
    requires constraints { spec.constraints_in tables.now.constraint_names draft.now
        ≡ Some constraints.now }
    requires numbers { steps.AreNumbers numbers.now draft.now }
    ensures { IfOk result (λ reason. reason ≡ steps.reason_behind tables.now draft.now) }
{
    if !constraints_stand(&numbers.matched, &tables.constraints, constraints) {
        return Ok(Some(Reason::Constraint));
    }
    let count = alternatives(constraints);
    if !attributes_stand(&tables.attributes, draft, count) {
        return Ok(Some(Reason::Attribute));
    }
    if !operands_stand(alloc, draft, numbers, count)? {
        return Ok(Some(Reason::Operands));
    }
    if !output_stands(count, &draft.printed.output) {
        return Ok(Some(Reason::Template));
    }
    Ok(None)
}

/// The smallest reason that applies to a draft of which the predicates are known, and these are
/// the constraints.
fn reason_behind(
    alloc: Global,
    tables: &Tables,
    draft: &Draft,
    constraints: &[OperandConstraint],
) -> Result<Option<Reason>, Memory>
    requires { spec.constraints_in tables.now.constraint_names draft.now ≡ Some constraints.now }
    ensures { IfOk result (λ reason. reason ≡ steps.reason_behind tables.now draft.now) }
{
    let numbers = numbers_of(alloc, draft)?;
    reason_with(alloc, tables, draft, constraints, &numbers)
}

/// The constraints of a draft, or the smallest reason that applies to it.
#[tactic(auto, unfolding(crate::specs::machine::Steps::checked))]
fn checked(
    alloc: Global,
    tables: &Tables,
    draft: &Draft,
) -> Result<Judged<Items<OperandConstraint>>, Memory>
    ensures { IfOk result (λ constraints. constraints ≡ steps.checked tables.now draft.now) }
{
    if !predicates_known(alloc, tables, draft)? {
        return Ok(Err(Reason::Predicate));
    }
    let Some(constraints) = constraints_in(alloc, &tables.constraint_names, draft)? else {
        return Ok(Err(Reason::Constraint));
    };
    match reason_behind(alloc, tables, draft, constraints.as_slice())? {
        Some(reason) => Ok(Err(reason)),
        None => Ok(Ok(constraints)),
    }
}

/// Patterns without the texts of their constraints.
fn trees_of(patterns: Patterns) -> Kids
    ensures { result ≡ patterns.trees }
{
    let Patterns { trees, .. } = patterns;
    trees
}

fn template_of(alloc: Global, output: Output) -> Template
    ensures { result ≡ spec.template_of output }
{
    match output {
        Output::Template(template) => template,
        _ => Template::One(Items::new(alloc)),
    }
}

fn form_with(alloc: Global, draft: Draft, constraints: Items<OperandConstraint>) -> Form
    ensures { result ≡ spec.form_with draft constraints }
{
    let Draft {
        head,
        matched,
        replacement,
        printed,
        defined,
    } = draft;
    let Matched {
        patterns,
        condition,
    } = matched;
    let Replacement {
        split_condition,
        sequence,
        statements,
    } = replacement;
    let Printed { output, attributes } = printed;
    let Defined {
        test,
        class,
        values,
        default,
    } = defined;
    Form {
        head,
        patterns: trees_of(patterns),
        condition,
        split_condition,
        statements,
        sequence: trees_of(sequence),
        constraints,
        attributes,
        template: template_of(alloc, output),
        test,
        class,
        values,
        default,
    }
}

/// The form with these constraints, or the reason why there are none.
fn judged_form(
    alloc: Global,
    draft: Draft,
    constraints: Judged<Items<OperandConstraint>>,
) -> Judged<Form>
    ensures { result ≡ judged_map (spec.form_with draft) constraints }
{
    match constraints {
        Ok(constraints) => Ok(form_with(alloc, draft, constraints)),
        Err(reason) => {
            drop(draft);
            Err(reason)
        }
    }
}

/// A form, or the smallest reason that applies to a draft.
#[tactic(auto, using(crate::proofs::Checked::form_made))]
pub fn form_of(alloc: Global, tables: &Tables, draft: Draft) -> Result<Judged<Form>, Memory>
    ensures { IfOk result (λ form. form ≡ spec.form_of tables.now draft) }
{
    match checked(alloc, tables, &draft) {
        Ok(constraints) => Ok(judged_form(alloc, draft, constraints)),
        Err(memory) => {
            drop(draft);
            Err(memory)
        }
    }
}
