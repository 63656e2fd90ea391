//! Forms with a block in the compact syntax.
ghost use Rattle.std.specs.Prelude.{◌≡◌, ◌++◌, ◌==◌, IfOk, OnOk};
ghost use Rattle.std.specs.List.{flat_map, list_all, list_any};
ghost use Rattle.rtx_tree.specs.Tree.{head_of};
ghost use Rattle.md_draft.specs.Compact as spec;
ghost use Rattle.md_draft.specs.machine.Known.{Knows};

use crate::draft::{Attribute, Draft, Matched, Output, Printed};
use md_compact::{Block, Column, column_text, values_at};
use md_pattern::{OperandText, OperandTexts, Patterns};
use name_places::Places;
use plain_data::{Items, Memory};
use rtx_tree::{Code, Name, Rtx};
use std::alloc::Global;
use text_words::all_blank;

/// The greatest number of columns: a form has no more operands.
const MOST_COLUMNS: usize = 30;

// ---- the operands of which a column may be

fn push_operand(x: &Rtx, numbers: &mut Items<u64>) -> Result<(), Memory>
    ensures { OnOk result (numbers.new ≡ numbers.old ++ spec.operand_here (head_of x.now).code
        (head_of x.now).number) }
{
    match x.code {
        Code::MatchOperand | Code::MatchScratch => numbers.push(x.number.cast_unsigned()),
        _ => Ok(()),
    }
}

/// Appends the numbers of an expression's operands.
#[tactic(auto, using(crate::proofs::OperandLaws::operands_first, pred_expr::proofs::Each::pushed_next, pred_expr::proofs::Each::pushed_ends))]
fn push_operands(x: &Rtx, numbers: &mut Items<u64>) -> Result<(), Memory>
    ensures { OnOk result (numbers.new ≡ numbers.old ++ spec.operands_in x.now) }
{
    push_operand(x, numbers)?;
    for kid in x.kids.as_slice() {
        push_operands(kid, numbers)?;
    }
    Ok(())
}

/// Appends the numbers of the operands of several expressions.
#[tactic(auto, using(pred_expr::proofs::Each::pushed_next, pred_expr::proofs::Each::pushed_ends))]
fn push_all_operands(trees: &[Rtx], numbers: &mut Items<u64>) -> Result<(), Memory>
    ensures { OnOk result (numbers.new ≡ numbers.old ++ flat_map spec.operands_in trees.now) }
{
    for tree in trees {
        push_operands(tree, numbers)?;
    }
    Ok(())
}

#[tactic(auto, unfolding(crate::specs::Compact::operands_of))]
fn operands_of(alloc: Global, patterns: &Patterns) -> Result<Items<u64>, Memory>
    ensures { IfOk result (λ numbers. numbers ≡ spec.operands_of patterns.now) }
{
    let mut numbers = Items::new(alloc);
    push_all_operands(patterns.trees.as_slice(), &mut numbers)?;
    Ok(numbers)
}

fn has_operand(operands: &[u64], number: u32) -> bool
    ensures { result ≡ list_any (λ n. n == number) operands.now }
{
    operands.contains(&u64::from(number))
}

/// Whether this is a constraint of the operand with a number.
fn constrains(number: u32, text: &OperandText) -> bool
    ensures { result ≡ spec.constrains number text.now }
{
    text.operand == number && !all_blank(text.text.bytes())
}

fn has_constraint(texts: &[OperandText], number: u32) -> bool
    ensures { result ≡ list_any (spec.constrains number) texts.now }
{
    texts.iter().any(|text| constrains(number, text))
}

/// Whether a column is of an operand to which the pattern gives no constraint.
fn column_fits(operands: &[u64], texts: &[OperandText], column: Column) -> bool
    ensures { result ≡ spec.column_fits operands.now texts.now column }
{
    has_operand(operands, column.operand) && !has_constraint(texts, column.operand)
}

fn all_fit(operands: &[u64], texts: &[OperandText], columns: &[Column]) -> bool
    ensures { result ≡ list_all (spec.column_fits operands.now texts.now) columns.now }
{
    columns
        .iter()
        .all(|column| column_fits(operands, texts, *column))
}

fn has_column(columns: &[Column], number: u32) -> bool
    ensures { result ≡ list_any (spec.is_of number) columns.now }
{
    columns.iter().any(|column| column.operand == number)
}

fn are_apart(columns: &[Column]) -> bool
    ensures { result ≡ spec.are_apart columns.now }
{
    for at in 0..columns.len() {
        if has_column(&columns[at + 1..], columns[at].operand) {
            return false;
        }
    }
    true
}

fn columns_fit(operands: &[u64], texts: &[OperandText], columns: &[Column]) -> bool
    ensures { result ≡ spec.columns_fit operands.now texts.now columns.now }
{
    columns.len() <= MOST_COLUMNS && are_apart(columns) && all_fit(operands, texts, columns)
}

// ---- the attributes to which a name may give values

/// The attributes to which a form gives values itself.
fn known_names(alloc: Global, given: &[Attribute]) -> Result<Places, Memory>
    ensures { IfOk result (λ places. Knows places (spec.given_names given.now)) }
{
    let mut places = Places::new(alloc);
    for at in (0..given.len()).rev() {
        places.put(alloc, given[at].name.bytes(), at)?;
    }
    Ok(places)
}

/// Whether none of some names is that of a given attribute, or stands twice.
fn are_new(alloc: Global, given: &[Attribute], names: &[Name]) -> Result<bool, Memory>
    ensures { IfOk result (λ new. new ≡ spec.are_new (spec.given_names given.now) names.now) }
{
    let mut places = known_names(alloc, given)?;
    for name in names {
        if places.place_of(name.bytes()).is_some() {
            return Ok(false);
        }
        places.put(alloc, name.bytes(), 0)?;
    }
    Ok(true)
}

// ---- the form without the block

#[tactic(auto, unfolding(crate::specs::Compact::is_fitting))]
fn is_fitting(
    alloc: Global,
    block: &Block,
    patterns: &Patterns,
    given: &[Attribute],
) -> Result<bool, Memory>
    ensures { IfOk result (λ fitting.
        fitting ≡ spec.is_fitting block.now patterns.now given.now) }
{
    let operands = operands_of(alloc, patterns)?;
    let texts = patterns.texts.as_slice();
    if !columns_fit(operands.as_slice(), texts, block.layout.columns.as_slice()) {
        return Ok(false);
    }
    are_new(alloc, given, block.layout.names.as_slice())
}

fn column_constraint(
    alloc: Global,
    block: &Block,
    at: usize,
    column: Column,
) -> Result<OperandText, Memory>
    ensures { IfOk result (λ text. text ≡ spec.column_constraint block.now at column) }
{
    Ok(OperandText {
        operand: column.operand,
        text: column_text(alloc, block, at, column)?,
    })
}

/// The constraints of the columns' operands.
#[tactic(auto, using(crate::proofs::EachFrom::each_next, crate::proofs::EachFrom::each_ends))]
fn old_texts(alloc: Global, block: &Block) -> Result<OperandTexts, Memory>
    ensures { IfOk result (λ texts. texts ≡ spec.old_texts block.now) }
{
    let mut texts = Items::new(alloc);
    for (at, column) in block.layout.columns.as_slice().iter().enumerate() {
        texts.push(column_constraint(alloc, block, at, *column)?)?;
    }
    Ok(texts)
}

fn name_values(alloc: Global, block: &Block, at: usize, name: &Name) -> Result<Attribute, Memory>
    ensures { IfOk result (λ attribute. attribute ≡ spec.name_values block.now at name.now) }
{
    Ok(Attribute {
        name: name.copy(alloc)?,
        values: values_at(alloc, block, at)?,
    })
}

/// What the block gives attributes.
#[tactic(auto, using(crate::proofs::EachFrom::each_next, crate::proofs::EachFrom::each_ends))]
fn old_attributes(alloc: Global, block: &Block) -> Result<Items<Attribute>, Memory>
    ensures { IfOk result (λ attributes. attributes ≡ spec.old_attributes block.now) }
{
    let mut attributes = Items::new(alloc);
    for (at, name) in block.layout.names.as_slice().iter().enumerate() {
        attributes.push(name_values(alloc, block, at, name)?)?;
    }
    Ok(attributes)
}

fn old_output(fitting: bool, output: Output) -> Output
    ensures { result ≡ spec.old_output fitting output }
{
    if fitting {
        output
    } else {
        drop(output);
        Output::Outside
    }
}

fn old_patterns(alloc: Global, block: &Block, patterns: Patterns) -> Result<Patterns, Memory>
    ensures { IfOk result (λ old. old ≡ spec.old_patterns block.now patterns) }
{
    let Patterns { trees, .. } = patterns;
    let texts = old_texts(alloc, block)?;
    Ok(Patterns { trees, texts })
}

fn old_printed(
    alloc: Global,
    block: &Block,
    patterns: &Patterns,
    printed: Printed,
) -> Result<Printed, Memory>
    ensures { IfOk result (λ old. old ≡ spec.old_printed block.now patterns.now printed) }
{
    let Printed { output, attributes } = printed;
    let fitting = is_fitting(alloc, block, patterns, attributes.as_slice())?;
    let attributes = attributes.append(old_attributes(alloc, block)?)?;
    Ok(Printed {
        output: old_output(fitting, output),
        attributes,
    })
}

/// What a form without its block says, by what it says besides the block.
#[tactic(auto, unfolding(crate::specs::Compact::old_draft))]
pub fn old_draft(alloc: Global, block: &Block, draft: Draft) -> Result<Draft, Memory>
    ensures { IfOk result (λ old. old ≡ spec.old_draft block.now draft) }
{
    let Draft {
        head,
        matched,
        replacement,
        printed,
        defined,
    } = draft;
    let Matched {
        patterns,
        condition,
    } = matched;
    let printed = old_printed(alloc, block, &patterns, printed)?;
    let patterns = old_patterns(alloc, block, patterns)?;
    Ok(Draft {
        head,
        matched: Matched {
            patterns,
            condition,
        },
        replacement,
        printed,
        defined,
    })
}
