//! Reads a pattern from its tree.
ghost use Rattle.std.specs.Prelude.{◌≡◌, ◌==◌, IfOk, Ok, map, take, length, option_and_then};
ghost use Rattle.std.specs.Option.{option_copied};
ghost use Rattle.rtx_tree.specs.Code.{class_of_code, parts_of};
ghost use Rattle.lisp_read.specs.Head.{code_of_head, mode_of_head};
ghost use Rattle.md_pattern.specs.declared.reason.Reason.TheVariants as reason;
ghost use Rattle.md_pattern.specs.Pattern as spec;
ghost use Rattle.md_pattern.specs.machine.Steps as steps;
ghost use Rattle.md_pattern.specs.HasReason.{HasReason, VectorHasReason};
ghost use Rattle.md_pattern.specs.Reason.{judged_with, IsSmallest};
ghost use Rattle.md_pattern.specs.Word as word;

use crate::operand::{
    Operand, OperandTexts, dup_in, operand_in, operator_dup_in, operator_in, scratch_in,
};
use crate::reason::{Judged, Reason, both};
use crate::word::{number_of, register_of};
use lisp_read::{Tree, atom, head_words, is_vector, is_word, items, quoted_name, vector};
use name_places::Constants;
use plain_data::{Items, Memory};
use rtx_tree::{Code, HeadMode, Kids, Mode, Name, Parts, Rtx};
use std::alloc::Global;

/// An expression of a description.
#[derive(Drop)]
pub struct Pattern {
    /// The expression. The number of a `match` code is that of its operand, and its name the
    /// predicate.
    pub tree: Rtx,
    /// The constraints of its operands, in the order of the text.
    pub texts: OperandTexts,
}

/// Several expressions of a description.
#[derive(Drop)]
pub struct Patterns {
    /// The expressions, in order.
    pub trees: Kids,
    /// The constraints of their operands, in the order of the text.
    pub texts: OperandTexts,
}

/// No patterns at all.
pub fn no_patterns(alloc: Global) -> Patterns
    ensures { result ≡ spec.no_patterns }
{
    Patterns {
        trees: Items::new(alloc),
        texts: Items::new(alloc),
    }
}

/// The expressions with one more behind them.
fn added(patterns: Patterns, pattern: Pattern) -> Result<Patterns, Memory>
    ensures { IfOk result (λ all. all ≡ steps.added patterns pattern) }
{
    let Patterns { mut trees, texts } = patterns;
    let Pattern { tree, texts: more } = pattern;
    trees.push(tree)?;
    Ok(Patterns {
        trees,
        texts: texts.append(more)?,
    })
}

fn judged_added(
    patterns: Judged<Patterns>,
    pattern: Judged<Pattern>,
) -> Result<Judged<Patterns>, Memory>
    ensures { IfOk result (λ all. all ≡ judged_with steps.added patterns pattern) }
{
    match both(patterns, pattern) {
        Ok((patterns, pattern)) => Ok(Ok(added(patterns, pattern)?)),
        Err(reason) => Ok(Err(reason)),
    }
}

/// A tree that has no operands in it.
fn bare(alloc: Global, tree: Rtx) -> Pattern
    ensures { result ≡ spec.bare tree }
{
    Pattern {
        tree,
        texts: Items::new(alloc),
    }
}

/// Whether an expression of this code has a mode.
fn has_mode(code: Code) -> bool
    ensures { result ≡ spec.has_mode code }
{
    matches!(
        code.class().head_mode(),
        HeadMode::Needed | HeadMode::Optional
    )
}

/// The mode of an expression, where one is written that is a mode.
fn mode_for(code: Code, mode: Option<Mode>) -> Judged<Mode>
    ensures { result ≡ spec.mode_for code mode }
{
    match mode {
        None => Err(Reason::Mode),
        Some(mode) if has_mode(code) => Ok(mode),
        Some(_) => Ok(Mode::Void),
    }
}

/// The one word behind a head.
fn word_in(parts: &[Tree]) -> Option<&Name>
    ensures { option_copied result ≡ spec.word_in parts.now }
{
    match parts {
        [word] => atom(word),
        _ => None,
    }
}

fn register(
    alloc: Global,
    constants: &Constants,
    mode: Judged<Mode>,
    parts: &[Tree],
) -> Judged<Pattern>
    ensures { result ≡ spec.register_by constants.now mode (spec.word_in parts.now) }
{
    let Some(word) = word_in(parts) else {
        return Err(Reason::Parts);
    };
    let register = match register_of(constants, word.bytes()) {
        Some(register) => Ok(register),
        None => Err(Reason::Code),
    };
    match both(mode, register) {
        Ok((mode, register)) => Ok(bare(alloc, Rtx::reg(alloc, mode, register))),
        Err(reason) => Err(reason),
    }
}

fn number_in(constants: &Constants, parts: &[Tree]) -> Judged<i64>
    ensures { result ≡ spec.or_aside reason.Parts (option_and_then (word.number_of constants.now)
        (spec.word_in parts.now)) }
{
    let Some(word) = word_in(parts) else {
        return Err(Reason::Parts);
    };
    match number_of(constants, word.bytes()) {
        Some(number) => Ok(number),
        None => Err(Reason::Parts),
    }
}

fn number(
    alloc: Global,
    constants: &Constants,
    mode: Judged<Mode>,
    parts: &[Tree],
) -> Judged<Pattern>
    ensures { result ≡ spec.number_by mode constants.now parts.now }
{
    match both(mode, number_in(constants, parts)) {
        Ok((_, number)) => Ok(bare(alloc, Rtx::const_int(alloc, number))),
        Err(reason) => Err(reason),
    }
}

fn symbol_in(alloc: Global, parts: &[Tree]) -> Result<Judged<Name>, Memory>
    ensures { IfOk result (λ name. name ≡ spec.or_aside reason.Parts (spec.symbol_in parts.now)) }
{
    match parts {
        [list] => match quoted_name(list) {
            Some(name) => Ok(Ok(Name::of(alloc, name)?)),
            None => Ok(Err(Reason::Parts)),
        },
        _ => Ok(Err(Reason::Parts)),
    }
}

fn symbol(alloc: Global, mode: Judged<Mode>, parts: &[Tree]) -> Result<Judged<Pattern>, Memory>
    ensures { IfOk result (λ pattern. pattern ≡ spec.symbol_by mode parts.now) }
{
    match both(mode, symbol_in(alloc, parts)?) {
        Ok((mode, name)) => Ok(Ok(bare(alloc, Rtx::of_name(alloc, Code::SymbolRef, mode, name)))),
        Err(reason) => Ok(Err(reason)),
    }
}

/// An expression that is made of others.
fn node_of(alloc: Global, code: Code, mode: Judged<Mode>, kids: Judged<Patterns>) -> Judged<Pattern>
    ensures { result ≡ judged_with (spec.node_with code) mode kids }
{
    match both(mode, kids) {
        Ok((mode, kids)) => Ok(Pattern {
            tree: Rtx::of_kids(alloc, code, mode, kids.trees),
            texts: kids.texts,
        }),
        Err(reason) => Err(reason),
    }
}

fn matching_with(
    code: Code,
    operand: Operand,
    mode: Mode,
    kids: Patterns,
) -> Result<Pattern, Memory>
    ensures { IfOk result (λ pattern. pattern ≡ spec.matching_with code operand mode kids) }
{
    let tree = Rtx {
        code,
        mode,
        number: i64::from(operand.number),
        name: operand.predicate,
        kids: kids.trees,
    };
    Ok(Pattern {
        tree,
        texts: operand.texts.append(kids.texts)?,
    })
}

/// An operand, with the expressions in it.
fn matching(
    code: Code,
    mode: Judged<Mode>,
    operand: Option<Operand>,
    kids: Judged<Patterns>,
) -> Result<Judged<Pattern>, Memory>
    ensures { IfOk result (λ pattern. pattern ≡ spec.operand_by code mode operand kids) }
{
    let Some(operand) = operand else {
        return Ok(Err(Reason::Parts));
    };
    match both(mode, kids) {
        Ok((mode, kids)) => Ok(Ok(matching_with(code, operand, mode, kids)?)),
        Err(reason) => Ok(Err(reason)),
    }
}

/// The operand of a `match` code.
fn operand_behind(alloc: Global, kind: Parts, parts: &[Tree]) -> Result<Option<Operand>, Memory>
    ensures { IfOk result (λ operand. operand ≡ steps.operand_behind kind parts.now) }
{
    match kind {
        Parts::Operand => operand_in(alloc, parts),
        Parts::Scratch => scratch_in(alloc, parts),
        Parts::Dup => Ok(dup_in(alloc, parts)),
        Parts::Operator => operator_in(alloc, parts),
        Parts::OperatorDup => Ok(operator_dup_in(alloc, parts)),
        _ => Ok(None),
    }
}

/// What a list begins with.
#[derive(Clone, Copy)]
struct Head {
    code: Code,
    mode: Option<Mode>,
}

/// The head of a list whose code is known.
fn head_of(tree: &Tree) -> Judged<Head>
    ensures { result ≡ steps.head_of tree.now }
{
    let [word, ..] = items(tree) else {
        return Err(Reason::Parts);
    };
    let Some(word) = atom(word) else {
        return Err(Reason::Parts);
    };
    match head_words(word.bytes()) {
        (Some(code), mode) => Ok(Head { code, mode }),
        (None, _) => Err(Reason::Code),
    }
}

/// The trees behind the head of a list.
fn behind_head(tree: &Tree) -> &[Tree]
    ensures { result.now ≡ steps.behind_head tree.now }
{
    match items(tree) {
        [_, parts @ ..] => parts,
        [] => &[],
    }
}

/// The trees of a vector.
fn elements_in(tree: &Tree) -> Option<&[Tree]>
    ensures { option_copied result ≡ steps.elements_in tree.now }
{
    if is_vector(tree) {
        Some(vector(tree))
    } else {
        None
    }
}

/// The expression before the offset 0.
fn lowpart_in(parts: &[Tree]) -> Option<&[Tree]>
    ensures { option_copied result ≡ steps.lowpart_in parts.now }
{
    match parts {
        [_, offset] if is_word(offset, b"0") => Some(&parts[..1]),
        _ => None,
    }
}

/// So many expressions, and no more.
fn counted_in(count: usize, parts: &[Tree]) -> Option<&[Tree]>
    ensures { option_copied result ≡ steps.counted_in count parts.now }
{
    if parts.len() == count {
        Some(parts)
    } else {
        None
    }
}

/// The trees of a vector alone.
fn first_vector(parts: &[Tree]) -> Option<&[Tree]>
    ensures { option_copied result ≡ steps.first_vector parts.now }
{
    match parts {
        [vector] => elements_in(vector),
        _ => None,
    }
}

/// The trees of a vector behind one word.
fn second_vector(parts: &[Tree]) -> Option<&[Tree]>
    ensures { option_copied result ≡ steps.second_vector parts.now }
{
    match parts {
        [_, vector] => elements_in(vector),
        _ => None,
    }
}

/// The trees of a vector behind two words.
fn third_vector(parts: &[Tree]) -> Option<&[Tree]>
    ensures { option_copied result ≡ steps.third_vector parts.now }
{
    match parts {
        [_, _, vector] => elements_in(vector),
        _ => None,
    }
}

/// The trees behind a code that are expressions themselves, where there are as many as there should
/// be.
fn inner(code: Code, parts: &[Tree]) -> Option<&[Tree]>
    ensures { option_copied result ≡ steps.inner (parts_of (class_of_code code)) parts.now }
{
    match code.class().parts() {
        Parts::Lowpart => lowpart_in(parts),
        Parts::Expressions { count } => counted_in(count, parts),
        Parts::Vector => first_vector(parts),
        Parts::Operator => third_vector(parts),
        Parts::OperatorDup => second_vector(parts),
        _ => Some(&[]),
    }
}

/// A register, a number or a symbol.
fn leaf(
    alloc: Global,
    constants: &Constants,
    kind: Parts,
    mode: Judged<Mode>,
    parts: &[Tree],
) -> Result<Judged<Pattern>, Memory>
    ensures { IfOk result (λ pattern. pattern ≡ steps.leaf constants.now mode kind parts.now) }
{
    match kind {
        Parts::Register => Ok(register(alloc, constants, mode, parts)),
        Parts::Number => Ok(number(alloc, constants, mode, parts)),
        _ => symbol(alloc, mode, parts),
    }
}

/// What stands behind a `match` code, with the expressions in it.
fn matched(
    alloc: Global,
    code: Code,
    mode: Judged<Mode>,
    kind: Parts,
    parts: &[Tree],
    kids: Judged<Patterns>,
) -> Result<Judged<Pattern>, Memory>
    ensures { IfOk result (λ pattern.
        pattern ≡ spec.operand_by code mode (steps.operand_behind kind parts.now) kids) }
{
    let operand = operand_behind(alloc, kind, parts)?;
    matching(code, mode, operand, kids)
}

/// What stands behind a code, with the expressions in it.
fn made(
    alloc: Global,
    constants: &Constants,
    head: Head,
    parts: &[Tree],
    kids: Judged<Patterns>,
) -> Result<Judged<Pattern>, Memory>
    ensures { IfOk result (λ pattern. pattern ≡ steps.made constants.now head.code
        (spec.mode_for head.code head.mode) (parts_of (class_of_code head.code)) parts.now kids) }
{
    let Head { code, mode } = head;
    let mode = mode_for(code, mode);
    match code.class().parts() {
        Parts::Lowpart | Parts::Expressions { .. } | Parts::Vector => {
            Ok(node_of(alloc, code, mode, kids))
        }
        kind @ (Parts::Register | Parts::Number | Parts::Symbol) => {
            leaf(alloc, constants, kind, mode, parts)
        }
        kind => matched(alloc, code, mode, kind, parts, kids),
    }
}

/// Each of some trees as an expression.
#[cycle(read)]
#[tactic(auto, using(crate::proofs::Each::joined_first, crate::proofs::Each::each_next, crate::proofs::Each::each_ends))]
fn each(alloc: Global, constants: &Constants, trees: &[Tree]) -> Result<Judged<Patterns>, Memory>
    ensures { IfOk result (λ patterns.
        patterns ≡ spec.each (map (spec.meaning_of constants.now) trees.now)) }
{
    let mut patterns = Ok(no_patterns(alloc));
    for tree in trees {
        let pattern = expression(alloc, constants, tree)?;
        patterns = judged_added(patterns, pattern)?;
    }
    Ok(patterns)
}

#[cycle(read)]
fn expression(alloc: Global, constants: &Constants, tree: &Tree) -> Result<Judged<Pattern>, Memory>
    ensures { IfOk result (λ pattern. pattern ≡ spec.pattern_of constants.now tree.now) }
{
    let head = match head_of(tree) {
        Ok(head) => head,
        Err(reason) => return Ok(Err(reason)),
    };
    let parts = behind_head(tree);
    match inner(head.code, parts) {
        Some(trees) => {
            let kids = each(alloc, constants, trees)?;
            made(alloc, constants, head, parts, kids)
        }
        None => Ok(Err(Reason::Parts)),
    }
}

/// A vector of expressions.
#[tactic(auto, using(crate::proofs::Meanings::vector_out))]
fn elements(alloc: Global, constants: &Constants, tree: &Tree) -> Result<Judged<Patterns>, Memory>
    ensures { IfOk result (λ patterns. patterns ≡ spec.patterns_of constants.now tree.now) }
{
    if is_vector(tree) {
        each(alloc, constants, vector(tree))
    } else {
        Ok(Err(Reason::Parts))
    }
}

/// The pattern that a tree of a description writes, or the smallest reason that applies anywhere in
/// it.
///
/// Each code has the parts that the table gives it, and no more; a tree that is no list with an
/// atom at its head is no expression, and the list in which it stands has wrong parts. The five
/// `match` codes may stand wherever an expression may. A constraint may lack. What stands behind an
/// unknown code isn't looked at. Registers are numbers from 0 to 31 or constants of these; a mode
/// on a code that has none is dropped, and a missing mode is `Void`. Flags are passed over.
///
/// # Errors
///
/// The judgement is `Parts` where a known code has wrong parts, the number of an operand has more
/// than 32 bits, or a `const_int` is no number; `Code` where a code is unknown, or a register is
/// none; `Mode` where a mode is none of the four. `Memory` where memory ran out.
#[tactic(auto, using(crate::proofs::HasReason::of_tree))]
pub fn pattern_of(
    alloc: Global,
    tree: &Tree,
    constants: &Constants,
) -> Result<Judged<Pattern>, Memory>
    ensures pattern { IfOk result (λ pattern. pattern ≡ spec.pattern_of constants.now tree.now) }

    // A tree that is a pattern has no reason, and any other has the smallest of its reasons.
    ensures reasons { IsSmallest (HasReason constants.now tree.now)
        (spec.pattern_of constants.now tree.now) }
{
    expression(alloc, constants, tree)
}

/// The patterns that a vector of a description writes, or the smallest reason that applies anywhere
/// in them. `Parts` where the tree is no vector.
#[tactic(auto, using(crate::proofs::HasReason::of_trees))]
pub fn patterns_of(
    alloc: Global,
    tree: &Tree,
    constants: &Constants,
) -> Result<Judged<Patterns>, Memory>
    ensures patterns { IfOk result (λ patterns.
        patterns ≡ spec.patterns_of constants.now tree.now) }

    // A vector of patterns has no reason, and any other tree has the smallest of its reasons.
    ensures reasons { IsSmallest (VectorHasReason constants.now tree.now)
        (spec.patterns_of constants.now tree.now) }
{
    elements(alloc, constants, tree)
}
