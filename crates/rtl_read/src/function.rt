//! Functions by their trees.
ghost use Rattle.std.specs.Prelude.{◌≡◌, count_by};
ghost use Rattle.std.specs.Option.{option_copied};
ghost use Rattle.lisp_read.specs.Parsed.{Gives, stands};
ghost use Rattle.lisp_read.specs.Shape as shape;
ghost use Rattle.rtl_read.specs.machine.Adding.{AddsSaid};
ghost use Rattle.rtl_read.specs.Function as spec;
ghost use Rattle.rtl_read.specs.Syntax as syntax;
ghost use Rattle.rtl_read.specs.Word.{is_headed};

use crate::chain::add_chain;
use crate::locals::locals_in;
use crate::parts::{Returned, Said};
use crate::pattern::expression;
use crate::word::{is_alone, is_headed, number_of};
use lisp_read::{RtlRefusal, Tree, all_nested, is_nested, is_word, items, outside, string};
use plain_data::Items;
use rtx_tree::{Code, Function, Functions, Name, Rtx};
use std::alloc::Global;
use text_words::is_symbol;

/// The number of the register that holds a result, `a0`.
const RESULT_REG: u32 = 10;

// ---- the size of the locals, and the result

/// `(locals N)`.
fn locals(alloc: Global, tree: &Tree) -> Result<u32, RtlRefusal>
    ensures { Gives result (spec.locals_of tree.now) }
{
    if let [head, number] = items(tree) {
        if is_word(head, b"locals") {
            if let Some(locals) = number_of(number) {
                return Ok(locals);
            }
        }
    }
    Err(outside(alloc, tree))
}

fn returned(x: &Rtx) -> Option<Returned>
    ensures { result ≡ spec.returned_of x.now }
{
    if matches!(x.code, Code::Reg) && 0 <= x.number && x.number < 4_294_967_296 {
        Some(Returned {
            mode: x.mode,
            reg: x.number as u32,
        })
    } else {
        None
    }
}

/// `(nil)`, or the register of a result.
fn result(alloc: Global, tree: &Tree) -> Result<Option<Returned>, RtlRefusal>
    ensures { Gives result (spec.result_of tree.now) }
{
    if is_alone(tree, b"nil") {
        return Ok(None);
    }
    if let Some(x) = expression(alloc, tree)? {
        if let Some(register) = returned(&x) {
            return Ok(Some(register));
        }
    }
    Err(outside(alloc, tree))
}

/// The one list or vector behind a word.
fn sole_part<'a>(tree: &'a Tree, word: &[u8]) -> Option<&'a Tree>
    ensures { option_copied result ≡ spec.sole_part word.now (shape.items_of tree.now) }
{
    match items(tree) {
        [head, part] if is_word(head, word) && is_nested(part) => Some(part),
        _ => None,
    }
}

/// `(return_rtx RESULT)`.
fn return_rtx(alloc: Global, tree: &Tree) -> Result<Option<Returned>, RtlRefusal>
    ensures { Gives result (spec.return_of tree.now) }
{
    match sole_part(tree, b"return_rtx") {
        Some(part) => result(alloc, part),
        None => Err(outside(alloc, tree)),
    }
}

/// `(crtl)`, or `(crtl (return_rtx RESULT))`.
fn crtl(alloc: Global, tree: &Tree) -> Result<Option<Returned>, RtlRefusal>
    ensures { Gives result (spec.crtl_of tree.now) }
{
    if is_alone(tree, b"crtl") {
        return Ok(None);
    }
    match sole_part(tree, b"crtl") {
        Some(part) => return_rtx(alloc, part),
        None => Err(outside(alloc, tree)),
    }
}

// ---- the items

/// Puts what an item says of its function behind what others said.
fn add_item(alloc: Global, tree: &Tree, said: &mut Said) -> Result<(), RtlRefusal>
    ensures { AddsSaid result said.old said.new (spec.said_by tree.now) }
{
    if matches!(tree, Tree::Vector { .. }) {
        return Err(outside(alloc, tree));
    }
    if is_headed(tree, b"insn-chain") {
        add_chain(alloc, tree, &mut said.insns)?;
    } else if is_headed(tree, b"locals") {
        said.locals = Some(locals(alloc, tree)?);
    } else if is_headed(tree, b"crtl") {
        if let Some(register) = crtl(alloc, tree)? {
            said.result = Some(register);
        }
    }
    Ok(())
}

#[tactic(auto, using(crate::proofs::SaidLaws::said_ends, crate::proofs::SaidLaws::said_next, crate::proofs::SaidLaws::said_stops, crate::proofs::SaidLaws::said_nothing))]
fn all_said(alloc: Global, trees: &[Tree]) -> Result<Said, RtlRefusal>
    ensures { Gives result (spec.all_said trees.now) }
{
    let mut said = Said {
        insns: Items::new(alloc),
        locals: None,
        result: None,
    };
    for tree in trees {
        add_item(alloc, tree, &mut said)?;
    }
    Ok(said)
}

// ---- the function

/// How many lists begin with a word.
fn count_headed(trees: &[Tree], word: &[u8]) -> usize
    ensures { result ≡ count_by (is_headed word.now) trees.now }
{
    let mut count = 0;
    for tree in trees {
        if is_headed(tree, word) {
            count += 1;
        }
    }
    count
}

/// Whether there is one chain, and no more than one size of the locals and one result.
fn are_items(trees: &[Tree]) -> bool
    ensures { result ≡ spec.are_items trees.now }
{
    count_headed(trees, b"insn-chain") == 1
        && count_headed(trees, b"locals") <= 1
        && count_headed(trees, b"crtl") <= 1
}

/// The name that a string gives a function.
fn function_name(tree: &Tree) -> Option<&Name>
    ensures { option_copied result ≡ spec.named_by (shape.string_of tree.now) }
{
    let name = string(tree)?;
    if is_symbol(name.bytes()) {
        Some(name)
    } else {
        None
    }
}

/// The function of a name and of what its items say.
fn function_from(alloc: Global, name: &Name, said: Said) -> Result<Function, RtlRefusal>
    ensures { Gives result (stands (spec.function_from name.now said)) }
{
    let locals = match said.locals {
        Some(locals) => locals,
        None => locals_in(said.insns.as_slice()),
    };
    let (mode, reg) = match said.result {
        Some(register) => (Some(register.mode), register.reg),
        None => (None, RESULT_REG),
    };
    Ok(Function {
        name: name.copy(alloc)?,
        insns: said.insns,
        locals,
        result: mode,
        result_reg: reg,
    })
}

fn function_of_items(alloc: Global, name: &Name, trees: &[Tree]) -> Result<Function, RtlRefusal>
    ensures { Gives result (spec.function_of_items name.now trees.now) }
{
    let said = all_said(alloc, trees)?;
    function_from(alloc, name, said)
}

/// `(function "NAME" ITEMS)`.
fn function(alloc: Global, tree: &Tree) -> Result<Function, RtlRefusal>
    ensures { Gives result (spec.function_of tree.now) }
{
    match items(tree) {
        [head, name, rest @ ..]
            if is_word(head, b"function") && all_nested(rest) && are_items(rest) => {
            match function_name(name) {
                Some(name) => function_of_items(alloc, name, rest),
                None => Err(outside(alloc, tree)),
            }
        }
        _ => Err(outside(alloc, tree)),
    }
}

/// Reads the functions that the trees of a text stand for, in order.
///
/// A function is `(function "NAME" ITEMS)`, with one `(insn-chain ..)`, at most one `(locals N)`
/// and at most one `(crtl ..)` among its items; lists with other heads are passed over. Where the
/// size of the locals is not told, it is the greatest d such that -d is added to
/// `virtual-stack-vars`. A function without a result has the register a0 for it.
///
/// # Errors
///
/// `Construct` where a tree is outside the language, with the first such tree. `Memory` where
/// memory ran out.
#[tactic(auto, using(crate::proofs::Each::with_nothing, crate::proofs::Each::each_next, crate::proofs::Each::each_stops, crate::proofs::Each::each_ends))]
pub fn functions_of(alloc: Global, trees: &[Tree]) -> Result<Functions, RtlRefusal>
    ensures { Gives result (syntax.functions_in trees.now) }
{
    let mut read = Items::new(alloc);
    for tree in trees {
        read.push(function(alloc, tree)?)?;
    }
    Ok(read)
}
