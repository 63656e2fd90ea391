//! Calls: what a call does, and the registers that its target reads.
ghost use Rattle.std.specs.Prelude.{◌≡◌, filter};
ghost use Rattle.std.specs.Option.{option_copied};
ghost use Rattle.lisp_read.specs.declared.position.Position.TheVariants.{Pattern};
ghost use Rattle.lisp_read.specs.Expression.{read_at};
ghost use Rattle.lisp_read.specs.Parsed.{Gives, each_parsed};
ghost use Rattle.lisp_read.specs.Shape as shape;
ghost use Rattle.rtl_read.specs.machine.Adding.{Adds};
ghost use Rattle.rtl_read.specs.Call as spec;

use crate::head::{head_of_list, head_word, is_parallel_head, named_code};
use crate::pattern::{expression, pattern};
use crate::word::is_alone;
use lisp_read::{RtlRefusal, Tree, all_nested, atom, is_nested, items, outside};
use plain_data::Items;
use rtx_tree::{ArgUse, ArgUses, Code, Kids, Mode, Name, Rtx};
use std::alloc::Global;

// ---- what a call does

/// Whether the tree begins as a `parallel` does.
#[tactic(auto, using(crate::proofs::Parallels::parallel_out))]
fn is_parallel(tree: &Tree) -> bool
    ensures { result ≡ spec.is_parallel tree.now }
{
    match head_of_list(tree) {
        Some(text) => is_parallel_head(text.bytes()),
        None => false,
    }
}

/// The vector of a call's `parallel`, if it is a vector of lists and vectors.
fn effects(tree: &Tree) -> Option<&[Tree]>
    ensures { option_copied result ≡ spec.effects_of tree.now }
{
    match items(tree) {
        [_, Tree::Vector { items, .. }] if is_parallel(tree) && all_nested(items.as_slice()) => {
            Some(items.as_slice())
        }
        _ => None,
    }
}

/// Whether the tree is a `use` or a `clobber`.
fn is_dropped(tree: &Tree) -> bool
    ensures { result ≡ spec.is_dropped tree.now }
{
    matches!(named_code(tree), Some(Code::Use | Code::Clobber))
}

/// What the effects are, but for those that are dropped.
#[tactic(auto, using(crate::proofs::Kept::kept_ends, crate::proofs::Kept::kept_next, crate::proofs::Kept::kept_drops, crate::proofs::Kept::kept_stops))]
fn kept(alloc: Global, trees: &[Tree]) -> Result<Kids, RtlRefusal>
    ensures { Gives result (each_parsed (read_at Pattern) (filter spec.is_kept trees.now)) }
{
    let mut read = Items::new(alloc);
    for tree in trees {
        if !is_dropped(tree) {
            read.push(pattern(alloc, tree)?)?;
        }
    }
    Ok(read)
}

/// Some effects at once; one alone stands for itself.
fn together(alloc: Global, mut kids: Kids) -> Rtx
    ensures { result ≡ spec.together kids }
{
    if kids.len() == 1 {
        if let Some(kid) = kids.pop() {
            return kid;
        }
    }
    Rtx::of_kids(alloc, Code::Parallel, Mode::Void, kids)
}

/// What a call does: `use` and `clobber` in its `parallel` are dropped.
pub fn call(alloc: Global, tree: &Tree) -> Result<Rtx, RtlRefusal>
    ensures { Gives result (spec.call_of tree.now) }
{
    match effects(tree) {
        Some(trees) => {
            let kids = kept(alloc, trees)?;
            Ok(together(alloc, kids))
        }
        None => pattern(alloc, tree),
    }
}

// ---- what its target reads

/// `(use (reg:MODE R))`, R being a hard register.
fn use_in(x: &Rtx) -> Option<ArgUse>
    ensures { result ≡ spec.use_in x.now }
{
    match (x.code, x.kids.as_slice()) {
        (Code::Use, [kid]) => register_use(kid),
        _ => None,
    }
}

fn register_use(x: &Rtx) -> Option<ArgUse>
    ensures { result ≡ spec.use_of_register x.now }
{
    if matches!(x.code, Code::Reg) && 0 <= x.number && x.number < 32 {
        Some(ArgUse {
            reg: x.number as u8,
            mode: x.mode,
        })
    } else {
        None
    }
}

fn arg_use(alloc: Global, tree: &Tree) -> Result<ArgUse, RtlRefusal>
    ensures { Gives result (spec.use_of tree.now) }
{
    if let Some(x) = expression(alloc, tree)? {
        if let Some(arg) = use_in(&x) {
            return Ok(arg);
        }
    }
    Err(outside(alloc, tree))
}

fn is_link_text(text: Option<&Name>) -> bool
    ensures { result ≡ spec.is_link_head (option_copied text.entry) }
{
    match text {
        Some(text) => head_word(text.bytes()) == b"expr_list".as_slice(),
        None => false,
    }
}

/// Whether the tree is a list with the head `expr_list`.
fn is_link(tree: &Tree) -> bool
    ensures { result ≡ spec.is_link (shape.items_of tree.now) }
{
    is_link_text(head_of_list(tree))
}

/// Whether the tree is `(expr_list USE CHAIN)`.
fn is_whole_link(tree: &Tree) -> bool
    ensures { result ≡ spec.is_whole_link (shape.items_of tree.now) }
{
    match items(tree) {
        [head, element, rest] => is_link_text(atom(head)) && is_nested(element) && is_nested(rest),
        _ => false,
    }
}

/// Puts the uses of a chain, `(nil)` or `(expr_list USE CHAIN)`, behind others.
#[tactic(auto, using(crate::proofs::Uses::uses_out, crate::proofs::Uses::uses_ends, crate::proofs::Uses::uses_outside))]
fn add_uses(alloc: Global, tree: &Tree, uses: &mut ArgUses) -> Result<(), RtlRefusal>
    ensures { Adds result uses.old uses.new (spec.uses_in tree.now) }
{
    if !is_whole_link(tree) {
        if is_alone(tree, b"nil") {
            return Ok(());
        }
        return Err(outside(alloc, tree));
    }
    if let [_, element, rest] = items(tree) {
        uses.push(arg_use(alloc, element)?)?;
        return add_uses(alloc, rest, uses);
    }
    Ok(())
}

/// The uses of a chain.
fn chain(alloc: Global, tree: &Tree) -> Result<ArgUses, RtlRefusal>
    ensures { Gives result (spec.uses_in tree.now) }
{
    let mut uses = Items::new(alloc);
    add_uses(alloc, tree, &mut uses)?;
    Ok(uses)
}

/// The uses that the last of some trees tells, if it is a chain.
pub fn uses(alloc: Global, trees: &[Tree]) -> Result<ArgUses, RtlRefusal>
    ensures { Gives result (spec.uses_of trees.now) }
{
    match trees.last() {
        Some(last) if is_link(last) => chain(alloc, last),
        _ => Ok(Items::new(alloc)),
    }
}
