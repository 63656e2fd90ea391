//! Reads an expression of RTL from its tree.
ghost use Rattle.std.specs.Prelude.{◌≡◌, ◌<◌, IfOk, MatchOption, map, drop, length};
ghost use Rattle.std.specs.Option.{option_copied};
ghost use Rattle.rtx_tree.specs.Tree.{HaveTheirParts};
ghost use Rattle.lisp_read.specs.Expression as spec;
ghost use Rattle.lisp_read.specs.Parsed.{Gives, each_parsed};
ghost use Rattle.lisp_read.specs.declared.position.Position.TheVariants as position;
ghost use Rattle.lisp_read.specs.Shape as shape;

use crate::head::{Opening, head_in};
use crate::leaf::{symbol, word};
use crate::position::Position;
use crate::refusal::RtlRefusal;
use crate::shape::{all_nested, atom, is_nested, is_vector, is_word, items, outside, vector};
use crate::tree::Tree;
use plain_data::Items;
use rtx_tree::{Class, Code, Kids, Mode, Rtx};
use std::alloc::Global;

/// The head that a list begins with.
fn head_of(tree: &Tree) -> Option<Opening>
    ensures { result ≡ spec.head_of tree.now }
{
    match items(tree) {
        [head, ..] => head_in(atom(head)?.bytes()),
        _ => None,
    }
}

/// A head with the mode that it has at a position, if it may stand there.
fn placed(position: Position, head: Opening) -> Option<Opening>
    ensures { result ≡ spec.placed position head }
{
    let class = head.code.class();
    if !position.admits(class) {
        return None;
    }
    let mode = position.mode_at(class, head.mode)?;
    Some(Opening {
        code: head.code,
        mode,
    })
}

fn head_at(position: Position, tree: &Tree) -> Option<Opening>
    ensures { result ≡ spec.head_at position tree.now }
{
    placed(position, head_of(tree)?)
}

/// Whether the tree begins as the program counter does.
fn is_counter(tree: &Tree) -> bool
    ensures { result ≡ spec.is_counter tree.now }
{
    match head_of(tree) {
        Some(head) => matches!(head.code.class(), Class::Counter),
        None => false,
    }
}

/// Whether the tree begins as a constant does.
fn is_constant(tree: &Tree) -> bool
    ensures { result ≡ spec.is_constant tree.now }
{
    match head_of(tree) {
        Some(head) => matches!(head.code.class(), Class::Constant),
        None => false,
    }
}

/// Expressions at these positions behind the head, and no more.
fn exactly(positions: &'static [Position], items: &[Tree]) -> Option<&'static [Position]>
    ensures { option_copied result ≡ spec.exactly positions.now items.now }
{
    if items.len() > 0 && items.len() - 1 == positions.len() {
        Some(positions)
    } else {
        None
    }
}

/// Expressions at these positions behind the head, with anything behind them.
fn at_least(positions: &'static [Position], items: &[Tree]) -> Option<&'static [Position]>
    ensures { option_copied result ≡ spec.at_least positions.now items.now }
{
    if items.len() > positions.len() {
        Some(positions)
    } else {
        None
    }
}

/// A register and the offset 0.
fn lowpart_parts(items: &[Tree]) -> Option<&'static [Position]>
    ensures { option_copied result ≡ spec.lowpart_parts items.now }
{
    match items {
        [_, _, offset] if is_word(offset, b"0") => Some(&[Position::Inner]),
        _ => None,
    }
}

/// Two values that are not both constants.
fn comparison_parts(items: &[Tree]) -> Option<&'static [Position]>
    ensures { option_copied result ≡ spec.comparison_parts items.now }
{
    match items {
        [_, a, b] if !(is_constant(a) && is_constant(b)) => {
            Some(&[Position::Value, Position::Value])
        }
        _ => None,
    }
}

/// A place and its source, or the program counter and a place in the code.
fn setting_parts(items: &[Tree]) -> Option<&'static [Position]>
    ensures { option_copied result ≡ spec.setting_parts items.now }
{
    match items {
        [_, target, _] if is_counter(target) => Some(&[Position::Pc, Position::Jump]),
        [_, _, _] => Some(&[Position::Place, Position::Source]),
        _ => None,
    }
}

/// The positions of the expressions behind the head, by the items of the list.
fn positions_of(class: Class, items: &[Tree]) -> Option<&'static [Position]>
    ensures { option_copied result ≡ spec.positions_of class items.now }
{
    match class {
        Class::Memory => at_least(&[Position::Value], items),
        Class::Lowpart => lowpart_parts(items),
        Class::Unary | Class::Extension | Class::Truncation | Class::Use => exactly(
            &[Position::Value],
            items,
        ),
        Class::Binary | Class::Shift => exactly(&[Position::Value, Position::Value], items),
        Class::Comparison => comparison_parts(items),
        Class::Setting => setting_parts(items),
        Class::Clobber => exactly(&[Position::Clobbered], items),
        Class::Call => exactly(&[Position::Callee, Position::Words], items),
        Class::Branch => exactly(&[Position::Test, Position::Target, Position::Pc], items),
        Class::Return | Class::Counter | Class::Scratch => exactly(&[], items),
        _ => None,
    }
}

/// The positions of an expression's parts, which are lists and vectors.
fn parts_of(class: Class, items: &[Tree]) -> Option<&'static [Position]>
    ensures parts { option_copied result ≡ spec.parts_of_class class items.now }
    ensures within { MatchOption (spec.parts_of_class class items.now) (Unit {0}) (λ ps.
        length ps < length items.now) }
{
    let positions = positions_of(class, items)?;
    if all_nested(&items[1..1 + positions.len()]) {
        Some(positions)
    } else {
        None
    }
}

/// The patterns of a `parallel`.
#[cycle(read)]
#[tactic(auto, using(crate::proofs::Each::with_nothing, crate::proofs::Each::each_next, crate::proofs::Each::each_stops, crate::proofs::Each::each_ends))]
fn patterns(alloc: Global, trees: &[Tree]) -> Result<Kids, RtlRefusal>
    ensures { Gives result (each_parsed (spec.read_at position.Pattern) trees.now) }
{
    let mut read = Items::new(alloc);
    for tree in trees {
        read.push(read_at(alloc, Position::Pattern, tree)?)?;
    }
    Ok(read)
}

/// The vector of a `parallel`.
#[cycle(read)]
#[tactic(auto, using(crate::proofs::Meanings::elements_out))]
fn elements(alloc: Global, tree: &Tree) -> Result<Kids, RtlRefusal>
    ensures { Gives result (spec.elements_of tree.now) }
{
    let trees = vector(tree);
    if is_vector(tree) && all_nested(trees) {
        patterns(alloc, trees)
    } else {
        Err(outside(alloc, tree))
    }
}

/// `(parallel [PATTERNS])`.
#[cycle(read)]
fn parallel(alloc: Global, tree: &Tree) -> Result<Rtx, RtlRefusal>
    ensures { Gives result (spec.parallel_by tree.now (shape.items_of tree.now)
        (map spec.meaning_of (shape.items_of tree.now))) }
{
    match items(tree) {
        [_, vector] if is_nested(vector) => {
            let kids = elements(alloc, vector)?;
            Ok(Rtx::of_kids(alloc, Code::Parallel, Mode::Void, kids))
        }
        _ => Err(outside(alloc, tree)),
    }
}

/// The expressions behind the head, each at its position.
#[cycle(read)]
#[tactic(auto, using(crate::proofs::Each::with_nothing, crate::proofs::Parts::part_next, crate::proofs::Parts::part_stops))]
fn each_at(alloc: Global, positions: &[Position], items: &[Tree]) -> Result<Kids, RtlRefusal>
    requires { length positions.now < length items.now }
    ensures { Gives result (spec.each_at positions.now (drop 1 (map spec.meaning_of items.now))) }
{
    let mut read = Items::new(alloc);
    for i in 0..positions.len() {
        read.push(read_at(alloc, positions[i], &items[1 + i])?)?;
    }
    Ok(read)
}

/// An expression that is made of others.
#[cycle(read)]
fn node(alloc: Global, head: Opening, tree: &Tree) -> Result<Rtx, RtlRefusal>
    ensures { Gives result (spec.node_by tree.now head (spec.parts_of_class (spec.class_of head)
        (shape.items_of tree.now)) (map spec.meaning_of (shape.items_of tree.now))) }
{
    let items = items(tree);
    match parts_of(head.code.class(), items) {
        Some(positions) => {
            let kids = each_at(alloc, positions, items)?;
            Ok(Rtx::of_kids(alloc, head.code, head.mode, kids))
        }
        None => Err(outside(alloc, tree)),
    }
}

/// The expression of a list with a head.
#[cycle(read)]
fn list(alloc: Global, position: Position, head: Opening, tree: &Tree) -> Result<Rtx, RtlRefusal>
    ensures { Gives result (spec.list_by (spec.class_of head) position head tree.now
        (map spec.meaning_of (shape.items_of tree.now))) }
{
    let class = head.code.class();
    match class {
        Class::Register | Class::Constant | Class::Label => word(
            alloc, class, position, head.mode, tree,
        ),
        Class::Symbol => symbol(alloc, head.mode, tree),
        Class::Parallel => parallel(alloc, tree),
        _ => node(alloc, head, tree),
    }
}

/// The expression that stands at a position.
#[cycle(read)]
#[tactic(auto, using(crate::proofs::Meanings::read_at_out))]
fn read_at(alloc: Global, position: Position, tree: &Tree) -> Result<Rtx, RtlRefusal>
    ensures { Gives result (spec.read_at position tree.now) }
{
    match head_at(position, tree) {
        Some(head) => list(alloc, position, head, tree),
        None => Err(outside(alloc, tree)),
    }
}

/// Reads one expression of RTL: any but those that stand in descriptions alone. Each part of it has
/// as many kids as the row of its code says.
///
/// Flags such as `/c` are passed over, and so is whatever follows a register's name, a memory's
/// address, a constant's number, a label's uid or a symbol's name in its list, and a label's mode.
/// A `simple_return` is read as a `return`, the memory that a call names in SImode, and a symbol's
/// name without the star in front of it. That modes agree is not asked. It goes as deep as the tree
/// does; a tree that `read_trees` gave has at most 200 lists and vectors within each other.
///
/// # Errors
///
/// `Construct` where a tree in it is outside the language, with the first such tree. `Memory` where
/// memory ran out.
#[tactic(auto, using(crate::proofs::RowParts::read_parts))]
pub fn rtx_of_tree(alloc: Global, tree: &Tree) -> Result<Rtx, RtlRefusal>
    ensures gives { Gives result (spec.rtx_in tree.now) }
    ensures parts { IfOk result HaveTheirParts }
{
    read_at(alloc, Position::Top, tree)
}
