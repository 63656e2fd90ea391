//! The patterns of a shape that are tried.
ghost use Rattle.std.specs.Prelude.{◌≡◌, [], ◌∷◌, ◌++◌, IfOk, OnOk, map};
ghost use Rattle.std.specs.List.{flat_map};
ghost use Rattle.rtx_tree.specs.Patterns.{set_rtx, label_rtx};
ghost use Rattle.rtx_tree.specs.declared.code.Mode.TheVariants as modes;
ghost use Rattle.plain_shape.specs.declared.shape.Source.TheVariants as source;
ghost use Rattle.plain_shape.specs.declared.shape.Shape.TheVariants as shapes;
ghost use Rattle.lint_functions.specs.Operands.{operands_of as operands};
ghost use Rattle.lint_functions.specs.Patterns as spec;

use crate::operand::operands_of;
use plain_data::{Items, Memory};
use plain_shape::{Part, Shape, Source};
use rtx_tree::{Code, Kids, Mode, Rtx};
use std::alloc::Global;

/// The registers that are set, and read first and second.
const SET: u32 = 10;

const FIRST: u32 = 11;

const SECOND: u32 = 12;

/// The uid of the label that is jumped to.
const LABEL: i64 = 8;

static COMPARISONS: [Code; 10] = [
    Code::Eq,
    Code::Ne,
    Code::Lt,
    Code::Le,
    Code::Gt,
    Code::Ge,
    Code::Ltu,
    Code::Leu,
    Code::Gtu,
    Code::Geu,
];

fn comparison_codes() -> &'static [Code]
    ensures { result.now ≡ spec.comparison_codes }
{
    &COMPARISONS
}

// ---- values

fn unary(alloc: Global, code: Code, mode: Mode, x: &Rtx) -> Result<Rtx, Memory>
    ensures { IfOk result (λ tree. tree ≡ spec.unary code mode x.now) }
{
    Rtx::of_one(alloc, code, mode, x.copy(alloc)?)
}

fn binary(alloc: Global, code: Code, mode: Mode, x: &Rtx, y: &Rtx) -> Result<Rtx, Memory>
    ensures { IfOk result (λ tree. tree ≡ spec.binary code mode x.now y.now) }
{
    let first = x.copy(alloc)?;
    Rtx::of_two(alloc, code, mode, first, y.copy(alloc)?)
}

#[tactic(auto, using(lint_choices::proofs::PushedLaws::mapped_next, lint_choices::proofs::PushedLaws::pushed_ends))]
fn unaries(alloc: Global, code: Code, mode: Mode, operands: &[Rtx]) -> Result<Kids, Memory>
    ensures { IfOk result (λ trees. trees ≡ map (spec.unary code mode) operands.now) }
{
    let mut trees = Items::new(alloc);
    for x in operands {
        trees.push(unary(alloc, code, mode, x)?)?;
    }
    Ok(trees)
}

#[tactic(auto, using(lint_choices::proofs::PushedLaws::mapped_next, lint_choices::proofs::PushedLaws::pushed_ends))]
fn push_binaries_of(
    alloc: Global,
    code: Code,
    mode: Mode,
    first: &Rtx,
    seconds: &[Rtx],
    out: &mut Kids,
) -> Result<(), Memory>
    ensures { OnOk result (out.new ≡ out.old ++ map (spec.binary code mode first.now)
        seconds.now) }
{
    for second in seconds {
        out.push(binary(alloc, code, mode, first, second)?)?;
    }
    Ok(())
}

#[tactic(auto, using(lint_choices::proofs::PushedLaws::pushed_next, lint_choices::proofs::PushedLaws::pushed_ends))]
fn push_binaries(
    alloc: Global,
    code: Code,
    mode: Mode,
    firsts: &[Rtx],
    seconds: &[Rtx],
    out: &mut Kids,
) -> Result<(), Memory>
    ensures { OnOk result (out.new ≡ out.old ++ spec.binaries code mode firsts.now
        seconds.now) }
{
    for first in firsts {
        push_binaries_of(alloc, code, mode, first, seconds, out)?;
    }
    Ok(())
}

fn binaries(alloc: Global, code: Code, mode: Mode, a: Part, b: Part) -> Result<Kids, Memory>
    ensures { IfOk result (λ trees. trees ≡ spec.values_of (source.Binary code mode a b)) }
{
    let firsts = operands_of(alloc, a, FIRST)?;
    let seconds = operands_of(alloc, b, SECOND)?;
    let mut trees = Items::new(alloc);
    push_binaries(
        alloc,
        code,
        mode,
        firsts.as_slice(),
        seconds.as_slice(),
        &mut trees,
    )?;
    Ok(trees)
}

/// Appends the comparisons of some with others by each of some codes.
#[tactic(auto, using(lint_choices::proofs::PushedLaws::pushed_next, lint_choices::proofs::PushedLaws::pushed_ends))]
fn push_comparisons(
    alloc: Global,
    codes: &[Code],
    mode: Mode,
    firsts: &[Rtx],
    seconds: &[Rtx],
    out: &mut Kids,
) -> Result<(), Memory>
    ensures { OnOk result (out.new ≡ out.old ++ flat_map (λ code. spec.binaries code mode
        firsts.now seconds.now) codes.now) }
{
    for code in codes {
        push_binaries(alloc, *code, mode, firsts, seconds, out)?;
    }
    Ok(())
}

/// The comparisons, in a mode, of a register in another with what it is compared with.
fn comparisons(alloc: Global, to: Mode, from: Mode) -> Result<Kids, Memory>
    ensures { IfOk result (λ trees. trees ≡ spec.comparisons to from) }
{
    let firsts = operands_of(alloc, Part::Register(from), FIRST)?;
    let seconds = operands_of(alloc, Part::RegisterOrConstant(from), SECOND)?;
    let mut trees = Items::new(alloc);
    push_comparisons(
        alloc,
        comparison_codes(),
        to,
        firsts.as_slice(),
        seconds.as_slice(),
        &mut trees,
    )?;
    Ok(trees)
}

/// The call of a place.
pub(crate) fn call_of(alloc: Global, place: &Rtx) -> Result<Rtx, Memory>
    ensures { IfOk result (λ tree. tree ≡ spec.call_rtx place.now) }
{
    let target = unary(alloc, Code::Mem, Mode::SI, place)?;
    Rtx::of_two(
        alloc,
        Code::Call,
        Mode::Void,
        target,
        Rtx::const_int(alloc, 0),
    )
}

#[tactic(auto, using(lint_choices::proofs::PushedLaws::mapped_next, lint_choices::proofs::PushedLaws::pushed_ends))]
fn calls_of(alloc: Global, places: &[Rtx]) -> Result<Kids, Memory>
    ensures { IfOk result (λ trees. trees ≡ map spec.call_rtx places.now) }
{
    let mut trees = Items::new(alloc);
    for place in places {
        trees.push(call_of(alloc, place)?)?;
    }
    Ok(trees)
}

fn calls(alloc: Global, part: Part) -> Result<Kids, Memory>
    ensures { IfOk result (λ trees. trees ≡ spec.calls part) }
{
    let places = operands_of(alloc, part, FIRST)?;
    calls_of(alloc, places.as_slice())
}

fn values_of(alloc: Global, source: Source) -> Result<Kids, Memory>
    ensures { IfOk result (λ trees. trees ≡ spec.values_of source) }
{
    match source {
        Source::Only(part) => operands_of(alloc, part, FIRST),
        Source::Unary(code, mode, part) => {
            let operands = operands_of(alloc, part, FIRST)?;
            unaries(alloc, code, mode, operands.as_slice())
        }
        Source::Binary(code, mode, first, second) => binaries(alloc, code, mode, first, second),
        Source::Comparison(to, from) => comparisons(alloc, to, from),
        Source::Call(part) => calls(alloc, part),
    }
}

// ---- patterns

fn set_of(alloc: Global, place: &Rtx, value: &Rtx) -> Result<Rtx, Memory>
    ensures { IfOk result (λ tree. tree ≡ set_rtx place.now value.now) }
{
    binary(alloc, Code::Set, Mode::Void, place, value)
}

/// Appends a place set to each of some values.
#[tactic(auto, using(lint_choices::proofs::PushedLaws::mapped_next, lint_choices::proofs::PushedLaws::pushed_ends))]
fn push_values(alloc: Global, place: &Rtx, values: &[Rtx], out: &mut Kids) -> Result<(), Memory>
    ensures { OnOk result (out.new ≡ out.old ++ map (set_rtx place.now) values.now) }
{
    for value in values {
        out.push(set_of(alloc, place, value)?)?;
    }
    Ok(())
}

/// Appends each of some places set to a value.
#[tactic(auto, using(lint_choices::proofs::PushedLaws::mapped_next, lint_choices::proofs::PushedLaws::pushed_ends))]
fn push_places(alloc: Global, places: &[Rtx], value: &Rtx, out: &mut Kids) -> Result<(), Memory>
    ensures { OnOk result (out.new ≡ out.old ++ map (spec.set_to value.now) places.now) }
{
    for place in places {
        out.push(set_of(alloc, place, value)?)?;
    }
    Ok(())
}

/// A place set to each value, and each other place to the first value.
#[tactic(auto, using(lint_choices::proofs::PushedLaws::pushed_both))]
fn sets_of(alloc: Global, place: &Rtx, others: &[Rtx], values: &[Rtx]) -> Result<Kids, Memory>
    ensures { IfOk result (λ trees. trees ≡ spec.sets_of place.now others.now values.now) }
{
    let mut trees = Items::new(alloc);
    if let [value, ..] = values {
        push_values(alloc, place, values, &mut trees)?;
        push_places(alloc, others, value, &mut trees)?;
    }
    Ok(trees)
}

/// The first place set to each value, and each other place to the first value.
fn sets(alloc: Global, places: &[Rtx], values: &[Rtx]) -> Result<Kids, Memory>
    ensures { IfOk result (λ trees. trees ≡ spec.sets places.now values.now) }
{
    match places {
        [] => Ok(Items::new(alloc)),
        [place, others @ ..] => sets_of(alloc, place, others, values),
    }
}

fn pc(alloc: Global) -> Rtx
    ensures { result ≡ spec.pc_rtx }
{
    Rtx::leaf(alloc, Code::Pc, Mode::Void, 0)
}

fn label(alloc: Global) -> Result<Rtx, Memory>
    ensures { IfOk result (λ tree. tree ≡ label_rtx 8) }
{
    Rtx::of_one(
        alloc,
        Code::LabelRef,
        Mode::Void,
        Rtx::const_int(alloc, LABEL),
    )
}

/// A setting of the program counter.
fn jump_to(alloc: Global, place: Rtx) -> Result<Rtx, Memory>
    ensures { IfOk result (λ tree. tree ≡ set_rtx spec.pc_rtx place) }
{
    Rtx::of_two(alloc, Code::Set, Mode::Void, pc(alloc), place)
}

fn branch(alloc: Global, test: &Rtx) -> Result<Rtx, Memory>
    ensures { IfOk result (λ tree. tree ≡ spec.branch_rtx test.now) }
{
    let choice = Rtx::of_three(
        alloc,
        Code::IfThenElse,
        Mode::Void,
        test.copy(alloc)?,
        label(alloc)?,
        pc(alloc),
    )?;
    jump_to(alloc, choice)
}

#[tactic(auto, using(lint_choices::proofs::PushedLaws::mapped_next, lint_choices::proofs::PushedLaws::pushed_ends))]
fn branches_of(alloc: Global, tests: &[Rtx]) -> Result<Kids, Memory>
    ensures { IfOk result (λ trees. trees ≡ map spec.branch_rtx tests.now) }
{
    let mut trees = Items::new(alloc);
    for test in tests {
        trees.push(branch(alloc, test)?)?;
    }
    Ok(trees)
}

/// One pattern.
fn alone(alloc: Global, pattern: Rtx) -> Result<Kids, Memory>
    ensures { IfOk result (λ trees. trees ≡ pattern ∷ []) }
{
    let mut trees = Items::new(alloc);
    trees.push(pattern)?;
    Ok(trees)
}

/// The patterns of a part that is set to a source.
fn settings(alloc: Global, target: Part, source: Source) -> Result<Kids, Memory>
    ensures { IfOk result (λ trees. trees ≡ spec.patterns_of (shapes.Set target source)) }
{
    let places = operands_of(alloc, target, SET)?;
    let values = values_of(alloc, source)?;
    sets(alloc, places.as_slice(), values.as_slice())
}

fn branches(alloc: Global, mode: Mode) -> Result<Kids, Memory>
    ensures { IfOk result (λ trees. trees ≡ spec.patterns_of (shapes.Branch mode)) }
{
    let tests = comparisons(alloc, Mode::Void, mode)?;
    branches_of(alloc, tests.as_slice())
}

/// The effect of a code on each operand of a part.
fn effects(alloc: Global, code: Code, part: Part) -> Result<Kids, Memory>
    ensures { IfOk result (λ trees. trees ≡ map (spec.unary code modes.Void)
        (operands part 10)) }
{
    let operands = operands_of(alloc, part, SET)?;
    unaries(alloc, code, Mode::Void, operands.as_slice())
}

/// The patterns of a shape that are tried.
pub fn patterns_of(alloc: Global, shape: Shape) -> Result<Kids, Memory>
    ensures { IfOk result (λ trees. trees ≡ spec.patterns_of shape) }
{
    match shape {
        Shape::Set(target, source) => settings(alloc, target, source),
        Shape::Jump => alone(alloc, jump_to(alloc, label(alloc)?)?),
        Shape::Branch(mode) => branches(alloc, mode),
        Shape::Return => alone(alloc, Rtx::leaf(alloc, Code::Return, Mode::Void, 0)),
        Shape::Call(part) => calls(alloc, part),
        Shape::Use(part) => effects(alloc, Code::Use, part),
        Shape::Clobber(part) => effects(alloc, Code::Clobber, part),
    }
}
