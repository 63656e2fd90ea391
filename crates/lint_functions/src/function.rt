//! A function with an instruction of a shape.
ghost use Rattle.std.specs.Prelude.{◌≡◌, [], ◌∷◌, ◌++◌, IfOk, OnOk};
ghost use Rattle.rtx_tree.specs.Patterns.{nothing_rtx};
ghost use Rattle.lint_functions.specs.Functions as spec;

use plain_data::{Items, Memory};
use plain_shape::{Part, Shape, Source};
use rtx_tree::{ArgUse, ArgUses, Code, Function, Insn, Insns, Kind, Mode, Name, Rtx};
use std::alloc::Global;

/// The uid of the label that is jumped to.
const LABEL: u32 = 8;

/// The bytes of a large frame's locals.
pub(crate) const FAR_BYTES: u32 = 40_000;

/// The register of the result and of the first argument.
pub(crate) const A0: u32 = 10;

fn nothing(alloc: Global) -> Rtx
    ensures { result ≡ nothing_rtx }
{
    Rtx::of_kids(alloc, Code::Parallel, Mode::Void, Items::new(alloc))
}

/// A plain instruction.
pub(crate) fn plain(alloc: Global, uid: u32, pattern: Rtx) -> Insn
    ensures { result ≡ spec.plain uid pattern }
{
    Insn {
        uid,
        kind: Kind::Plain,
        pattern,
        uses: Items::new(alloc),
    }
}

fn label(alloc: Global) -> Insn
    ensures { result ≡ spec.label }
{
    Insn {
        uid: LABEL,
        kind: Kind::Label,
        pattern: nothing(alloc),
        uses: Items::new(alloc),
    }
}

fn barrier(alloc: Global) -> Insn
    ensures { result ≡ spec.barrier }
{
    Insn {
        uid: 0,
        kind: Kind::Barrier,
        pattern: nothing(alloc),
        uses: Items::new(alloc),
    }
}

/// A function of some instructions, with so many bytes of locals.
pub(crate) fn tried(alloc: Global, locals: u32, insns: Insns) -> Result<Function, Memory>
    ensures { IfOk result (λ f. f ≡ spec.tried locals insns) }
{
    Ok(Function {
        name: Name::of(alloc, b"tried")?,
        insns,
        locals,
        result: Some(Mode::DI),
        result_reg: A0,
    })
}

/// What a call's target reads.
pub(crate) fn arguments(alloc: Global) -> Result<ArgUses, Memory>
    ensures { IfOk result (λ uses. uses ≡ spec.argument ∷ []) }
{
    let argument = ArgUse {
        reg: 10,
        mode: Mode::DI,
    };
    Items::from_slice(alloc, &[argument])
}

fn source_kind(source: Source) -> Kind
    ensures { result ≡ spec.source_kind source }
{
    match source {
        Source::Call(_) => Kind::Call,
        _ => Kind::Plain,
    }
}

fn kind_of(shape: Shape) -> Kind
    ensures { result ≡ spec.kind_of shape }
{
    match shape {
        Shape::Set(_, source) => source_kind(source),
        Shape::Call(_) => Kind::Call,
        Shape::Jump | Shape::Branch(_) | Shape::Return => Kind::Jump,
        Shape::Use(_) | Shape::Clobber(_) => Kind::Plain,
    }
}

fn uses_of(alloc: Global, kind: Kind) -> Result<ArgUses, Memory>
    ensures { IfOk result (λ uses. uses ≡ spec.uses_of kind) }
{
    match kind {
        Kind::Call => arguments(alloc),
        Kind::Plain | Kind::Jump | Kind::Label | Kind::Barrier => Ok(Items::new(alloc)),
    }
}

fn insn_of(alloc: Global, shape: Shape, pattern: &Rtx) -> Result<Insn, Memory>
    ensures { IfOk result (λ insn. insn ≡ spec.insn_of shape pattern.now) }
{
    let kind = kind_of(shape);
    let uses = uses_of(alloc, kind)?;
    Ok(Insn {
        uid: 2,
        kind,
        pattern: pattern.copy(alloc)?,
        uses,
    })
}

/// A set of a register that a branch passes.
fn passed(alloc: Global) -> Result<Insn, Memory>
    ensures { IfOk result (λ insn. insn ≡ spec.passed) }
{
    let place = Rtx::reg(alloc, Mode::DI, A0);
    let value = Rtx::reg(alloc, Mode::DI, 11);
    let pattern = Rtx::of_two(alloc, Code::Set, Mode::Void, place, value)?;
    Ok(plain(alloc, 6, pattern))
}

/// Appends what stands behind an instruction of a shape.
#[tactic(auto, using(lint_choices::proofs::PushedLaws::nothing_pushed))]
fn push_behind(alloc: Global, shape: Shape, out: &mut Insns) -> Result<(), Memory>
    ensures { OnOk result (out.new ≡ out.old ++ spec.behind shape) }
{
    match shape {
        Shape::Jump => {
            out.push(barrier(alloc))?;
            out.push(label(alloc))
        }
        Shape::Branch(_) => {
            out.push(passed(alloc)?)?;
            out.push(label(alloc))
        }
        Shape::Return => out.push(barrier(alloc)),
        Shape::Set(..) | Shape::Call(_) | Shape::Use(_) | Shape::Clobber(_) => Ok(()),
    }
}

fn source_locals(source: Source) -> u32
    ensures { result ≡ spec.source_locals source }
{
    match source {
        Source::Only(Part::Frame) => FAR_BYTES,
        _ => 0,
    }
}

fn locals_of(shape: Shape) -> u32
    ensures { result ≡ spec.locals_of shape }
{
    match shape {
        Shape::Set(_, source) => source_locals(source),
        _ => 0,
    }
}

/// A function with an instruction of a shape, which has this pattern.
pub fn function_of(alloc: Global, shape: Shape, pattern: &Rtx) -> Result<Function, Memory>
    ensures { IfOk result (λ f. f ≡ spec.function_of shape pattern.now) }
{
    let mut insns = Items::new(alloc);
    insns.push(insn_of(alloc, shape, pattern)?)?;
    push_behind(alloc, shape, &mut insns)?;
    tried(alloc, locals_of(shape), insns)
}
