//! Which instructions have a shape of the plain profile.
ghost use Rattle.std.specs.Prelude.{◌≡◌};
ghost use Rattle.rtl_chain.specs.Counts as counts;
ghost use Rattle.plain_shape.specs.declared.shape.Shape.TheVariants as shapes;
ghost use Rattle.plain_shape.specs.Plain as spec;

use crate::parts::{is_call, is_choice, is_label, is_one, is_part, is_source};
use crate::shape::{Part, Shape, Source};
use crate::table::all_shapes;
use rtx_tree::{Code, Function, Insn, Kind, Mode, Rtx};

fn is_set(target: Part, source: Source, x: &Rtx) -> bool
    ensures { result ≡ spec.has_shape (shapes.Set target source) x.now }
{
    match (x.code, x.kids.as_slice()) {
        (Code::Set, [place, value]) => is_part(target, place) && is_source(source, value),
        _ => false,
    }
}

fn is_jump(x: &Rtx) -> bool
    ensures { result ≡ spec.has_shape shapes.Jump x.now }
{
    match (x.code, x.kids.as_slice()) {
        (Code::Set, [place, value]) => place.is_pc() && is_label(value),
        _ => false,
    }
}

fn is_branch(mode: Mode, x: &Rtx) -> bool
    ensures { result ≡ spec.has_shape (shapes.Branch mode) x.now }
{
    match (x.code, x.kids.as_slice()) {
        (Code::Set, [place, value]) => place.is_pc() && is_choice(mode, value),
        _ => false,
    }
}

fn is_return(x: &Rtx) -> bool
    ensures { result ≡ spec.has_shape shapes.Return x.now }
{
    matches!(x.code, Code::Return) && x.kids.is_empty()
}

fn is_use(part: Part, x: &Rtx) -> bool
    ensures { result ≡ spec.has_shape (shapes.Use part) x.now }
{
    matches!(x.code, Code::Use) && is_one(part, x.kids.as_slice())
}

fn is_clobber(part: Part, x: &Rtx) -> bool
    ensures { result ≡ spec.has_shape (shapes.Clobber part) x.now }
{
    matches!(x.code, Code::Clobber) && is_one(part, x.kids.as_slice())
}

/// Whether a pattern has a shape.
pub fn has_shape(shape: Shape, x: &Rtx) -> bool
    ensures { result ≡ spec.has_shape shape x.now }
{
    match shape {
        Shape::Set(target, source) => is_set(target, source, x),
        Shape::Jump => is_jump(x),
        Shape::Branch(mode) => is_branch(mode, x),
        Shape::Return => is_return(x),
        Shape::Call(part) => is_call(part, x),
        Shape::Use(part) => is_use(part, x),
        Shape::Clobber(part) => is_clobber(part, x),
    }
}

/// Whether one of the shapes is the pattern's.
pub fn is_plain(x: &Rtx) -> bool
    ensures { result ≡ spec.is_plain x.now }
{
    all_shapes().iter().any(|shape| has_shape(*shape, x))
}

fn is_instruction(insn: &Insn) -> bool
    ensures { result ≡ counts.is_instruction insn.now }
{
    matches!(insn.kind, Kind::Plain | Kind::Jump | Kind::Call)
}

fn is_outside(insn: &Insn) -> bool
    ensures { result ≡ spec.is_outside insn.now }
{
    is_instruction(insn) && !is_plain(&insn.pattern)
}

/// The uid of the first instruction of a function, in the order of the chain, that has no shape of
/// the plain profile; `None` exactly where there is none. It takes no memory.
pub fn first_outside(f: &Function) -> Option<u32>
    ensures { result ≡ spec.first_outside f.now }
{
    for insn in f.insns.as_slice() {
        if is_outside(insn) {
            return Some(insn.uid);
        }
    }
    None
}
