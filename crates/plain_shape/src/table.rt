//! The 81 shapes of the plain profile.
ghost use Rattle.std.specs.Prelude.{◌≡◌, length};
ghost use Rattle.plain_shape.specs.Shapes as spec;

use crate::shape::Part::{
    AnyRegister, Constant, Count, Frame, Memory, Register, RegisterOrConstant, RegisterOrMemory,
    Symbol,
};
use crate::shape::Shape::{Branch, Call, Clobber, Jump, Return, Set, Use};
use crate::shape::{Shape, Source};
use rtx_tree::Code::{
    And, Ashift, Ashiftrt, Div, Ior, Lshiftrt, Minus, Mod, Mult, Neg, Not, Plus, SignExtend,
    Truncate, Udiv, Umod, Xor, ZeroExtend,
};
use rtx_tree::Mode::{DI, HI, QI, SI};

macro_rules! only {
    ($target:expr, $part:expr) => {
        Set($target, Source::Only($part))
    };
}

macro_rules! unary {
    ($code:expr, $mode:expr, $operand:expr) => {
        Set(Register($mode), Source::Unary($code, $mode, $operand))
    };
}

macro_rules! binary {
    ($code:expr, $mode:expr, $second:expr) => {
        Set(
            Register($mode),
            Source::Binary($code, $mode, Register($mode), $second),
        )
    };
}

macro_rules! comparison {
    ($to:expr, $from:expr) => {
        Set(Register($to), Source::Comparison($to, $from))
    };
}

/// The shapes, each once.
static SHAPES: [Shape; 81] = [
    // moves: a register set to a register, a constant or memory, memory set to a register or a
    // constant
    only!(Register(QI), Register(QI)),
    only!(Register(QI), Constant(QI)),
    only!(Register(QI), Memory(QI)),
    only!(Memory(QI), Register(QI)),
    only!(Memory(QI), Constant(QI)),
    only!(Register(HI), Register(HI)),
    only!(Register(HI), Constant(HI)),
    only!(Register(HI), Memory(HI)),
    only!(Memory(HI), Register(HI)),
    only!(Memory(HI), Constant(HI)),
    only!(Register(SI), Register(SI)),
    only!(Register(SI), Constant(SI)),
    only!(Register(SI), Memory(SI)),
    only!(Memory(SI), Register(SI)),
    only!(Memory(SI), Constant(SI)),
    only!(Register(DI), Register(DI)),
    only!(Register(DI), Constant(DI)),
    only!(Register(DI), Memory(DI)),
    only!(Memory(DI), Register(DI)),
    only!(Memory(DI), Constant(DI)),
    only!(Register(DI), Symbol),
    only!(Register(DI), Frame),
    // operations on two operands
    binary!(Plus, SI, RegisterOrConstant(SI)),
    binary!(Minus, SI, RegisterOrConstant(SI)),
    binary!(Mult, SI, RegisterOrConstant(SI)),
    binary!(Div, SI, RegisterOrConstant(SI)),
    binary!(Udiv, SI, RegisterOrConstant(SI)),
    binary!(Mod, SI, RegisterOrConstant(SI)),
    binary!(Umod, SI, RegisterOrConstant(SI)),
    binary!(And, SI, RegisterOrConstant(SI)),
    binary!(Ior, SI, RegisterOrConstant(SI)),
    binary!(Xor, SI, RegisterOrConstant(SI)),
    binary!(Ashift, SI, Count(SI)),
    binary!(Ashiftrt, SI, Count(SI)),
    binary!(Lshiftrt, SI, Count(SI)),
    binary!(Plus, DI, RegisterOrConstant(DI)),
    binary!(Minus, DI, RegisterOrConstant(DI)),
    binary!(Mult, DI, RegisterOrConstant(DI)),
    binary!(Div, DI, RegisterOrConstant(DI)),
    binary!(Udiv, DI, RegisterOrConstant(DI)),
    binary!(Mod, DI, RegisterOrConstant(DI)),
    binary!(Umod, DI, RegisterOrConstant(DI)),
    binary!(And, DI, RegisterOrConstant(DI)),
    binary!(Ior, DI, RegisterOrConstant(DI)),
    binary!(Xor, DI, RegisterOrConstant(DI)),
    binary!(Ashift, DI, Count(DI)),
    binary!(Ashiftrt, DI, Count(DI)),
    binary!(Lshiftrt, DI, Count(DI)),
    // operations on one operand
    unary!(Neg, SI, Register(SI)),
    unary!(Not, SI, Register(SI)),
    unary!(Neg, DI, Register(DI)),
    unary!(Not, DI, Register(DI)),
    unary!(SignExtend, SI, RegisterOrMemory(QI)),
    unary!(SignExtend, SI, RegisterOrMemory(HI)),
    unary!(SignExtend, DI, RegisterOrMemory(QI)),
    unary!(SignExtend, DI, RegisterOrMemory(HI)),
    unary!(SignExtend, DI, RegisterOrMemory(SI)),
    unary!(ZeroExtend, SI, RegisterOrMemory(QI)),
    unary!(ZeroExtend, SI, RegisterOrMemory(HI)),
    unary!(ZeroExtend, DI, RegisterOrMemory(QI)),
    unary!(ZeroExtend, DI, RegisterOrMemory(HI)),
    unary!(ZeroExtend, DI, RegisterOrMemory(SI)),
    unary!(Truncate, QI, Register(SI)),
    unary!(Truncate, HI, Register(SI)),
    unary!(Truncate, QI, Register(DI)),
    unary!(Truncate, HI, Register(DI)),
    unary!(Truncate, SI, Register(DI)),
    // comparisons
    comparison!(SI, SI),
    comparison!(SI, DI),
    comparison!(DI, SI),
    comparison!(DI, DI),
    // jumps and branches
    Branch(SI),
    Branch(DI),
    Jump,
    Return,
    // calls
    Call(Symbol),
    Call(Register(DI)),
    Set(AnyRegister, Source::Call(Symbol)),
    Set(AnyRegister, Source::Call(Register(DI))),
    // what has no line
    Use(AnyRegister),
    Clobber(AnyRegister),
];

/// The shapes of the plain profile, which are 81.
pub fn all_shapes() -> &'static [Shape]
    ensures all { result.now ≡ spec.all_shapes }
    ensures count { length spec.all_shapes ≡ 81 }
{
    &SHAPES
}
