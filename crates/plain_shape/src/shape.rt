//! What a shape of an instruction is made of.

use rtx_tree::{Code, Mode};

/// What an operand of a shape is, in the mode where one is named.
#[derive(Clone, Copy)]
pub enum Part {
    /// A register other than `virtual-stack-vars`, or the low part of such a one.
    Register(Mode),
    /// Such a register, in whichever mode.
    AnyRegister,
    /// A constant that is the sign extension of its low bits.
    Constant(Mode),
    /// A register or a constant.
    RegisterOrConstant(Mode),
    /// The count of a shift in the mode: a register in mode QI, or a constant from 0 to the mode's
    /// width minus 1.
    Count(Mode),
    /// Memory at a legitimate address.
    Memory(Mode),
    /// A register or memory.
    RegisterOrMemory(Mode),
    /// The address of a symbol.
    Symbol,
    /// `virtual-stack-vars`, or the sum of it and a constant.
    Frame,
}

/// What a shape sets something to.
#[derive(Clone, Copy)]
pub enum Source {
    /// A part by itself.
    Only(Part),
    /// An operation of a code and a mode on one part.
    Unary(Code, Mode, Part),
    /// An operation of a code and a mode on two parts.
    Binary(Code, Mode, Part, Part),
    /// A comparison, in the first mode, of a register in the second with a register or a constant.
    Comparison(Mode, Mode),
    /// A call of a part.
    Call(Part),
}

/// The shape of an instruction.
#[derive(Clone, Copy)]
pub enum Shape {
    /// A part is set to a source.
    Set(Part, Source),
    /// A jump to a label.
    Jump,
    /// A jump to a label where a register in the mode compares with a register or a constant, and
    /// to the next instruction where it doesn't.
    Branch(Mode),
    /// `(return)`.
    Return,
    /// A call of a part.
    Call(Part),
    /// `(use P)` of a part.
    Use(Part),
    /// `(clobber P)` of a part.
    Clobber(Part),
}
