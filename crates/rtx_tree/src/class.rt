//! The classes of RTL's codes: what the expressions of a code are, and of what they are made.
ghost use Rattle.std.specs.Prelude.{◌≡◌};
ghost use Rattle.rtx_tree.specs.Code as spec;

/// What an expression of a code is.
#[derive(Clone, Copy)]
pub enum Class {
    /// A register.
    Register,
    /// A number.
    Constant,
    /// The address of a symbol.
    Symbol,
    /// The memory at an address.
    Memory,
    /// The low part of a register.
    Lowpart,
    /// An operation on one value of its own mode.
    Unary,
    /// An operation on two values of its own mode.
    Binary,
    /// An operation on a value of its own mode and a count.
    Shift,
    /// A narrower value, made wider.
    Extension,
    /// A wider value, made narrower.
    Truncation,
    /// A comparison of two values of one mode.
    Comparison,
    /// Stores a value in a place.
    Setting,
    /// A value is needed.
    Use,
    /// A place is changed in an unknown way.
    Clobber,
    /// Several effects at once.
    Parallel,
    /// A call.
    Call,
    /// A return.
    Return,
    /// The program counter.
    Counter,
    /// The address of a label.
    Label,
    /// One of two places to go on at.
    Branch,
    /// A register that is still to be chosen.
    Scratch,
    /// An operand of a pattern.
    Operand,
    /// An operand of a pattern once more.
    OperandAgain,
    /// An operand of a pattern that may be a register still to be chosen.
    OperandScratch,
    /// An operand of a pattern that is an operator.
    Operator,
    /// An operator of a pattern once more.
    OperatorAgain,
}

/// What stands behind a code in its list, in a description's pattern.
#[derive(Clone, Copy)]
pub enum Parts {
    /// A register.
    Register,
    /// A number.
    Number,
    /// `("NAME")`
    Symbol,
    /// An expression and the offset 0.
    Lowpart,
    /// `count` expressions.
    Expressions { count: usize },
    /// A vector of expressions.
    Vector,
    /// The number of an operand, its predicate, and it may be its constraint.
    Operand,
    /// The number of an operand, and it may be its constraint.
    Scratch,
    /// The number of an operand.
    Dup,
    /// The number of an operand, its predicate, and a vector of expressions.
    Operator,
    /// The number of an operand, and a vector of expressions.
    OperatorDup,
}

/// Whether a mode is written behind a code.
#[derive(Clone, Copy)]
pub enum HeadMode {
    /// One has to be.
    Needed,
    /// One may be.
    Optional,
    /// One may be, and is passed over.
    Ignored,
    /// None may be.
    Absent,
}

impl Class {
    /// What stands behind a code of this class in its list.
    pub fn parts(self) -> Parts
        ensures { result ≡ spec.parts_of self }
    {
        match self {
            Class::Register => Parts::Register,
            Class::Constant => Parts::Number,
            Class::Symbol => Parts::Symbol,
            Class::Lowpart => Parts::Lowpart,
            Class::Memory
            | Class::Unary
            | Class::Extension
            | Class::Truncation
            | Class::Use
            | Class::Clobber
            | Class::Label => Parts::Expressions { count: 1 },
            Class::Binary | Class::Shift | Class::Comparison | Class::Setting | Class::Call => {
                Parts::Expressions { count: 2 }
            }
            Class::Branch => Parts::Expressions { count: 3 },
            Class::Return | Class::Counter | Class::Scratch => Parts::Expressions { count: 0 },
            Class::Parallel => Parts::Vector,
            Class::Operand => Parts::Operand,
            Class::OperandAgain => Parts::Dup,
            Class::OperandScratch => Parts::Scratch,
            Class::Operator => Parts::Operator,
            Class::OperatorAgain => Parts::OperatorDup,
        }
    }

    /// Whether a mode is written behind a code of this class.
    pub fn head_mode(self) -> HeadMode
        ensures { result ≡ spec.head_mode_of self }
    {
        match self {
            Class::Register
            | Class::Symbol
            | Class::Memory
            | Class::Lowpart
            | Class::Unary
            | Class::Binary
            | Class::Shift
            | Class::Extension
            | Class::Truncation
            | Class::Scratch
            | Class::Operand
            | Class::OperandScratch
            | Class::Operator => HeadMode::Needed,
            Class::Comparison => HeadMode::Optional,
            Class::Label => HeadMode::Ignored,
            _ => HeadMode::Absent,
        }
    }

    /// Whether an expression of this class has a value.
    pub fn is_value(self) -> bool
        ensures { result ≡ spec.is_value_class self }
    {
        matches!(
            self,
            Class::Register
                | Class::Constant
                | Class::Symbol
                | Class::Memory
                | Class::Lowpart
                | Class::Unary
                | Class::Binary
                | Class::Shift
                | Class::Extension
                | Class::Truncation
                | Class::Comparison
        )
    }

    /// Whether an expression of this class may be set.
    pub fn is_place(self) -> bool
        ensures { result ≡ spec.is_place_class self }
    {
        matches!(self, Class::Register | Class::Memory | Class::Lowpart)
    }

    /// Whether an expression of this class is an effect, as an instruction or an element of a
    /// `parallel` may be.
    pub fn is_effect(self) -> bool
        ensures { result ≡ spec.is_effect_class self }
    {
        matches!(
            self,
            Class::Setting
                | Class::Use
                | Class::Clobber
                | Class::Parallel
                | Class::Call
                | Class::Return
        )
    }
}
