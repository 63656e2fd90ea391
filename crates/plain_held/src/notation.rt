//! The notation of the table: patterns, constraints and rows.
use crate::row::{Asked, Constrained, Node, Row};
use crate::words::{ALWAYS, NOTHING};
use md_forms::FormHead;
use rtx_tree::Code::{Call, IfThenElse, LabelRef, Mem, Pc, Plus, Set, SignExtend};
use rtx_tree::Mode::{DI, SI, Void};

// ---- patterns

macro_rules! operand {
    ($predicate:expr, $number:expr, $mode:expr) => {
        Node {
            code: MatchOperand,
            mode: $mode,
            number: $number,
            name: $predicate,
            parts: 0,
        }
    };
}

macro_rules! register {
    ($number:expr, $mode:expr) => {
        operand!("register_operand", $number, $mode)
    };
}

macro_rules! register_or_0 {
    ($number:expr, $mode:expr) => {
        operand!("reg_or_0_operand", $number, $mode)
    };
}

macro_rules! register_or_int {
    ($number:expr, $mode:expr) => {
        operand!("reg_or_int_operand", $number, $mode)
    };
}

macro_rules! constant {
    ($number:expr, $mode:expr) => {
        operand!("const_int_operand", $number, $mode)
    };
}

macro_rules! nonimmediate {
    ($number:expr, $mode:expr) => {
        operand!("nonimmediate_operand", $number, $mode)
    };
}

macro_rules! general {
    ($number:expr, $mode:expr) => {
        operand!("general_operand", $number, $mode)
    };
}

macro_rules! called {
    ($number:expr) => {
        operand!("call_operand", $number, DI)
    };
}

macro_rules! anything {
    ($number:expr) => {
        operand!("", $number, Void)
    };
}

macro_rules! comparison {
    ($number:expr) => {
        Node {
            code: MatchOperator,
            mode: Void,
            number: $number,
            name: "ordered_comparison_operator",
            parts: 2,
        }
    };
}

macro_rules! leaf {
    ($code:expr, $number:expr) => {
        Node {
            code: $code,
            mode: Void,
            number: $number,
            name: "",
            parts: 0,
        }
    };
}

macro_rules! again {
    ($number:expr) => {
        leaf!(MatchDup, $number)
    };
}

/// An expression of a code and a mode, of some parts.
macro_rules! of {
    ($code:expr, $mode:expr, $parts:expr) => {
        Node {
            code: $code,
            mode: $mode,
            number: 0,
            name: "",
            parts: $parts,
        }
    };
}

pub(crate) const SET: Node = of!(Set, Void, 2);

pub(crate) const PC: Node = leaf!(Pc, 0);

pub(crate) const LABEL: Node = of!(LabelRef, Void, 1);

pub(crate) const CALLED: Node = of!(Mem, SI, 1);

pub(crate) const CALL: Node = of!(Call, Void, 2);

pub(crate) const CHOICE: Node = of!(IfThenElse, Void, 3);

pub(crate) const EXTENDED: Node = of!(SignExtend, DI, 1);

pub(crate) const SUM: Node = of!(Plus, DI, 2);

// ---- constraints

macro_rules! at {
    ($operand:expr, $text:expr) => {
        Constrained {
            operand: $operand,
            text: $text,
        }
    };
}

pub(crate) const UNARY: &[Constrained] = &[at!(0, "=r"), at!(1, "r")];

pub(crate) const BINARY: &[Constrained] = &[at!(0, "=r"), at!(1, "r"), at!(2, "r")];

pub(crate) const FROM_ZERO: &[Constrained] = &[at!(0, "=r"), at!(1, "rJ"), at!(2, "r")];

pub(crate) const WITH_ZERO: &[Constrained] = &[at!(0, "=r"), at!(1, "r"), at!(2, "rJ")];

pub(crate) const OR_I: &[Constrained] = &[at!(0, "=r,r"), at!(1, "r,r"), at!(2, "r,I")];

pub(crate) const OR_K: &[Constrained] = &[at!(0, "=r,r"), at!(1, "r,r"), at!(2, "r,K")];

pub(crate) const OR_L: &[Constrained] = &[at!(0, "=r,r"), at!(1, "r,r"), at!(2, "r,L")];

pub(crate) const OR_MEMORY: &[Constrained] = &[at!(0, "=r,r"), at!(1, "r,m")];

pub(crate) const MOVED: &[Constrained] = &[at!(0, "=r,r,r,m"), at!(1, "r,n,m,rJ")];

// ---- rows

/// A form that says nothing but its head.
pub(crate) const BARE: Row = Row {
    head: FormHead::Insn,
    name: None,
    patterns: &[],
    condition: ALWAYS,
    split_condition: ALWAYS,
    statements: NOTHING,
    sequence: &[],
    constraints: &[],
    template: "",
    test: Asked::Nothing,
};

macro_rules! constraint {
    ($name:expr, $words:expr) => {
        Row {
            head: FormHead::Constraint,
            name: Some($name),
            test: Asked::Constant($words),
            ..BARE
        }
    };
}

macro_rules! predicate {
    ($name:expr, $test:expr) => {
        Row {
            head: FormHead::Predicate,
            name: Some($name),
            test: $test,
            ..BARE
        }
    };
}

macro_rules! expand {
    ($name:expr, $patterns:expr, $statements:expr) => {
        Row {
            head: FormHead::Expand,
            name: Some($name),
            patterns: $patterns,
            statements: $statements,
            ..BARE
        }
    };
}

macro_rules! insn {
    ($name:expr, $patterns:expr, $constraints:expr, $template:expr) => {
        Row {
            name: Some($name),
            patterns: $patterns,
            constraints: $constraints,
            template: $template,
            ..BARE
        }
    };
}

macro_rules! standard_move {
    ($name:expr, $mode:expr, $statements:expr) => {
        expand!($name, &[nonimmediate!(0, $mode), general!(1, $mode), SET], $statements)
    };
}

macro_rules! moved {
    ($name:expr, $mode:expr, $condition:expr, $constraints:expr, $template:expr) => {
        Row {
            name: Some($name),
            patterns: &[nonimmediate!(0, $mode), general!(1, $mode), SET],
            condition: $condition,
            constraints: $constraints,
            template: $template,
            ..BARE
        }
    };
}

/// An operation on one operand, of which the value is put into a register.
macro_rules! one {
    ($name:expr, $code:expr, $mode:expr, $a:expr, $constraints:expr, $template:expr) => {
        insn!($name, &[register!(0, $mode), $a, of!($code, $mode, 1), SET], $constraints, $template)
    };
}

/// An operation on two operands, likewise.
macro_rules! two {
    ($name:expr, $code:expr, $mode:expr, $a:expr, $b:expr, $constraints:expr, $template:expr) => {
        insn!(
            $name,
            &[register!(0, $mode), $a, $b, of!($code, $mode, 2), SET],
            $constraints,
            $template
        )
    };
}

/// Such an operation in SI, of which the value is extended.
macro_rules! wide {
    ($name:expr, $code:expr, $a:expr, $b:expr, $constraints:expr, $template:expr) => {
        insn!(
            $name,
            &[register!(0, DI), $a, $b, of!($code, SI, 2), EXTENDED, SET],
            $constraints,
            $template
        )
    };
}

/// An operation on two registers.
macro_rules! binary {
    ($name:expr, $code:expr, $mode:expr, $template:expr) => {
        two!($name, $code, $mode, register!(1, $mode), register!(2, $mode), BINARY, $template)
    };
}

/// An operation on a register and a register or a constant.
macro_rules! or_constant {
    ($name:expr, $code:expr, $mode:expr, $template:expr) => {
        two!($name, $code, $mode, register!(1, $mode), register_or_int!(2, $mode), OR_I, $template)
    };
}

/// A difference.
macro_rules! minus {
    ($name:expr, $mode:expr, $template:expr) => {
        two!($name, Minus, $mode, register_or_0!(1, $mode), register!(2, $mode), FROM_ZERO, $template)
    };
}

/// A shift.
macro_rules! shift {
    ($name:expr, $code:expr, $mode:expr, $constraints:expr, $template:expr) => {
        two!($name, $code, $mode, register!(1, $mode), register_or_int!(2, QI), $constraints, $template)
    };
}

/// A shift in SI, of which the value is extended.
macro_rules! wide_shift {
    ($name:expr, $code:expr, $template:expr) => {
        wide!($name, $code, register!(1, SI), register_or_int!(2, QI), OR_K, $template)
    };
}

/// An operation on one register of the same mode.
macro_rules! unary {
    ($name:expr, $code:expr, $mode:expr, $template:expr) => {
        one!($name, $code, $mode, register!(1, $mode), UNARY, $template)
    };
}

/// A truncation.
macro_rules! truncate {
    ($name:expr, $from:expr, $to:expr) => {
        one!($name, Truncate, $to, register!(1, $from), UNARY, "mv\\t%0,%1")
    };
}

/// An extension of a register or memory.
macro_rules! extend {
    ($name:expr, $code:expr, $from:expr, $to:expr, $template:expr) => {
        one!($name, $code, $to, nonimmediate!(1, $from), OR_MEMORY, $template)
    };
}

/// A comparison of a register in DI and a register or a constant.
macro_rules! compares {
    ($name:expr, $code:expr, $mode:expr, $constraints:expr, $template:expr) => {
        two!($name, $code, $mode, register!(1, DI), register_or_int!(2, DI), $constraints, $template)
    };
}

macro_rules! less {
    ($code:expr, $mode:expr, $template:expr) => {
        compares!("*less", $code, $mode, OR_I, $template)
    };
}

macro_rules! more {
    ($code:expr, $mode:expr, $template:expr) => {
        compares!("*more", $code, $mode, WITH_ZERO, $template)
    };
}

macro_rules! at_least {
    ($code:expr, $mode:expr, $template:expr) => {
        compares!("*atleast", $code, $mode, OR_I, $template)
    };
}

macro_rules! at_most {
    ($code:expr, $mode:expr, $template:expr) => {
        compares!("*atmost", $code, $mode, WITH_ZERO, $template)
    };
}

macro_rules! equals {
    ($code:expr, $mode:expr, $template:expr) => {
        compares!("*eqs", $code, $mode, BINARY, $template)
    };
}

macro_rules! equals_zero {
    ($code:expr, $mode:expr, $template:expr) => {
        two!("*eqs0", $code, $mode, register!(1, DI), leaf!(ConstInt, 0), UNARY, $template)
    };
}

pub(crate) use again;
pub(crate) use anything;
pub(crate) use at;
pub(crate) use at_least;
pub(crate) use at_most;
pub(crate) use binary;
pub(crate) use called;
pub(crate) use compares;
pub(crate) use comparison;
pub(crate) use constant;
pub(crate) use constraint;
pub(crate) use equals;
pub(crate) use equals_zero;
pub(crate) use expand;
pub(crate) use extend;
pub(crate) use general;
pub(crate) use insn;
pub(crate) use leaf;
pub(crate) use less;
pub(crate) use minus;
pub(crate) use more;
pub(crate) use moved;
pub(crate) use nonimmediate;
pub(crate) use of;
pub(crate) use one;
pub(crate) use operand;
pub(crate) use or_constant;
pub(crate) use predicate;
pub(crate) use register;
pub(crate) use register_or_0;
pub(crate) use register_or_int;
pub(crate) use shift;
pub(crate) use standard_move;
pub(crate) use truncate;
pub(crate) use two;
pub(crate) use unary;
pub(crate) use wide;
pub(crate) use wide_shift;
