//! What the table of the plain forms is written in.

use c_cond::{Binary, Call};
use md_forms::FormHead;
use rtx_tree::{Code, Mode};

/// An expression of a pattern. It stands behind its parts.
#[derive(Clone, Copy)]
pub struct Node {
    /// Its code.
    pub code: Code,
    /// Its mode.
    pub mode: Mode,
    /// Its number, 0 where it has none.
    pub number: i64,
    /// Its name, empty where it has none.
    pub name: &'static str,
    /// How many of the expressions before it are its parts.
    pub parts: usize,
}

/// One part of a condition or of statements. It stands behind the parts that it is made of.
#[derive(Clone, Copy)]
pub enum Word {
    /// A number.
    Number(i64),
    /// The number of the operand under test.
    Ival,
    /// An operand, by its number.
    Operand(u32),
    /// A mode.
    Mode(Mode),
    /// `!`
    Not,
    /// `-` before its operand.
    Negative,
    /// An operator of two parts.
    Binary(Binary),
    /// `? :`
    Choose,
    /// A call of the parts that its name wants.
    Call(Call),
    /// A call of a predicate.
    Predicate(&'static str),
    /// A statement that gives an operand its tree.
    Assign(u32),
    /// `if` without `else`.
    If,
    /// No statement.
    Nothing,
    /// A statement and those behind it.
    Then,
}

/// The constraint of an operand, as its text.
#[derive(Clone, Copy)]
pub struct Constrained {
    /// The operand's number.
    pub operand: u32,
    /// The text between the quotes.
    pub text: &'static str,
}

/// The test of a predicate or of a constraint.
#[derive(Clone, Copy)]
pub enum Asked {
    /// The form has no test.
    Nothing,
    /// The operand is a constant for which a condition holds.
    Constant(&'static [Word]),
    /// It is a register, or a constant for which a condition holds.
    RegisterOr(&'static [Word]),
    /// It is a register or any constant.
    RegisterOrConstant,
    /// It is a register or a symbol.
    RegisterOrSymbol,
}

/// A form, by what it says. What its head doesn't have is empty.
#[derive(Clone, Copy)]
pub struct Row {
    /// Its head.
    pub head: FormHead,
    /// Its name, where it has one.
    pub name: Option<&'static str>,
    /// The instructions that it matches or makes.
    pub patterns: &'static [Node],
    /// Its condition.
    pub condition: &'static [Word],
    /// When its split half holds.
    pub split_condition: &'static [Word],
    /// Its preparation statements.
    pub statements: &'static [Word],
    /// The instructions that it makes in place of the patterns.
    pub sequence: &'static [Node],
    /// The constraints of its operands.
    pub constraints: &'static [Constrained],
    /// How it is printed, as the text between the quotes.
    pub template: &'static str,
    /// The test of a predicate or of a constraint.
    pub test: Asked,
}
