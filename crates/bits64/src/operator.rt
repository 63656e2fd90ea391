//! Operators on numbers of a width.
ghost use Rattle.std.specs.Prelude.{◌≡◌, ◌<◌, ◌^◌};
ghost use Rattle.bits64.specs.Words.{bits_of};
ghost use Rattle.bits64.specs.Operators as spec;
ghost use Rattle.bits64.specs.machine.Row.{row_view};

use crate::{
    Width, add, div, lt, ltu, mul, mulh, mulhsu, mulhu, rem, sar, shl, shr, sub, trunc, udiv, urem,
};

/// A comparison of two numbers; those that end in `u` are of unsigned numbers.
#[derive(Clone, Copy, Debug)]
pub enum Relation {
    Eq,
    Ne,
    Lt,
    Gt,
    Le,
    Ge,
    Ltu,
    Gtu,
    Leu,
    Geu,
}

/// An operator of which nothing is known but its number.
#[derive(Clone, Copy, Debug)]
pub enum Opaque {
    /// The upper half of the product of signed numbers.
    Mulh,
    /// The upper half of the product of unsigned numbers.
    Mulhu,
    /// The upper half of the product of a signed and an unsigned number.
    Mulhsu,
    /// The quotient of signed numbers.
    Div,
    /// The quotient of unsigned numbers.
    Udiv,
    /// The remainder of signed numbers.
    Rem,
    /// The remainder of unsigned numbers.
    Urem,
}

/// An operator on one or two numbers.
#[derive(Clone, Copy, Debug)]
pub enum Operator {
    /// The sum.
    Add,
    /// The difference.
    Sub,
    /// The negative.
    Neg,
    /// The complement: each bit turned over.
    Not,
    /// The lower half of the product.
    Mul,
    /// The bits that both have.
    And,
    /// The bits that one of them has.
    Ior,
    /// The bits that only one of them has.
    Xor,
    /// The first shifted left by the second.
    Shl,
    /// The first shifted right by the second, with zeros above.
    Shr,
    /// The first shifted right by the second, with its sign above.
    Sar,
    /// 1 where a comparison holds, else 0.
    Test(Relation),
    /// An operator of which nothing is known but its number.
    Opaque(Opaque),
}

/// What numbers an operator takes.
#[derive(Clone, Copy, Debug)]
pub enum Taking {
    /// One.
    Alone,
    /// Two of its width.
    Pair,
    /// One of its width, and a count of any width.
    Counted,
}

/// What an operator asks, to have a value in an expression.
#[derive(Clone, Copy, Debug)]
pub enum Asks {
    /// Nothing.
    Nothing,
    /// That its second number is not 0.
    SecondNonzero,
}

/// A row of the table of operators of which nothing is known but their numbers.
#[derive(Clone, Copy)]
struct Row {
    name: &'static str,
    taking: Taking,
    asks: Asks,
}

macro_rules! listed {
    ($name:expr, $taking:ident, $asks:ident) => {
        Row {
            name: $name,
            taking: Taking::$taking,
            asks: Asks::$asks,
        }
    };
}

/// Every one of them, once.
const OPAQUE: [Opaque; 7] = [
    Opaque::Mulh,
    Opaque::Mulhu,
    Opaque::Mulhsu,
    Opaque::Div,
    Opaque::Udiv,
    Opaque::Rem,
    Opaque::Urem,
];

/// The row of each of them, in their order.
static ROWS: [Row; 7] = [
    listed!("mulh", Pair, Nothing),
    listed!("mulhu", Pair, Nothing),
    listed!("mulhsu", Pair, Nothing),
    listed!("div", Pair, SecondNonzero),
    listed!("udiv", Pair, SecondNonzero),
    listed!("rem", Pair, SecondNonzero),
    listed!("urem", Pair, SecondNonzero),
];

impl Relation {
    /// Whether it holds between two numbers of a width.
    pub fn holds(self, w: Width, a: u64, b: u64) -> bool
        ensures { result ≡ spec.holds self w a b }
    {
        match self {
            Relation::Eq => trunc(a, w) == trunc(b, w),
            Relation::Ne => trunc(a, w) != trunc(b, w),
            Relation::Lt => lt(a, b, w),
            Relation::Gt => lt(b, a, w),
            Relation::Le => !lt(b, a, w),
            Relation::Ge => !lt(a, b, w),
            Relation::Ltu => ltu(a, b, w),
            Relation::Gtu => ltu(b, a, w),
            Relation::Leu => !ltu(b, a, w),
            Relation::Geu => !ltu(a, b, w),
        }
    }
}

impl Opaque {
    /// Every one, once.
    #[tactic(auto, using(crate::proofs::Operators::has_every))]
    pub fn all() -> &'static [Opaque]
        ensures all { result.now ≡ spec.all_opaque }
        ensures every { spec.HasEvery }
    {
        &OPAQUE
    }

    fn row(self) -> Row
        ensures { row_view result ≡ spec.opaque_row self }
    {
        ROWS[self as usize]
    }

    /// Its name in texts.
    pub fn name(self) -> &'static str
        ensures { result.now ≡ spec.opaque_name self }
    {
        self.row().name
    }

    /// Its place among all.
    pub fn index(self) -> u8
        ensures value { result ≡ spec.opaque_index self }
        ensures few { result < 60 }
    {
        self as u8
    }

    /// What it takes.
    pub fn taking(self) -> Taking
        ensures { result ≡ spec.opaque_taking self }
    {
        self.row().taking
    }

    /// What it asks.
    pub fn asks(self) -> Asks
        ensures { result ≡ spec.opaque_asks self }
    {
        self.row().asks
    }

    /// Its number. Where it takes one number, the second counts for nothing.
    #[tactic(auto, using(crate::proofs::Operators::opaque_fits))]
    pub fn number(self, w: Width, a: u64, b: u64) -> u64
        ensures value { result ≡ spec.opaque_number self w a b }
        ensures fits { result < 2 ^ bits_of w }
    {
        match self {
            Opaque::Mulh => mulh(a, b, w),
            Opaque::Mulhu => mulhu(a, b, w),
            Opaque::Mulhsu => mulhsu(a, b, w),
            Opaque::Div => div(a, b, w),
            Opaque::Udiv => udiv(a, b, w),
            Opaque::Rem => rem(a, b, w),
            Opaque::Urem => urem(a, b, w),
        }
    }
}

impl Operator {
    /// What it takes.
    pub fn taking(self) -> Taking
        ensures { result ≡ spec.taking_of self }
    {
        match self {
            Operator::Neg | Operator::Not => Taking::Alone,
            Operator::Shl | Operator::Shr | Operator::Sar => Taking::Counted,
            Operator::Opaque(operator) => operator.taking(),
            _ => Taking::Pair,
        }
    }

    /// What it asks.
    pub fn asks(self) -> Asks
        ensures { result ≡ spec.asks_of self }
    {
        match self {
            Operator::Opaque(operator) => operator.asks(),
            _ => Asks::Nothing,
        }
    }

    /// Its number. Where it takes one number, the second counts for nothing.
    #[tactic(auto, using(crate::proofs::Operators::number_fits))]
    pub fn number(self, w: Width, a: u64, b: u64) -> u64
        ensures value { result ≡ spec.number self w a b }
        ensures fits { result < 2 ^ bits_of w }
    {
        match self {
            Operator::Add => add(a, b, w),
            Operator::Sub => sub(a, b, w),
            Operator::Neg => sub(0, a, w),
            Operator::Not => trunc(!a, w),
            Operator::Mul => mul(a, b, w),
            Operator::And => trunc(a & b, w),
            Operator::Ior => trunc(a | b, w),
            Operator::Xor => trunc(a ^ b, w),
            Operator::Shl => shl(a, b, w),
            Operator::Shr => shr(a, b, w),
            Operator::Sar => sar(a, b, w),
            Operator::Test(relation) => u64::from(relation.holds(w, a, b)),
            Operator::Opaque(operator) => operator.number(w, a, b),
        }
    }
}

/// Whether a second number lacks what an operator asks.
pub fn lacks(asks: Asks, w: Width, b: u64) -> bool
    ensures { result ≡ spec.lacks asks w b }
{
    match asks {
        Asks::Nothing => false,
        Asks::SecondNonzero => trunc(b, w) == 0,
    }
}
