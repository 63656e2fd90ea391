//! What stands in the parentheses of a call.
ghost use Rattle.std.specs.Prelude.{◌≡◌, ◌≤◌};
ghost use Rattle.c_cond.specs.Grammar as spec;

use c_words::{Binary, Call, Token, Unary};

/// A part of a call.
#[derive(Clone, Copy)]
pub enum Part {
    /// An expression none of whose outer operators binds less tightly than the level.
    Expression { level: u8 },
    /// `operands[k]`, or `op`.
    Operand,
    /// The number of an instruction.
    Window,
    /// A mode, `VOIDmode` among them.
    AnyMode,
    /// A mode other than `VOIDmode`.
    ValueMode,
    /// An operand, or what makes one.
    Value,
}

/// The parts of a call.
#[derive(Clone, Copy)]
pub enum Signature {
    None,
    One(Part),
    Two(Part, Part),
    Three(Part, Part, Part),
}

/// A whole expression.
const EXPRESSION: Part = Part::Expression { level: 0 };

/// The parts that a call has.
pub fn signature_of(call: Call) -> Signature
    ensures { result ≡ spec.signature_of call }
{
    match call {
        Call::CanCreatePseudo => Signature::None,
        Call::Intval | Call::Regno | Call::RegP | Call::MemP | Call::ConstIntP | Call::SymbolRefP =>
            Signature::One(Part::Operand),
        Call::RtxEqual => Signature::Two(Part::Operand, Part::Operand),
        Call::InRange => Signature::Three(EXPRESSION, EXPRESSION, EXPRESSION),
        Call::SmallOperand | Call::GenInt => Signature::One(EXPRESSION),
        Call::RegDead => Signature::Two(Part::Window, Part::Operand),
        Call::GenIntMode => Signature::Two(EXPRESSION, Part::ValueMode),
        Call::GenReg => Signature::One(Part::ValueMode),
        Call::ForceReg | Call::GenLowpart => Signature::Two(Part::ValueMode, Part::Value),
        Call::EmitMove => Signature::Two(Part::Value, Part::Value),
    }
}

/// Whether a call makes an operand.
pub fn is_maker(call: Call) -> bool
    ensures { result ≡ spec.is_maker call }
{
    match call {
        Call::GenInt | Call::GenIntMode | Call::GenReg | Call::ForceReg | Call::GenLowpart => true,
        _ => false,
    }
}

/// How tightly an operator binds.
pub fn level(operator: Binary) -> u8
    ensures value { result ≡ spec.level operator }
    ensures bound { spec.level operator ≤ 10 }
{
    match operator {
        Binary::Or => 1,
        Binary::And => 2,
        Binary::BitOr => 3,
        Binary::BitXor => 4,
        Binary::BitAnd => 5,
        Binary::Equal | Binary::Unequal => 6,
        Binary::Less | Binary::LessEqual | Binary::Greater | Binary::GreaterEqual => 7,
        Binary::ShiftLeft | Binary::ShiftRight => 8,
        Binary::Plus | Binary::Minus => 9,
        Binary::Times => 10,
    }
}

/// The operator that a token is before its operand.
pub fn unary_of(token: &Token) -> Option<Unary>
    ensures { result ≡ spec.unary_of token.now }
{
    match token {
        Token::Operator(Binary::Minus) => Some(Unary::Negative),
        Token::Mark(b'!') => Some(Unary::Not),
        Token::Mark(b'~') => Some(Unary::Complement),
        _ => None,
    }
}
