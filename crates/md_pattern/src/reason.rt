//! Why a form of a description is set aside.
ghost use Rattle.std.specs.Prelude.{◌≡◌};
ghost use Rattle.md_pattern.specs.Reason as spec;

/// Why a form of a description is set aside. The reasons are in the order of their numbers.
#[derive(Clone, Copy)]
pub enum Reason {
    /// The form's head isn't taken.
    Head,
    /// Parts are missing, too many or of the wrong kind, or the form is too long.
    Parts,
    /// A code or a register number is outside.
    Code,
    /// A mode is outside.
    Mode,
    /// The output is C code.
    CCode,
    /// A condition is outside the grammar.
    Condition,
    /// Preparation statements are outside the grammar.
    Statements,
    /// A predicate is unknown, set aside, or reaches itself.
    Predicate,
    /// A constraint is unknown or set aside, or the lists of alternatives differ in length.
    Constraint,
    /// An attribute or a value of one is unknown.
    Attribute,
    /// There are too many operands or alternatives, two operands have one number, or a duplicate
    /// has no operand.
    Operands,
    /// A template is outside.
    Template,
}

/// What was read, or why it is set aside.
pub type Judged<T> = Result<T, Reason>;

impl Reason {
    /// The reason's number, from 1 to 12.
    pub fn number(self) -> u8
        ensures { result ≡ spec.number_of self }
    {
        match self {
            Reason::Head => 1,
            Reason::Parts => 2,
            Reason::Code => 3,
            Reason::Mode => 4,
            Reason::CCode => 5,
            Reason::Condition => 6,
            Reason::Statements => 7,
            Reason::Predicate => 8,
            Reason::Constraint => 9,
            Reason::Attribute => 10,
            Reason::Operands => 11,
            Reason::Template => 12,
        }
    }

    /// The one of two reasons that has the smaller number.
    pub fn smaller(self, other: Reason) -> Reason
        ensures { result ≡ spec.smaller self other }
    {
        if self.number() <= other.number() {
            self
        } else {
            other
        }
    }
}

/// Two things that were read, or the smaller of the reasons why they are set aside.
pub fn both<A: Drop, B: Drop>(a: Judged<A>, b: Judged<B>) -> Judged<(A, B)>
    ensures { result ≡ spec.both a b }
{
    match (a, b) {
        (Ok(a), Ok(b)) => Ok((a, b)),
        (Ok(_), Err(reason)) | (Err(reason), Ok(_)) => Err(reason),
        (Err(reason), Err(other)) => Err(reason.smaller(other)),
    }
}
