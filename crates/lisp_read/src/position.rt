//! What may stand where in an expression.
ghost use Rattle.std.specs.Prelude.{◌≡◌};
ghost use Rattle.lisp_read.specs.Positions as spec;

use rtx_tree::{Class, HeadMode, Mode, VIRTUAL_STACK_VARS};

/// Where an expression stands.
#[derive(Clone, Copy)]
pub enum Position {
    /// By itself: any expression but those of descriptions.
    Top,
    /// A value, as an operand, an address, a shift count or what is used.
    Value,
    /// What is set.
    Place,
    /// What is clobbered.
    Clobbered,
    /// What a place is set to: a value, or what a call gives.
    Source,
    /// An element of a `parallel`.
    Pattern,
    /// The program counter alone: what a jump sets, and the arm that goes on.
    Pc,
    /// What the program counter is set to.
    Jump,
    /// The condition of a branch.
    Test,
    /// The label of a branch.
    Target,
    /// The memory that a call names.
    Callee,
    /// How many argument words a call has on the stack.
    Words,
    /// The register of a lowpart.
    Inner,
}

/// Whether an expression of this class stands in a description's patterns alone.
fn is_of_pattern(class: Class) -> bool
    ensures { result ≡ spec.is_of_pattern class }
{
    matches!(
        class,
        Class::Operand
            | Class::OperandAgain
            | Class::OperandScratch
            | Class::Operator
            | Class::OperatorAgain
    )
}

/// The mode where one has to be written.
fn needed(mode: Mode) -> Option<Mode>
    ensures { result ≡ spec.needed mode }
{
    match mode {
        Mode::Void => None,
        _ => Some(mode),
    }
}

/// No mode where none may be written.
fn unwanted(mode: Mode) -> Option<Mode>
    ensures { result ≡ spec.unwanted mode }
{
    match mode {
        Mode::Void => Some(Mode::Void),
        _ => None,
    }
}

/// The mode of an expression by the mode that is written.
fn mode_of_class(class: Class, mode: Mode) -> Option<Mode>
    ensures { result ≡ spec.mode_of_class class mode }
{
    match class.head_mode() {
        HeadMode::Needed => needed(mode),
        HeadMode::Optional => Some(mode),
        HeadMode::Ignored => Some(Mode::Void),
        HeadMode::Absent => unwanted(mode),
    }
}

impl Position {
    /// Whether an expression of this class may stand here.
    pub fn admits(self, class: Class) -> bool
        ensures { result ≡ spec.admits self class }
    {
        match self {
            Position::Top => !is_of_pattern(class),
            Position::Value => class.is_value(),
            Position::Place => class.is_place(),
            Position::Clobbered => matches!(class, Class::Scratch) || class.is_place(),
            Position::Source => matches!(class, Class::Call) || class.is_value(),
            Position::Pattern => class.is_effect(),
            Position::Pc => matches!(class, Class::Counter),
            Position::Jump => matches!(class, Class::Label | Class::Branch),
            Position::Test => matches!(class, Class::Comparison),
            Position::Target => matches!(class, Class::Label),
            Position::Callee => matches!(class, Class::Memory),
            Position::Words => matches!(class, Class::Constant),
            Position::Inner => matches!(class, Class::Register),
        }
    }

    /// The mode of an expression that stands here, by the mode that is written.
    pub fn mode_at(self, class: Class, mode: Mode) -> Option<Mode>
        ensures { result ≡ spec.mode_at self class mode }
    {
        let mode = mode_of_class(class, mode)?;
        match self {
            Position::Callee => Some(Mode::SI),
            _ => Some(mode),
        }
    }

    /// Whether a register may stand at the position.
    pub fn admits_register(self, reg: u32) -> bool
        ensures { result ≡ spec.admits_register self reg }
    {
        match self {
            Position::Inner => reg != VIRTUAL_STACK_VARS,
            _ => true,
        }
    }
}
