//! What the parts of a condition are read as.
ghost use Rattle.std.specs.Prelude.{◌≡◌};
ghost use Rattle.c_eval.specs.Value as spec;

use rtx_tree::Mode;

/// What a part of a condition is read as.
#[derive(Clone, Copy)]
pub enum Reading {
    /// A number: the value of an expression.
    Number(i64),
    /// An operand, by its number.
    Operand(u32),
    /// A mode.
    Mode(Mode),
    /// An instruction of a window, by its place.
    Window(u64),
    /// Nothing: an expression without a value, or a statement.
    Nothing,
}

impl Reading {
    /// A number where there is a value, else nothing.
    pub fn of_value(value: Option<i64>) -> Reading
        ensures { result ≡ spec.as_reading value }
    {
        match value {
            Some(number) => Reading::Number(number),
            None => Reading::Nothing,
        }
    }

    /// The number that the part is, where it is an expression that has a value.
    pub fn number(self) -> Option<i64>
        ensures { result ≡ spec.number_of self }
    {
        match self {
            Reading::Number(number) => Some(number),
            _ => None,
        }
    }

    /// The mode that the part is.
    pub fn mode(self) -> Option<Mode>
        ensures { result ≡ spec.mode_of self }
    {
        match self {
            Reading::Mode(mode) => Some(mode),
            _ => None,
        }
    }

    /// The place in the window that the part is.
    pub fn place(self) -> Option<u64>
        ensures { result ≡ spec.place_of self }
    {
        match self {
            Reading::Window(place) => Some(place),
            _ => None,
        }
    }
}
