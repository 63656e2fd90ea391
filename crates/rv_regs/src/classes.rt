//! The classes of hard registers.
ghost use Rattle.std.specs.Prelude.{◌≡◌};
ghost use Rattle.rv_regs.specs.Classes as spec;

/// A class of hard registers.
#[derive(Clone, Copy)]
pub enum Class {
    /// All of them.
    General,
    /// `a0` to `a7`, in which arguments stand.
    Args,
    /// `s0` to `s11`, which a call leaves.
    Saved,
    /// None.
    Nothing,
}

/// Whether hard register `reg` is in a class. From 32 on, where there are no hard registers, it is
/// false.
pub fn in_class(class: Class, reg: u8) -> bool
    ensures { result ≡ spec.is_in_class class reg }
{
    match class {
        Class::General => reg < 32,
        Class::Args => matches!(reg, 10..=17),
        Class::Saved => matches!(reg, 8 | 9 | 18..=27),
        Class::Nothing => false,
    }
}
