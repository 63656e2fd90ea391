//! What letters and classes of registers admit.
ghost use Rattle.std.specs.Prelude.{◌≡◌};
ghost use Rattle.rv_regs.specs.Classes.{is_in_class};
ghost use Rattle.md_constr.specs.Admits as spec;

use c_eval::register_in;
use md_forms::RegisterClass;
use md_operand::{is_memory, is_register, is_symbol, legitimate_address};
use md_text::Letter;
use rtx_tree::{Code, Rtx};
use rv_regs::{Class, in_class};

fn is_immediate(x: &Rtx) -> bool
    ensures { result ≡ spec.is_immediate x.now }
{
    x.is_constant() || is_symbol(x)
}

/// Whether a letter of the manual admits an operand.
pub fn letter_admits(letter: Letter, x: &Rtx) -> bool
    ensures { result ≡ spec.letter_admits letter x.now }
{
    match letter {
        Letter::Register => is_register(x),
        Letter::Memory => is_memory(x),
        Letter::Immediate => is_immediate(x),
        Letter::Constant => x.is_constant(),
        Letter::Symbol => is_symbol(x),
        Letter::General => is_register(x) || is_memory(x) || is_immediate(x),
        Letter::Anything => true,
        Letter::Address => legitimate_address(x),
    }
}

/// The number of the register that an operand is, or is the low part of.
pub fn register_of(x: &Rtx) -> Option<u32>
    ensures { result ≡ spec.register_of x.now }
{
    match (x.code, x.kids.as_slice()) {
        (Code::Reg, _) => register_in(x),
        (Code::Subreg, [inner]) => register_in(inner),
        _ => None,
    }
}

fn class_of(class: RegisterClass) -> Class
    ensures { result ≡ spec.class_of class }
{
    match class {
        RegisterClass::General => Class::General,
        RegisterClass::Args => Class::Args,
        RegisterClass::Saved => Class::Saved,
        RegisterClass::Nothing => Class::Nothing,
    }
}

/// Whether a register is in a class, which pseudo registers are not.
#[tactic(auto, using(crate::proofs::ClassLaws::no_pseudo))]
fn has_register(class: Class, reg: u32) -> bool
    ensures { result ≡ is_in_class class reg }
{
    match u8::try_from(reg) {
        Ok(reg) => in_class(class, reg),
        Err(_) => false,
    }
}

/// Whether a class of registers admits an operand.
pub fn class_admits(class: RegisterClass, x: &Rtx) -> bool
    ensures { result ≡ spec.class_admits class x.now }
{
    match register_of(x) {
        Some(reg) => has_register(class_of(class), reg),
        None => false,
    }
}
