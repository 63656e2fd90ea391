//! The hard registers of the target: their classes, and which of them a compilation may use, in
//! which order. They are those of the RISC-V calling convention.
//!
//! Each call gives what its definition in `specs/Registers.antt` or `specs/Classes.antt` gives, by
//! the registers' numbers, and takes no memory.
#![tactic(auto)]

ghost use Rattle.std.specs.Prelude.{◌≡◌};
ghost use Rattle.rv_regs.specs.Registers as spec;

mod classes;

pub use classes::{Class, in_class};

/// The return address, `ra`.
pub const RETURN_ADDRESS: u8 = 1;

/// The stack pointer, `sp`.
pub const STACK_POINTER: u8 = 2;

/// The registers that may be homes, in the order in which they are tried: `a0` to `a7`, `t0` to
/// `t2`, `s0` to `s11`.
pub fn allocation_order() -> [u8; 23]
    ensures { result ≡ spec.allocation_order }
{
    [
        10, 11, 12, 13, 14, 15, 16, 17, 5, 6, 7, 8, 9, 18, 19, 20, 21, 22, 23, 24, 25, 26, 27,
    ]
}

/// The registers that a function saves before it uses them, `s0` to `s11`, in increasing order.
pub fn saved_registers() -> [u8; 12]
    ensures { result ≡ spec.saved_registers }
{
    [8, 9, 18, 19, 20, 21, 22, 23, 24, 25, 26, 27]
}

/// The registers that a caller finds as they were: `ra`, `sp` and `s0` to `s11`.
pub fn kept_registers() -> [u8; 14]
    ensures { result ≡ spec.kept_registers }
{
    [1, 2, 8, 9, 18, 19, 20, 21, 22, 23, 24, 25, 26, 27]
}
