//! The parts of a symbolic state.
ghost use Rattle.std.specs.Prelude.{◌≡◌, IfOk};
ghost use Rattle.sym_state.specs.State as spec;
ghost use Rattle.sym_state.specs.Views.{state_of};

use bits64::Width;
use plain_data::{Items, Memory};
use rtx_tree::{Mode, Name};
use std::alloc::Global;
use sym_term::SymStores;
use term_sums::constant_term;
use term_tree::{Measured, Term};

/// A register that was changed.
#[derive(Drop)]
pub struct SymReg {
    /// The register's number, which is not 0.
    pub reg: u64,
    /// The bits that are known of it, or `None` where it is unset.
    pub value: Option<Measured>,
}

/// Registers that were changed, in increasing order.
pub type SymRegs = Items<SymReg>;

/// Where a run leads.
#[derive(Drop)]
pub struct SymJump {
    /// The condition, of 8 bits: 0 where it leads on to what follows.
    pub condition: Term,
    /// The label's uid, where there is a jump and its label stands for one.
    pub target: Option<u32>,
}

/// An argument of a call.
#[derive(Drop)]
pub struct SymArg {
    /// The register.
    pub reg: u8,
    /// The bits that are handed over.
    pub value: Term,
}

/// The arguments of a call.
pub type SymArgs = Items<SymArg>;

/// A call.
#[derive(Drop)]
pub struct SymCall {
    /// The address.
    pub target: Term,
    /// The mode in which the result is taken, where it is.
    pub result: Option<Mode>,
    /// The arguments.
    pub args: SymArgs,
}

/// What has to be there for a step to have a meaning.
#[derive(Drop)]
pub enum NeedOf {
    /// Known bits of a register, `width` of them.
    Register {
        /// The register's number.
        reg: u64,
        /// How many bits.
        width: Width,
    },
    /// More bits of a register than the same instructions or lines left known: nothing meets it.
    Lost {
        /// The register's number.
        reg: u64,
        /// How many bits.
        width: Width,
    },
    /// Memory at an address.
    Access {
        /// The address.
        address: Measured,
        /// How many bits.
        width: Width,
    },
    /// A divisor that is not 0.
    Divisor {
        /// The divisor.
        term: Measured,
    },
    /// An address of a symbol.
    Symbol {
        /// The symbol's name.
        name: Name,
    },
}

/// A need of an instruction or a line.
#[derive(Drop)]
pub struct SymNeed {
    /// The place of the instruction or line, counted from 0.
    pub index: u32,
    /// The need.
    pub what: NeedOf,
}

/// Needs in the order in which they were met.
pub type SymNeeds = Items<SymNeed>;

/// What instructions or lines come to.
#[derive(Drop)]
pub struct SymState {
    /// The registers that were changed.
    pub regs: SymRegs,
    /// The stores, in order.
    pub stores: SymStores,
    /// Where the run leads.
    pub jump: SymJump,
    /// The call, where there is one.
    pub call: Option<SymCall>,
    /// The needs.
    pub needs: SymNeeds,
}

impl SymState {
    /// The state before the first instruction or line.
    pub fn new(alloc: Global) -> SymState
        ensures { state_of result ≡ spec.start }
    {
        SymState {
            regs: Items::new(alloc),
            stores: Items::new(alloc),
            jump: SymJump {
                condition: constant_term(alloc, Width::W8, 0),
                target: None,
            },
            call: None,
            needs: Items::new(alloc),
        }
    }
}
