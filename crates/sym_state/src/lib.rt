//! The symbolic state of a list of instructions or of lines: what they come to, as terms in normal
//! form over what registers, symbols and memory were before the first of them.
//!
//! A [`SymState`] has the registers that were changed, the stores, the jump, the call and the
//! needs. Here a register is read ([`read`], [`read_need`]), set or unset ([`put`],
//! [`leave_by_call`]), and a state is seen to be within the limit of terms
//! ([`SymState::is_within`]); and terms are made by one step of the rules, for instructions and
//! lines alike. Each call gives what its definition gives, unless memory runs out.
#![tactic(auto)]

mod limits;
mod makers;
mod refusal;
mod registers;
mod state;
mod terms;

pub use makers::{Comparison, one, related, term_of};
pub use refusal::SymRefusal;
pub use registers::{held, leave_by_call, put, read, read_need};
pub use state::{
    NeedOf, SymArg, SymArgs, SymCall, SymJump, SymNeed, SymNeeds, SymReg, SymRegs, SymState,
};
pub use terms::{own_register, own_symbol};
