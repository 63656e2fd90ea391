//! What RTL is made of: trees of codes, modes, numbers, names and kids ([`Rtx`]), the instructions
//! and functions that hold them, the operands of a pattern ([`Operands`]), sets of registers
//! ([`RegSet`]), what a run begins with and meets outside ([`Start`], [`World`]), and what every
//! pass names in its answers ([`Name`], [`Place`], [`Limit`]).
//!
//! All of it is plain data in contracts: two trees are equal there exactly where they have the same
//! parts all the way down. So `same` is equality, `copy` gives an equal tree, and `size` counts the
//! nodes. Each name is that of its table, of a code, a mode, a register or a limit. Those
//! of codes, modes and registers are read back: `named` and `reg_number` find exactly what has a
//! name. A [`RegSet`] is the increasing list of its registers, and [`Memories`] has each address
//! once, in increasing order.
#![tactic(auto)]

mod class;
mod code;
mod constants;
mod function;
mod limit;
mod machine;
mod memories;
mod name;
mod operands;
mod place;
mod reg_set;
mod registers;
mod tree;

pub use class::{Class, HeadMode, Parts};
pub use code::{Code, Mode};
pub use constants::Constant;
pub use function::{
    ArgUse, ArgUses, Function, Functions, Insn, Insns, Kind, copy_insns, is_label, label_place,
};
pub use limit::{
    Limit, MOST_APART, MOST_BYTES, MOST_COMBINED, MOST_CYCLES, MOST_FORMS, MOST_FRAME, MOST_IMAGE,
    MOST_INSTRUCTIONS, MOST_LATENCY, MOST_LEVELS, MOST_MADE, MOST_NODES, MOST_OPEN, MOST_OUTPUT,
    MOST_PSEUDOS, MOST_REUSED, MOST_SCHEDULED, MOST_SPLITS, MOST_TIMES, MOST_TRIED, MOST_UNITS,
    MOST_WAYS, MOST_WITHIN,
};
pub use machine::{ByteWrites, RangeAt, Ranges, Replies, Reply, Start, SymbolAt, Symbols, World};
pub use memories::{MemByte, Memories};
pub use name::Name;
pub use operands::Operands;
pub use place::Place;
pub use reg_set::RegSet;
pub use registers::{
    FIRST_PSEUDO, HARD_REGS, VIRTUAL_STACK_VARS, print_register, pseudo, reg_call_used, reg_name,
    reg_number,
};
pub use tree::{Kids, Path, Rtx, same, same_head};
