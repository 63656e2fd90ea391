//! What a form emits where no register may be made names registers of the machine alone.
//!
//! There is no code here. `specs/Hard.antt` says of which trees, operands and emissions that is
//! asked. The laws, in `proofs/`, are that the patterns of a description's forms name no others
//! (`Patterns`, `Forms`); that the operands with which patterns match such instructions don't
//! (`Found`); that what patterns make of such operands doesn't (`Instances`), and what preparation
//! statements do with them (`Values`); and so that what a form of a description emits doesn't
//! (`Emitted`).
#![tactic(auto)]
