//! The predicates of a description.
//!
//! Which trees a predicate accepts in a mode is defined in `specs/Holds.antt`. [`PredTable::of`]
//! makes a table of the predicates that a description's forms define, and its `holds` answers for
//! them and for those that every description has. It takes no memory.
//!
//! Definitions may ask for one another in chains that have no limit. Where a question is made of
//! two others, the one with less behind it is answered first, by a call, and the other then takes
//! the question's place (`src/ask.rt`). A question for which more would be asked so than there are
//! questions, some of them again and again, is answered behind all that it is made of, each of them
//! once (`src/order.rt`). So calls are nested no deeper than the logarithm of the number of
//! questions that there are.
#![tactic(auto)]

mod answers;
mod ask;
mod definitions;
mod order;
mod step;
mod table;
mod weight;

pub use table::PredTable;
