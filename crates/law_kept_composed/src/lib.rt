//! Functions that do what others do, one behind the other.
//!
//! There is no code here. The laws are that a function does what it does itself, that the relation
//! of `law_function_kept` is transitive (`proofs/Keeping.antt`), and that lines with the behaviour of the
//! second function have that of the first (`proofs/Lines.antt`): so passes are composed.
#![tactic(auto)]
