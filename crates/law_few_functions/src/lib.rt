//! An input has no more functions than bytes.
//!
//! There is no code here. The law is `specs/Few.antt`'s.
#![tactic(auto)]
