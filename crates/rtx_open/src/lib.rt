//! Trees that are written out: expressions, conditions and tests.
//!
//! There is no code here and no definition that a clause cites. A tree's parts are abstract, so a
//! definition over trees does not compute on one that is written out, such as the sum of two
//! unknown parts. Each file of `proofs/` has a type of such trees on which everything computes, in
//! which any tree may stand as a part, the tree that each of them is, and the law that what is
//! gathered over the tree is what is gathered over it as it is written. It serves the laws of the
//! crates above.
#![tactic(auto)]
