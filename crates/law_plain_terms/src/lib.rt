//! What the lines of the plain rows compute is what their instructions compute.
//!
//! There is no code here. A plain form prints one line or two. Each of these laws is that the low
//! bits of what a row's lines leave in the register are the term of its instruction, for all
//! registers and constants (`specs/Rows.antt`, the other files of `proofs/`), and that the terms
//! of both are within the limit of a comparison (`proofs/Small*.antt`).
#![tactic(auto)]
