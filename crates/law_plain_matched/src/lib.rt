//! Which instructions of the plain profile a plain form matches as they stand.
//!
//! There is no code here. The law is `specs/Matched.antt`'s: a well-formed instruction of the plain
//! profile is a use or a clobber alone, or a plain form matches it before registers have homes, or it
//! is one of five that lowering makes by a standard name: a constant but 0 is stored; it is the second
//! operand of a difference, a product, a quotient or a remainder; it is compared for a branch; and a
//! comparison or a branch is of operands in SI.
#![tactic(auto)]
