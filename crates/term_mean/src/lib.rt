//! What a term means, and its normal form.
//!
//! There is no code here. `specs/Meaning.antt` gives the number of a term under what registers,
//! symbols and memories hold. `specs/Normal.antt` gives the normal form: first that of the parts,
//! and then the rules of the head, each of which stands in a file of its own. The law,
//! `mean-normal` in `proofs/NormalLaws.antt`, is that a normal form has the number of its term,
//! wherever the memory behind each store is the one before it with the store's value written.
#![tactic(auto)]
