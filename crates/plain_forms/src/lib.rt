//! The plain forms: those of the shipped description, written out as what each says.
//!
//! There is no code here. `specs/Forms.antt` has the list, in the description's order and with the
//! values of its iterators put in; `Makers`, `Parts` and `Conditions` are what it is written with.
//! It is written without reading the description's text, so that laws on these forms need not read
//! it. The laws of `proofs/Listed.antt` are how many there are, and under which heads and names.
//! That the text has these forms is not proved.
#![tactic(auto)]
