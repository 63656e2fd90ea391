//! What the predicates of a description are, in the words of its trees, and what the texts of its
//! conditions and statements are, in those of a grammar.
//!
//! There is no code here. `specs/Accepted.antt` says which predicates are accepted, by no rounds;
//! `specs/Meaning.antt` what the tests of definitions are, which definitions are set aside, and
//! which operands predicates accept; `specs/Texts.antt` what a text is read as. The laws are that
//! this is what the definitions of `pred_expr`, `md_forms` and `md_pred` give.
#![tactic(auto)]
