//! Which instructions need a form, and what conditions know.
//!
//! An instruction needs a form where it is none of labels, barriers, and a `use` or `clobber` alone
//! ([`needs_form`]). The facts are those of conditions before registers have homes and after
//! ([`lower_facts`], [`output_facts`]).
#![tactic(auto)]

mod facts;
mod needs;

pub use facts::{lower_facts, name_at, output_facts};
pub use md_desc::Description;
pub use needs::{is_kind, is_silent, needs_form};
