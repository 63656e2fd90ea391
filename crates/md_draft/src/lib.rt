//! What a form of a machine description says by its own text.
//!
//! [`entry_of`] gives a form's head, its name, and its [`Draft`]: its parts by what its head has,
//! or the smallest [`Reason`] that its text alone gives, which is one of those up to preparation
//! statements outside. `specs/Layout.antt` says where the parts of a form stand, `specs/Draft.antt`
//! what each of them is, and `specs/Reasons.antt` which reasons apply. A form whose output is a block
//! in the compact syntax has the draft of the form without it (`specs/Compact.antt`). What the other
//! forms of the description define is not looked at here.
#![tactic(auto)]

mod compact;
mod condition;
mod draft;
mod entry;
mod head;
mod layout;
mod output;
mod pattern;
mod text;

pub use draft::{Attribute, Defined, Draft, DraftEntry, Matched, Output, Printed, Replacement};
pub use entry::entry_of;
pub use head::{FormHead, RegisterClass};
pub use md_pattern::{Judged, Reason};
