//! A window of a function, replaced by a sequence that is equated with it.
//!
//! [`replace_window`] makes instructions of a sequence of patterns in the place of a window, as of
//! its last, compares them with the window over the registers that are live behind it, and puts
//! them into its place where they are equated with it (`specs/Window.antt`). A function that would
//! have too many instructions then is refused before, with their number. Else it refuses with what
//! the comparison tells; and the function stays as it is.
#![tactic(auto)]

mod replace;

pub use replace::replace_window;
