//! A function and what is live in it, kept while windows of its chain are replaced.
//!
//! A [`LiveChain`] answers which registers are live after a place of its function, which numbers the
//! function's uids and its pseudo registers leave free, and how many instructions it has, and puts
//! new instructions in the place of a window. Where they are as many or fewer, all that takes memory
//! can be made first ([`LiveChain::rows_for`]), and they are put in then without any
//! ([`LiveChain::fuse`]). Contracts see the function alone. What was computed for an answer is kept
//! for the next ones. Where a window is replaced, what is live outside it is
//! kept if the old and the new window are the same from outside (`specs/machine/Window.antt`): they
//! ask for the same registers, define the same of the others that are live behind, and lead to the
//! same places. Then what is live within follows from what is live behind. Where they differ in some
//! registers, both windows are seen with what stands around them in the block: behind them so far as
//! it asks for some of these registers, which are live there whichever window stands, and in front of
//! them up to where each of the others is used or defined. These are wider windows that are the same
//! from outside. Else what is live is forgotten, and computed anew at the next question.
#![tactic(auto)]

mod behind;
mod chain;
mod demand;
mod kept;
mod leads;
mod lent;
mod narrow;
mod numbers;
mod room;
mod sets;
mod settled;
mod wide;
mod window;
mod within;

pub use chain::LiveChain;
pub use kept::WindowRows;
