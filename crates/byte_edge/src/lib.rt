//! The outside of the program: where bytes come from ([`Source`]), where they go to ([`Sink`]) and
//! where files come from ([`Files`]), each with a count of its faults.
//!
//! An object tells, where it can, which bytes it holds, so that a caller can promise what it makes
//! of them. A call answers `Failed` only where the object's count of faults rose in that call, so
//! that a caller can promise success where no count rose. [`read_all`] reads a source to its end
//! within a limit, and [`write_all_of`] writes all, or after a fault a front.
//!
//! [`ByteSource`], [`ByteSink`] and [`ByteFiles`] stand in memory, and chosen calls of theirs fail.
//! [`QuietSource`], [`QuietSink`] and [`QuietFiles`] never fail. [`StdSource`], [`StdSink`] and
//! [`DiskFiles`] reach the system: they count their failures and tell no bytes, since no contract
//! can say what a stream or a disk holds.
#![tactic(auto)]

mod byte_files;
mod byte_sink;
mod byte_source;
mod calls;
mod disk_files;
mod files;
mod held;
mod quiet;
mod quiet_files;
mod sink;
mod source;
mod stored;
mod streams;

pub use byte_files::ByteFiles;
pub use byte_sink::ByteSink;
pub use byte_source::ByteSource;
pub use disk_files::DiskFiles;
pub use files::{FetchFault, Files};
pub use quiet::{QuietSink, QuietSource};
pub use quiet_files::QuietFiles;
pub use sink::{Sink, write_all_of};
pub use source::{Failed, ReadAll, Source, read_all};
pub use streams::{StdSink, StdSource};
