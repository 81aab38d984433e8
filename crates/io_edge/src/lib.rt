//! The outside as a program sees it: what it reads from, what it writes to, the files that it
//! loads, and a count of faults for each.
//!
//! A program takes a `Source`, a `Sink`, a `Connection` or `Files` and never opens a file or a
//! socket. Contracts speak of the bytes that are left, of all that there ever were, of those that
//! were written, and of those under each path, wherever the object tells them, and of its count of
//! faults always. A failed read, write or load shows in that count: it rises in the call, or stands
//! at the greatest `u64`.
//!
//! The versions in memory tell their bytes and fail at the calls that a test names. The adapters
//! over std's readers, writers and files tell none, and are what a running program uses.
#![tactic(auto)]

mod both;
mod files;
mod memory;
mod memory_files;
mod real_files;
mod streams;
mod told;
mod traits;
mod whole;

pub use both::MemoryConnection;
pub use files::{Files, LoadRefused};
pub use memory::{MemorySink, MemorySource};
pub use memory_files::{MemoryFile, MemoryFiles};
pub use real_files::RealFiles;
pub use streams::{Reading, Writing};
pub use traits::{Connection, Failed, Sink, Source};
pub use whole::{ReadRefused, read_all, write_all};
