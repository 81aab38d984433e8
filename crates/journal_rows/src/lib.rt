//! The journal of a service: a row for each thing that it asked, took, sent, saw and answered, and for each order. Rows
//! are never changed and never taken away. Beside them, what is said of the state of all services: the verdict of an
//! audit.
#![tactic(auto)]

mod callee;
mod caller;
mod keys;
mod orders;
mod programs;
mod row;
mod rows;
mod verdict;
mod versions;
mod weights;
mod words;

pub use callee::{AckedRow, AnsweredRow, AskedRow, TookHow, TookRow, WasConfirmedRow};
pub use caller::{AckHow, ConfirmedRow, NotedRow, SawAckRow, SawAnswerRow, SawHow, SentRow};
pub use lang_programs::ProgramText;
pub use orders::{About, Command, OrderedRow};
pub use row::Row;
pub use rows::Rows;
pub use verdict::{Outstanding, Verdict};
pub use weights::weight;
pub use words::Mark;
