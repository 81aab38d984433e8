//! What a service with calls keeps, part by part; what its rules decide of a repair; rows that are drafted beside it, with what they
//! change of the registers; and how such a draft is put in place.
//!
//! Beside them the laws of a service's events: a service that fits its journal fits it after each event; a repair step takes the
//! first stale entry, so that steps come to their end, and then the service is the replay of its requests. The type that keeps a
//! service is checked with them.
#![tactic(auto)]

mod answers;
mod applying;
mod asking;
mod draft;
mod entries;
mod limits;
mod noting;
mod numbers;
mod parts;
mod programs;
mod rows;
mod view;

pub use answers::{last_answer, past_answer};
pub use applying::{note_draft, push_rows, reserve, reserve_draft};
pub use asking::{decision_by, path_of};
pub use draft::{Draft, next_index, next_number, note, note_row, start, tell};
pub use entries::{
    amend, append, created, id_from, insert, next_id, request_from, request_of, rewrite, set_struck,
};
pub use limits::{MOST_PROGRAMS, is_crowded, is_heavy, is_programmed};
pub use noting::note_rows;
pub use numbers::next_of;
pub use parts::Parts;
pub use programs::program_for;
pub use rows::{change_rows, deleted, named, push_deleted, replaced};
pub use view::{DraftedRegisters, RegistersView, drafted};
