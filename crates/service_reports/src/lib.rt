//! Reports of a service as texts: its rows, its log, what it has held, its programs and rules, whose answers changed, and what an
//! order would come to.
#![tactic(auto)]

mod changed;
mod lines;
mod previews;
mod programs;
mod reports;

pub use changed::changed_of;
pub use preview_core::{Service, Trial};
pub use previews::{Unshown, trial_shown};
pub use programs::programs_of;
pub use report_text::push_about;
pub use reports::{log_of, notices_of, rows_of};
