//! What operators ask of one service, and what they are replied.
#![tactic(auto)]

mod answering;
mod asking;
mod desk;
mod fields;
mod previews;
mod replies;
mod reports;

pub use answering::{answer, carry_out};
pub use asking::{Asked, Report, asked_in, is_of_the_run};
pub use desk::Orders;
pub use previews::{trial_reply, tried_in};
pub use replies::{bad, fault_reply, report_reply};
pub use service_reports::{Service, Trial};
