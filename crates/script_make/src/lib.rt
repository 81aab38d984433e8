//! Scripts that are made of a number: requests over the services of `@posts`, some of them cancelled, and then settled.
#![tactic(auto)]

mod making;

pub use making::make_script;
