//! What services come to together: which of them are joined, which are quiet, and that services that fit their journals, joined
//! and quiet, are one legal execution of the requests that survive.
//!
//! There is no code here: the verdict over services is what the laws are for.
#![tactic(auto)]

pub use local_repair::Stepped;
