//! What comes to a service by messages, on its parts: a version of another service's call, a token that announces an answer to
//! one of its own, a fetch of an answer that it announced, and what comes back of a post. Each does what its event means, or runs out of memory and changes nothing, and leaves what always
//! holds of a service. What taking a version leaves is drafted before anything changes.
#![tactic(auto)]

mod admitting;
mod fetching;
mod giving;
mod hearing;
mod making;
mod noting;
mod posting;
mod posts;
mod take_applying;
mod take_changes;
mod take_drafts;
mod taking;

pub use giving::give;
pub use hearing::take_token;
pub use posting::posted;
pub use taking::take;
