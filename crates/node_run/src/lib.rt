//! A run of nodes, from the first that listens to a stop. Each service has workers in threads: some serve requests, one repairs,
//! and one posts. When an operator asks to stop they are all joined, what they answered is compared with the journals, and the
//! services are brought to rest and judged.
#![tactic(auto)]

mod answering;
mod desks;
mod drawing;
mod ending;
mod jobs;
mod judging;
mod last;
mod looking;
mod refused;
mod resting;
mod run;
mod same;
mod settling;
mod shared;
mod starting;
mod stopping;
mod working;

pub use ending::Joined;
pub use judging::look_at_all;
pub use last::Last;
pub use node_core::Receipt;
pub use refused::RunRefused;
pub use run::run_nodes;
pub use service_core::Service;
