//! One order for a whole world: whether the services of a dump could have run as one program, root by root, each call in
//! place.
//!
//! It stands on the dump and on the meaning of the handler language, and on nothing that repairs.
#![tactic(auto)]

mod certificates;
mod checking;
mod finding;
mod logs;
mod orders;
mod pairs;
mod played;
mod playing;
mod roots;
mod searching;
mod showing;
mod walking;
mod worlds;

pub use certificates::{Certificate, OneRefused, find_order};
pub use dump_audit::Judged;
pub use dump_tables::{Dump, DumpEntry, DumpService};
pub use lang_core::RequestId;
pub use one_world::Rows;
pub use orders::{Ids, check_order};
pub use worlds::one_run;
