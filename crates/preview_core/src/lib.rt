//! A preview of a repair: what would run again if some orders were given to a service, which rows would change, and whom the
//! service would tell. It is made on a copy, so that the service stays as it is.
#![tactic(auto)]

mod difference;
mod posts;
mod previewing;
mod ready;
mod refused;
mod responses;
mod stepping;
mod told;
mod trial;
mod trying;

pub use previewing::preview;
pub use refused::PreviewRefused;
pub use service_core::{ProgramInUse, Service};
pub use told::{PostList, PostOne, Preview, RanList, RanOne};
pub use trial::{Trial, Trials};
