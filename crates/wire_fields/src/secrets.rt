// The secrets of a service's peers.
use crate::named::ByName;
use lang_core::Text;

/// The secret with which each of a service's peers seals, under the peer's name.
pub type Secrets = ByName<Text>;
