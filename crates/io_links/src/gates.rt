// What a worker passes around each call to a peer.
use lang_core::Name;

/// Is told of each call that a request worker makes to a peer, so that a test can hold one while
/// others go on. No contract speaks of it.
pub trait Gate {
    /// A call to this service is about to be made. It may be kept waiting.
    fn call_starts(&self, dest: &Name);

    /// The call to this service came to its end.
    fn call_ends(&self, dest: &Name);
}

/// The program's gate, which holds nobody up.
#[derive(Clone, Copy, Drop)]
pub struct OpenGate;

impl Gate for OpenGate {
    fn call_starts(&self, _dest: &Name) {}

    fn call_ends(&self, _dest: &Name) {}
}
