// What came of an event, as settling looks at it.
ghost use Rattle.std.specs.Prelude.{◌≡◌};
ghost use Rattle.world_settle.specs.Settles.{is_done, is_post, is_run};

use local_repair::Stepped;
use service_events::Posted;
use world_core::What;

/// What came of an event.
#[derive(Clone, Copy)]
pub(crate) struct Came {
    /// An entry ran again.
    pub ran: bool,
    /// The sender of a post has it acknowledged or confirmed, or holds it.
    pub is_done: bool,
    /// The number of the packet that was written.
    pub packet: Option<u64>,
}

/// Whether an entry ran again; a step that is idle is no run.
pub(crate) fn is_run(what: What) -> bool
    ensures { result ≡ is_run what }
{
    match what {
        What::RepairStep(Stepped::Ran { .. }) => true,
        _ => false,
    }
}

/// Whether a post was written.
pub(crate) fn is_post(what: What) -> bool
    ensures { result ≡ is_post what }
{
    match what {
        What::NextPost(Some(_)) => true,
        _ => false,
    }
}

/// Whether its sender has a post acknowledged or confirmed, or holds it.
pub(crate) fn is_done(what: What) -> bool
    ensures { result ≡ is_done what }
{
    match what {
        What::Posted(Ok(Posted::Acked | Posted::Confirmed | Posted::Saw | Posted::Held)) => true,
        _ => false,
    }
}
