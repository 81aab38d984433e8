// How long what goes over a network may take.
ghost use Rattle.std.specs.Prelude.{◌≡◌};
ghost use Rattle.io_links.specs.Times.{exchange_millis};

/// How long each thing that goes over a connection may take, in milliseconds: the head of a request, the rest of it, a reply from
/// when it is there, and a whole exchange with a peer for which no request waits.
pub const PATIENCE: u64 = 10_000;

/// How much less time an exchange has for each service in the chain of what it sends, in milliseconds. So long a service has to
/// answer its own caller once its call is lost.
const LESS_BY_SERVICE: u64 = 500;

/// How many services of a chain count, so that an exchange has a second at least. No chain is that long: a world has at most 16
/// services, and none stands in a chain twice.
const MOST_SERVICES: usize = 18;

/// How long an exchange may take, in milliseconds, that sends a request with so many services in its chain, the sender among
/// them: 10 seconds less half a second for each. Where a peer never answers, the call to it is so lost before the one for which
/// it was made, and each handler's answer still reaches who waits for it.
pub fn exchange_millis(services: usize) -> u64
    ensures { result ≡ exchange_millis services }
{
    let counted = services.min(MOST_SERVICES) as u64;
    PATIENCE - LESS_BY_SERVICE * counted
}
