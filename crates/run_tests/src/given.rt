// Assertions, worlds and their services, and what clients and operators send.
ghost use Rattle.std.specs.Prelude.{◌≡◌, IfOk, IfSome, length, vec_len};
ghost use Rattle.aire_top.specs.HandedOn.{AreApart};

use aire_top::Service;
use io_links::MemoryNetwork;
use lang_core::{Bytes, Copied, NoMemory};
use std::alloc::Global;
use std::process::Abort;
use std::sync::Wait;
use std::time::{Clock, Duration};
use world_file::{Setup, built_in};

/// What stops the shop, from its operator.
pub const STOP: &str =
    "POST /aire/console/stop HTTP/1.1\r\nAire-Dest: shop\r\nAire-Who: root\r\nAire-Seal: f24185c58e16306e1f1d3c1c8a86bbfc0d11526fc4e32807f9e702c437c893cb\r\nContent-Length: 2\r\n\r\n{}";

/// What asks the shop for the verdict.
pub const AUDIT: &str =
    "POST /aire/console/audit HTTP/1.1\r\nAire-Dest: shop\r\nAire-Who: root\r\nAire-Seal: 94d7dc13da2b0d55dd2e2b83962edf4fc42b6f7ede5b294f7101763d4ec9391d\r\nContent-Length: 2\r\n\r\n{}";

/// This is so, in a case that has this name.
pub fn holds(rt: &impl Abort, case: &str, is_so: bool) {
    assert!(rt; is_so, "{case}");
}

/// More time than a test takes.
pub fn patience() -> Duration {
    Duration::from_secs(60)
}

/// The call that fails; none where it is 0.
pub fn failing(rt: &(impl Abort + AllocGlobal), call: u64) -> Vec<u64> {
    vec![in rt.alloc(); call].expect(rt, "memory")
}

// The world that comes with the program under this word.
fn found(alloc: Global, word: &str) -> Option<Vec<Setup>>
    ensures { IfSome result (λ setups. AreApart setups.items) }
{
    match built_in(alloc, word) {
        Ok(Some(setups)) => Some(setups),
        _ => None,
    }
}

/// A world that comes with the program.
pub fn world(rt: &(impl Abort + AllocGlobal), word: &str) -> Vec<Setup>
    ensures { AreApart result.items }
{
    match found(rt.alloc(), word) {
        Some(setups) => setups,
        None => panic!(rt; "{word}"),
    }
}

// Services that are set up so and have answered nothing yet.
fn services_of(alloc: Global, setups: &[Setup]) -> Result<Vec<Service>, NoMemory>
    ensures { IfOk result (λ services. vec_len services ≡ length setups.now) }
{
    let mut services = Vec::new(alloc);
    for setup in setups {
        let setting = setup.setting.copied(alloc)?;
        let rules = setup.rules.copied(alloc)?;
        services.push(Service::new(alloc, setting, rules)?)?;
    }
    Ok(services)
}

/// Services that are set up so and have answered nothing yet.
pub fn new_services(rt: &(impl Abort + AllocGlobal), setups: &[Setup]) -> Vec<Service>
    ensures { vec_len result ≡ length setups.now }
{
    match services_of(rt.alloc(), setups) {
        Ok(services) => services,
        Err(_) => panic!(rt; "memory"),
    }
}

/// What comes back to who sends this to a door.
pub fn call_at<R: Abort + AllocGlobal + Wait + Clock>(
    rt: &R,
    network: &MemoryNetwork,
    door: &str,
    request: &str,
) -> Option<Bytes> {
    network.call(rt, rt.alloc(), door, request.as_bytes()).ok()
}

/// What comes back to who sends this to the first service of a world.
pub fn call<R: Abort + AllocGlobal + Wait + Clock>(
    rt: &R,
    network: &MemoryNetwork,
    request: &str,
) -> Option<Bytes> {
    call_at(rt, network, "127.0.0.1:8101", request)
}

/// Whether what came back has this status and this body.
pub fn replies(reply: &Option<Bytes>, status: &str, body: &str) -> bool {
    match reply {
        Some(bytes) => {
            let all = bytes.as_slice();
            all.starts_with(status.as_bytes()) && all.ends_with(body.as_bytes())
        }
        None => false,
    }
}
