// Taking leave of the operator who asked to stop.
ghost use Rattle.std.specs.Prelude.{◌≡◌, IfOk};
ghost use Rattle.node_run.specs.Stopping.{stop_bytes, IsUnwritten, WasAskedToStop};

use crate::last::Last;
use http_front::response_bytes;
use io_edge::{Connection, write_all};
use lang_base::both;
use lang_core::{Bytes, Copied, Name, NoMemory, Text};
use std::alloc::Global;
use wire_bytes::console_reply;
use world_file::Setup;

// The reply to a request to stop.
fn stop_bytes(alloc: Global) -> Result<Bytes, NoMemory>
    ensures { IfOk result (λ bytes. bytes ≡ stop_bytes) }
{
    let json = Text::of(alloc, "{\"stopped\":true}")?;
    let response = console_reply(alloc, json)?;
    response_bytes(alloc, &response)
}

#[tactic(auto, using(crate::proofs::StoppingLemmas::replied_with))]
fn replied<C: Connection>(mut conn: C, service: Name, console: Text, reply: &Bytes) -> Last<C>
    requires asked { WasAskedToStop service console (C.Source.reads conn) }
    requires untold { IsUnwritten (C.Source.reads conn) (C.Sink.writes conn) }
    requires reply { reply.now ≡ stop_bytes }
{
    let _ = write_all(&mut conn, reply.as_slice());
    Last {
        conn,
        service,
        console,
    }
}

/// Replies to a request to stop. Where there is no memory for that, nothing is written.
pub fn last_of<C: Connection + Drop>(
    alloc: Global,
    setup: &Setup,
    conn: C,
) -> Result<Last<C>, NoMemory>
    requires asked { WasAskedToStop setup.now.setting.me setup.now.console (C.Source.reads conn) }
    requires untold { IsUnwritten (C.Source.reads conn) (C.Sink.writes conn) }
{
    let reply = stop_bytes(alloc)?;
    let (service, console) = both(setup.setting.me.copied(alloc), setup.console.copied(alloc))?;
    Ok(replied(conn, service, console, &reply))
}
