// What is heard on a connection, and what is said where nothing is.
ghost use Rattle.std.specs.Prelude.{◌≡◌, IfOk, IsErrOf};
ghost use Rattle.http_front.specs.declared.message.FrontRefused.TheVariants.{ReadFault};
ghost use Rattle.io_edge.specs.Edge.{ReadFails};
ghost use Rattle.wire_bytes.specs.Hearing.{IsHeardFrom, IsKnownMessage, TakenSays};
ghost use Rattle.wire_bytes.specs.declared.hearing.Unheard.TheVariants.{Front as FrontUnheard, Wire as WireUnheard};
ghost use Rattle.node_exchanges.specs.Replies.{instead, IsRefusedSo};

use crate::replies::refuse;
use crate::served::Served;
use aire_wire::Incoming;
use http_front::FrontRefused;
use io_edge::Connection;
use std::alloc::Global;
use wire_bytes::{Unheard, hear};
use wire_fields::{Secrets, WireRefused};
use wire_words::{front_word, wire_word};
use world_file::Setup;

/// What is heard on a connection of the service that is set up so, whose peers have these secrets. Nothing is written.
pub fn hear_on<C: Connection>(
    alloc: Global,
    setup: &Setup,
    secrets: &Secrets,
    conn: &mut C,
) -> Result<Incoming, Unheard>
    ensures heard { IsHeardFrom setup.now.setting.me secrets.now setup.now.console (C.Source.reads conn.old) (C.Source.reads conn.new) result }
    ensures alone { IfOk result (TakenSays setup.now.setting.me secrets.now setup.now.console (C.Source.reads conn.old) (C.Source.reads conn.new)) }
    ensures known { IfOk result (IsKnownMessage setup.now.setting.me secrets.now setup.now.console) }
    ensures fault { IsErrOf result (FrontUnheard ReadFault) → ReadFails (C.Source.reads conn.old) (C.Source.reads conn.new) }
    ensures whole { (C.Source.reads conn.new).whole ≡ (C.Source.reads conn.old).whole }
    ensures writes { C.Sink.writes conn.new ≡ C.Sink.writes conn.old }
{
    hear(alloc, conn, &setup.setting.me, secrets, &setup.console)
}

fn instead(said: Served, answer: Served) -> Served
    ensures { result ≡ instead said answer }
{
    match said {
        Served::Said(_) => answer,
        other => other,
    }
}

// The word that tells why the bytes are no HTTP request, where there is one, goes to whoever sent them.
fn refuse_bytes<C: Connection>(
    alloc: Global,
    setup: &Setup,
    conn: &mut C,
    why: FrontRefused,
) -> Served
    ensures served { IsRefusedSo (FrontUnheard why) (C.Sink.writes conn.old) (C.Sink.writes conn.new) result }
    ensures beside { C.Sink.beside conn.new ≡ C.Sink.beside conn.old }
{
    match front_word(why) {
        None => Served::FrontRefused(why),
        Some(word) => instead(
            refuse(alloc, setup, conn, None, word, 0),
            Served::FrontRefused(why),
        ),
    }
}

// Likewise where the request is no message.
fn refuse_request<C: Connection>(
    alloc: Global,
    setup: &Setup,
    conn: &mut C,
    why: WireRefused,
) -> Served
    ensures served { IsRefusedSo (WireUnheard why) (C.Sink.writes conn.old) (C.Sink.writes conn.new) result }
    ensures beside { C.Sink.beside conn.new ≡ C.Sink.beside conn.old }
{
    let said = refuse(alloc, setup, conn, None, wire_word(why), 0);
    instead(said, Served::WireRefused(why))
}

/// The word that tells why nothing was heard goes to whoever sent the bytes, where there is one.
pub fn refuse_unheard<C: Connection>(
    alloc: Global,
    setup: &Setup,
    conn: &mut C,
    why: Unheard,
) -> Served
    ensures served { IsRefusedSo why (C.Sink.writes conn.old) (C.Sink.writes conn.new) result }
    ensures beside { C.Sink.beside conn.new ≡ C.Sink.beside conn.old }
{
    match why {
        Unheard::Front(why) => refuse_bytes(alloc, setup, conn, why),
        Unheard::Wire(why) => refuse_request(alloc, setup, conn, why),
    }
}
