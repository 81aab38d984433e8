// One connection served.
ghost use Rattle.std.specs.Prelude.{◌≡◌, None, Some, IsSome};
ghost use Rattle.std.specs.Option.{option_copied};
ghost use Rattle.http_front.specs.declared.message.FrontRefused.TheVariants.{ReadFault};
ghost use Rattle.io_edge.specs.Edge.{ReadFails};
ghost use Rattle.wire_bytes.specs.Hearing.{IsKnownMessage};
ghost use Rattle.aire_wire.specs.declared.incoming.Incoming.TheVariants.{Console as ConsoleSaid, Fetch as FetchSaid, Live as LiveSaid, Set as SetSaid, Token as TokenSaid};
ghost use Rattle.node_workers.specs.Asking.{MakesFor, MakesLive, MakesOne, MakesOnly, NotesOnlyRead};
ghost use Rattle.node_workers.specs.Calling.{CountsCalls};
ghost use Rattle.node_workers.specs.Desks.{at_desk};
ghost use Rattle.node_workers.specs.Posting.{Keeps};
ghost use Rattle.node_workers.specs.Serving.{client, IsServed, ServesMessage, ServesRequest};
ghost use Rattle.node_workers.specs.Written.{IsConsoleSo};

use crate::desk::Desk;
use crate::live::{Ending, live};
use crate::messages::{give, take, take_token};
use crate::operators::tell;
use crate::replies::write_last;
use admin_console::is_of_the_run;
use aire_wire::Incoming;
use io_edge::Connection;
use io_links::{Gate, Link};
use lang_core::{Copied, Inputs, Name, Origin, Request};
use node_core::Pass;
use node_exchanges::{Served, hear_on, refuse, refuse_unheard, say, say_known, say_no_memory};
use repair_messages::{Fetch, SetMessage, TokenMessage};
use std::alloc::Global;
use std::sync::Wait;
use std::sync::ledger::Ledger;
use wire_fields::ConsoleRequest;
use wire_replies::Outgoing;
use wire_words::{answer_told, arrive_told, give_told, take_told};

// ---- live requests

fn serve_live<R: Ledger, Q: Ledger, W: Wait, C: Connection, L: Link, G: Gate>(
    rt: &W,
    alloc: Global,
    desk: &Desk<R, Q>,
    pass: &mut Pass<Q>,
    conn: &mut C,
    link: &mut L,
    gate: &G,
    to: Option<&Name>,
    origin: Origin,
    request: Request,
    inputs: Inputs,
) -> Served
    requires none { pass.old.notes.begun ≡ None }
    requires to { option_copied to ≡ client origin }
    ensures served { ServesRequest (at_desk desk.now) inputs origin request (C.Source.reads conn.old) (C.Sink.writes conn.old) (C.Sink.writes conn.new) pass.new.notes pass.old.receipts.items pass.new.receipts.items result }
    ensures beside { C.Sink.beside conn.new ≡ C.Sink.beside conn.old }
    ensures makes { MakesLive (at_desk desk.now) origin request inputs pass.old.notes pass.new.notes pass.old.receipts.items pass.new.receipts.items (L.exchanges link.old) (L.exchanges link.new) }
    ensures closed { pass.new.notes.begun ≡ None }
    ensures counts { CountsCalls (at_desk desk.now) pass.old.notes pass.new.notes (L.exchanges link.old) (L.exchanges link.new) }
{
    match live(rt, alloc, desk, pass, link, gate, origin, request, inputs) {
        Ending::Committed(index) => write_last(pass, conn, index),
        Ending::Known(answer) => say_known(alloc, desk.setup, conn, to, answer),
        Ending::Refused(why) => {
            let (word, number) = arrive_told(why);
            refuse(alloc, desk.setup, conn, to, word, number)
        }
        Ending::Gone => Served::Gone,
        Ending::NoMemory => say_no_memory(alloc, desk.setup, conn, to),
    }
}

// The caller, the number and the request of a live call.
fn parts_of(set: SetMessage) -> (Name, u64, Request)
    requires { IsSome set.desired }
    ensures caller { result.0 ≡ set.caller }
    ensures number { result.1 ≡ set.number }
    ensures request { set.desired ≡ Some result.2 }
{
    let SetMessage {
        caller,
        dest: _,
        number,
        version: _,
        desired,
        before: _,
        after: _,
        who: _,
    } = set;
    match desired {
        Some(request) => (caller, number, request),
        None => unreachable!(),
    }
}

fn serve_call<R: Ledger, Q: Ledger, W: Wait, C: Connection, L: Link, G: Gate>(
    rt: &W,
    alloc: Global,
    desk: &Desk<R, Q>,
    pass: &mut Pass<Q>,
    conn: &mut C,
    link: &mut L,
    gate: &G,
    set: SetMessage,
    inputs: Inputs,
) -> Served
    requires none { pass.old.notes.begun ≡ None }
    requires asks { IsSome set.desired }
    ensures served { ServesMessage (at_desk desk.now) inputs (LiveSaid set) (C.Source.reads conn.old) (C.Sink.writes conn.old) (C.Sink.writes conn.new) pass.new.notes pass.old.receipts.items pass.new.receipts.items result }
    ensures beside { C.Sink.beside conn.new ≡ C.Sink.beside conn.old }
    ensures makes { MakesFor (at_desk desk.now) inputs (LiveSaid set) pass.old.notes pass.new.notes pass.old.receipts.items pass.new.receipts.items (L.exchanges link.old) (L.exchanges link.new) }
    ensures closed { pass.new.notes.begun ≡ None }
    ensures counts { CountsCalls (at_desk desk.now) pass.old.notes pass.new.notes (L.exchanges link.old) (L.exchanges link.new) }
{
    let Ok(to) = set.caller.copied(alloc) else {
        return Served::NoMemory;
    };
    let (caller, number, request) = parts_of(set);
    let origin = Origin::Call { caller, number };
    serve_live(
        rt,
        alloc,
        desk,
        pass,
        conn,
        link,
        gate,
        Some(&to),
        origin,
        request,
        inputs,
    )
}

// ---- other messages of peers

fn serve_set<R: Ledger, Q: Ledger, W: Wait, C: Connection>(
    rt: &W,
    alloc: Global,
    desk: &Desk<R, Q>,
    pass: &mut Pass<Q>,
    conn: &mut C,
    set: SetMessage,
    inputs: Inputs,
) -> Served
    requires fresh { pass.old.notes.gave ≡ None }
    requires dest { set.dest ≡ (at_desk desk.now).me }
    ensures served { ServesMessage (at_desk desk.now) inputs (SetSaid set) (C.Source.reads conn.old) (C.Sink.writes conn.old) (C.Sink.writes conn.new) pass.new.notes pass.old.receipts.items pass.new.receipts.items result }
    ensures beside { C.Sink.beside conn.new ≡ C.Sink.beside conn.old }
    ensures makes { MakesOne (at_desk desk.now).me inputs (SetSaid set) pass.old.notes pass.new.notes pass.old.receipts.items pass.new.receipts.items }
    ensures keeps { Keeps pass.old.notes pass.new.notes pass.old.receipts.items pass.new.receipts.items }
{
    let Ok(to) = set.caller.copied(alloc) else {
        return Served::NoMemory;
    };
    match take(rt, alloc, desk, pass, set, inputs) {
        Ok(Ok(taken)) => say(
            alloc,
            desk.setup,
            conn,
            Some(&to),
            &Outgoing::Ack(taken.ack),
        ),
        Ok(Err(why)) => {
            let (word, number) = take_told(why);
            refuse(alloc, desk.setup, conn, Some(&to), word, number)
        }
        Err(_) => say_no_memory(alloc, desk.setup, conn, Some(&to)),
    }
}

fn serve_token<R: Ledger, Q: Ledger, W: Wait, C: Connection>(
    rt: &W,
    alloc: Global,
    desk: &Desk<R, Q>,
    pass: &mut Pass<Q>,
    conn: &mut C,
    token: TokenMessage,
    inputs: Inputs,
) -> Served
    requires fresh { pass.old.notes.gave ≡ None }
    requires caller { token.caller ≡ (at_desk desk.now).me }
    ensures served { ServesMessage (at_desk desk.now) inputs (TokenSaid token) (C.Source.reads conn.old) (C.Sink.writes conn.old) (C.Sink.writes conn.new) pass.new.notes pass.old.receipts.items pass.new.receipts.items result }
    ensures beside { C.Sink.beside conn.new ≡ C.Sink.beside conn.old }
    ensures makes { MakesOne (at_desk desk.now).me inputs (TokenSaid token) pass.old.notes pass.new.notes pass.old.receipts.items pass.new.receipts.items }
    ensures keeps { Keeps pass.old.notes pass.new.notes pass.old.receipts.items pass.new.receipts.items }
{
    let Ok(to) = token.callee.copied(alloc) else {
        return Served::NoMemory;
    };
    match take_token(rt, alloc, desk, pass, token) {
        Ok(Ok(heard)) => say(
            alloc,
            desk.setup,
            conn,
            Some(&to),
            &Outgoing::Confirm(heard.confirm),
        ),
        Ok(Err(why)) => {
            let (word, number) = answer_told(why);
            refuse(alloc, desk.setup, conn, Some(&to), word, number)
        }
        Err(_) => say_no_memory(alloc, desk.setup, conn, Some(&to)),
    }
}

fn serve_fetch<R: Ledger, Q: Ledger, W: Wait, C: Connection>(
    rt: &W,
    alloc: Global,
    desk: &Desk<R, Q>,
    pass: &mut Pass<Q>,
    conn: &mut C,
    fetch: Fetch,
    inputs: Inputs,
) -> Served
    requires fresh { pass.old.notes.gave ≡ None }
    ensures served { ServesMessage (at_desk desk.now) inputs (FetchSaid fetch) (C.Source.reads conn.old) (C.Sink.writes conn.old) (C.Sink.writes conn.new) pass.new.notes pass.old.receipts.items pass.new.receipts.items result }
    ensures beside { C.Sink.beside conn.new ≡ C.Sink.beside conn.old }
    ensures makes { MakesOne (at_desk desk.now).me inputs (FetchSaid fetch) pass.old.notes pass.new.notes pass.old.receipts.items pass.new.receipts.items }
    ensures keeps { Keeps pass.old.notes pass.new.notes pass.old.receipts.items pass.new.receipts.items }
{
    let Ok(to) = fetch.caller.copied(alloc) else {
        return Served::NoMemory;
    };
    match give(rt, alloc, desk, pass, fetch) {
        Ok(Ok(answer)) => say_known(alloc, desk.setup, conn, Some(&to), answer),
        Ok(Err(why)) => {
            let (word, number) = give_told(why);
            refuse(alloc, desk.setup, conn, Some(&to), word, number)
        }
        Err(_) => say_no_memory(alloc, desk.setup, conn, Some(&to)),
    }
}

// ---- what operators ask

// What is asked of the run is handed on; what else an operator asks is told at this desk.
fn serve_console<R: Ledger, Q: Ledger, W: Wait, C: Connection>(
    rt: &W,
    alloc: Global,
    desk: &Desk<R, Q>,
    pass: &mut Pass<Q>,
    conn: &mut C,
    asked: ConsoleRequest,
    inputs: Inputs,
) -> Served
    requires fresh { pass.old.notes.gave ≡ None }
    ensures served { IsConsoleSo (at_desk desk.now) inputs asked pass.new.notes (C.Sink.writes conn.old) (C.Sink.writes conn.new) result }
    ensures beside { C.Sink.beside conn.new ≡ C.Sink.beside conn.old }
    ensures makes { MakesOne (at_desk desk.now).me inputs (ConsoleSaid asked) pass.old.notes pass.new.notes pass.old.receipts.items pass.new.receipts.items }
    ensures keeps { Keeps pass.old.notes pass.new.notes pass.old.receipts.items pass.new.receipts.items }
{
    if is_of_the_run(asked.word) {
        return Served::Console(asked);
    }
    tell(rt, alloc, desk, pass, conn, &asked, inputs)
}

// ---- all of it

// One message of those that a service hears, with what is known of it.
fn serve<R: Ledger, Q: Ledger, W: Wait, C: Connection, L: Link, G: Gate>(
    rt: &W,
    alloc: Global,
    desk: &Desk<R, Q>,
    pass: &mut Pass<Q>,
    conn: &mut C,
    link: &mut L,
    gate: &G,
    message: Incoming,
    inputs: Inputs,
) -> Served
    requires none { pass.old.notes.begun ≡ None }
    requires fresh { pass.old.notes.gave ≡ None }
    requires known { IsKnownMessage (at_desk desk.now).me (at_desk desk.now).secrets (at_desk desk.now).console message }
    ensures served { ServesMessage (at_desk desk.now) inputs message (C.Source.reads conn.old) (C.Sink.writes conn.old) (C.Sink.writes conn.new) pass.new.notes pass.old.receipts.items pass.new.receipts.items result }
    ensures beside { C.Sink.beside conn.new ≡ C.Sink.beside conn.old }
    ensures makes { MakesFor (at_desk desk.now) inputs message pass.old.notes pass.new.notes pass.old.receipts.items pass.new.receipts.items (L.exchanges link.old) (L.exchanges link.new) }
    ensures closed { pass.new.notes.begun ≡ None }
    ensures counts { CountsCalls (at_desk desk.now) pass.old.notes pass.new.notes (L.exchanges link.old) (L.exchanges link.new) }
{
    match message {
        Incoming::Outside(request) => serve_live(
            rt,
            alloc,
            desk,
            pass,
            conn,
            link,
            gate,
            None,
            Origin::Outside,
            request,
            inputs,
        ),
        Incoming::Live(set) => serve_call(rt, alloc, desk, pass, conn, link, gate, set, inputs),
        Incoming::Set(set) => serve_set(rt, alloc, desk, pass, conn, set, inputs),
        Incoming::Token(token) => serve_token(rt, alloc, desk, pass, conn, token, inputs),
        Incoming::Fetch(fetch) => serve_fetch(rt, alloc, desk, pass, conn, fetch, inputs),
        Incoming::Console(asked) => serve_console(rt, alloc, desk, pass, conn, asked, inputs),
    }
}

/// Serves one connection: reads one message, does what it asks, and writes what came of it. The pass has no notes of an
/// earlier turn, so what its notes show afterwards is of this one.
///
/// A live request is run, and its calls are made over the link, each between two events and without the node's lock; the
/// gate is told of each. The service is told of each just what came of it: what the reply's bytes spell, or that the exchange
/// failed; once more where there is no memory for that, and then its flight is given up. A flight that can't go on for want of
/// memory is given up, and none is open afterwards. However a live request ends, it makes no other event and no other exchange.
/// Where no message was read no event is made; a message of a peer is taken, an answer given to a peer that fetches it, and an
/// operator's order made, once at most; and what else an operator asks makes none. So no order is noted but the one that was read under the console's seal.
///
/// What is answered is said of the message that was read alone: behind a commit its receipt's reply, else what the service
/// answered to the message's own event, or why it didn't. An operator is told what came of the order, gets a report, or is told
/// that the body was ill. Who is told that memory was wanting for his message or order may know that none was taken and none
/// made. A service that isn't set up as the desk says, and a peer that the desk doesn't know, are answered as memory that lacks.
/// It may wait.
pub fn serve_one<R: Ledger, Q: Ledger, W: Wait, C: Connection, L: Link, G: Gate>(
    rt: &W,
    alloc: Global,
    desk: &Desk<R, Q>,
    pass: &mut Pass<Q>,
    conn: &mut C,
    link: &mut L,
    inputs: Inputs,
    gate: &G,
) -> Served
    requires none { pass.old.notes.begun ≡ None }
    requires fresh { (pass.old.notes.turn ≡ None) × (pass.old.notes.gave ≡ None) }
    ensures served { IsServed (at_desk desk.now) inputs (C.Source.reads conn.old) (C.Source.reads conn.new) (C.Sink.writes conn.old) (C.Sink.writes conn.new) pass.new.notes pass.old.receipts.items pass.new.receipts.items result }
    ensures calls { CountsCalls (at_desk desk.now) pass.old.notes pass.new.notes (L.exchanges link.old) (L.exchanges link.new) }
    ensures makes { MakesOnly (at_desk desk.now) inputs (C.Source.reads conn.old) (C.Source.reads conn.new) pass.old.notes pass.new.notes pass.old.receipts.items pass.new.receipts.items (L.exchanges link.old) (L.exchanges link.new) }
    ensures orders { NotesOnlyRead (at_desk desk.now) (C.Source.reads conn.old) (C.Source.reads conn.new) pass.old.notes.orders pass.new.notes.orders }
    ensures closed { pass.new.notes.begun ≡ None }
    ensures fault { result ≡ Served.FrontRefused ReadFault → ReadFails (C.Source.reads conn.old) (C.Source.reads conn.new) }
    ensures whole { (C.Source.reads conn.new).whole ≡ (C.Source.reads conn.old).whole }
{
    match hear_on(alloc, desk.setup, &desk.secrets, conn) {
        Err(why) => refuse_unheard(alloc, desk.setup, conn, why),
        Ok(message) => serve(rt, alloc, desk, pass, conn, link, gate, message, inputs),
    }
}
