// What is kept of an event while the service makes it.
ghost use Rattle.std.specs.Prelude.{◌≡◌, IfOk, OnErr};
ghost use Rattle.service_events.specs.declared.event.Event.TheVariants as events;
ghost use Rattle.node_core.specs.Doings.{AsksMemory};
ghost use Rattle.node_core.specs.Memos.{memo_of};
ghost use Rattle.node_core.specs.Notes.{post_name};
ghost use Rattle.node_core.specs.declared.memos.Memo.TheVariants as memos;

use call_registers::Why;
use journal_rows::Command;
use lang_core::{Copied, Inputs, Name, NoMemory, Origin, Request, Text};
use repair_messages::{Fetch, Post, PostName, SetMessage, TokenMessage, copied_pair};
use service_events::Event;
use std::alloc::Global;

/// What is kept of an event, which the service takes: so much as its notes and a receipt are made of.
#[derive(Drop)]
pub(crate) enum Memo {
    /// A live request arrives.
    Arrival {
        origin: Origin,
        request: Request,
        inputs: Inputs,
    },
    /// The call for which the open flight waits was answered.
    Answered,
    /// It got no answer.
    Failed(Why),
    /// The open flight is given up.
    Abandoned,
    /// A message or an order, which is noted with its answer.
    Given(Event),
    /// Which post goes to this service next is asked.
    NextPost(Name),
    /// Something came back of the post of this name.
    Posted(PostName),
    /// Nothing is noted of it.
    Nothing,
}

fn arrival(
    alloc: Global,
    origin: &Origin,
    request: &Request,
    inputs: Inputs,
) -> Result<Memo, NoMemory>
    ensures { IfOk result (λ memo. memo ≡ memos.Arrival origin.now request.now inputs) }
{
    let (origin, request) = copied_pair(alloc, origin, request)?;
    Ok(Memo::Arrival {
        origin,
        request,
        inputs,
    })
}

fn take(alloc: Global, set: &SetMessage, inputs: Inputs) -> Result<Memo, NoMemory>
    ensures { IfOk result (λ memo. memo ≡ memos.Given (events.Take set.now inputs)) }
{
    let set = set.copied(alloc)?;
    Ok(Memo::Given(Event::Take { set, inputs }))
}

fn take_token(alloc: Global, token: &TokenMessage) -> Result<Memo, NoMemory>
    ensures { IfOk result (λ memo. memo ≡ memos.Given (events.TakeToken token.now)) }
{
    let token = token.copied(alloc)?;
    Ok(Memo::Given(Event::TakeToken { token }))
}

fn give(alloc: Global, fetch: &Fetch) -> Result<Memo, NoMemory>
    ensures { IfOk result (λ memo. memo ≡ memos.Given (events.Give fetch.now)) }
{
    let fetch = fetch.copied(alloc)?;
    Ok(Memo::Given(Event::Give { fetch }))
}

fn next_post(alloc: Global, dest: &Name) -> Result<Memo, NoMemory>
    ensures { IfOk result (λ memo. memo ≡ memos.NextPost dest.now) }
{
    let dest = dest.copied(alloc)?;
    Ok(Memo::NextPost(dest))
}

fn order(
    alloc: Global,
    command: &Command,
    token: &Text,
    who: &Text,
    inputs: Inputs,
) -> Result<Memo, NoMemory>
    ensures { IfOk result (λ memo. memo ≡ memos.Given (events.Order command.now token.now who.now inputs)) }
{
    let (token, who) = copied_pair(alloc, token, who)?;
    match command.copied(alloc) {
        Ok(command) => Ok(Memo::Given(Event::Order {
            command,
            token,
            who,
            inputs,
        })),
        Err(why) => Err(why),
    }
}

fn post_name(post: &Post) -> PostName
    ensures { result ≡ post_name post.now }
{
    match post {
        Post::Set(set) => PostName::Call(set.number),
        Post::Token(token) => PostName::Reply(token.id),
        Post::Fetch(fetch) => PostName::Fetch(fetch.number),
    }
}

/// What is kept of this event.
pub(crate) fn memo_of(alloc: Global, event: &Event) -> Result<Memo, NoMemory>
    ensures memo { IfOk result (λ memo. memo ≡ memo_of event.now) }
    ensures memory { OnErr result (AsksMemory event.now) }
{
    match event {
        Event::Arrive {
            origin,
            request,
            inputs,
        } => arrival(alloc, origin, request, *inputs),
        Event::CallAnswered { .. } => Ok(Memo::Answered),
        Event::CallFailed { why, .. } => Ok(Memo::Failed(*why)),
        Event::Abandon { .. } => Ok(Memo::Abandoned),
        Event::Take { set, inputs } => take(alloc, set, *inputs),
        Event::TakeToken { token } => take_token(alloc, token),
        Event::Give { fetch } => give(alloc, fetch),
        Event::NextPost { dest } => next_post(alloc, dest),
        Event::Posted { post, .. } => Ok(Memo::Posted(post_name(post))),
        Event::WritePost { .. } | Event::Step => Ok(Memo::Nothing),
        Event::Order {
            command,
            token,
            who,
            inputs,
        } => order(alloc, command, token, who, *inputs),
    }
}
