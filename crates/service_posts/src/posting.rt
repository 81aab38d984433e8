// The post that goes next, and its message.
ghost use Rattle.std.specs.Prelude.{◌≡◌, None, Some, IfOk, IfSome, IsSome, IsSomeAnd};
ghost use Rattle.service_events.specs.Ages.{GoesFirst};
ghost use Rattle.service_events.specs.Posts.{calls_to, fetch_message, fetch_post, next_of, next_post, previous_of, set_message, token_message, token_post, where_new, write_post};
ghost use Rattle.service_parts.specs.Parts.{kept};
ghost use Rattle.service_posts.specs.Goes.{GoesTo};
ghost use Rattle.service_parts.specs.Services.{IsService};
ghost use Rattle.call_registers.specs.Registers.{register};
ghost use Rattle.call_registers.specs.Replies.{reply};

use crate::beside::{Neighbours, neighbours_of};
use call_registers::{Register, Reply};
use lang_core::{Copied, Name, NoMemory};
use repair_messages::{Fetch, Post, PostName, SetMessage, TokenMessage, copied_pair};
use repair_queue::next;
use service_parts::Parts;
use std::alloc::Global;

/// The post that goes to this service next: the oldest that is outstanding; None exactly where none is. It has a message,
/// which goes there. It takes no memory.
pub fn next_post(parts: &Parts, dest: &Name) -> Option<PostName>
    requires { IsService parts.now }
    ensures next { result ≡ next_post dest.now (kept parts.now) }
    ensures first { IfSome result (λ name. GoesFirst dest.now (kept parts.now) name) }
    ensures goes { IfSome result (λ name. IsSomeAnd (write_post (kept parts.now) name) (GoesTo dest.now)) }
{
    next(
        &parts.registers,
        &parts.replies,
        parts.flights.as_slice(),
        dest,
    )
}

// ---- the message of a call

// A new call names its neighbours among the calls to the same service.
fn where_new(parts: &Parts, register: &Register) -> Neighbours
    requires { IsService parts.now }
    ensures before { result.before ≡ where_new register.now (next_of register.now.number (calls_to register.now.dest (kept parts.now))) }
    ensures after { result.after ≡ where_new register.now (previous_of register.now.number (calls_to register.now.dest (kept parts.now))) }
{
    if register.version == 1 {
        neighbours_of(parts, &register.dest, register.number)
    } else {
        Neighbours {
            before: None,
            after: None,
        }
    }
}

fn set_message(alloc: Global, parts: &Parts, register: &Register) -> Result<SetMessage, NoMemory>
    requires { IsService parts.now }
    ensures { IfOk result (λ set. set ≡ set_message (kept parts.now) register.now) }
{
    let (caller, dest) = copied_pair(alloc, &parts.setting.me, &register.dest)?;
    let (desired, who) = copied_pair(alloc, &register.desired, &register.repair_who)?;
    let Neighbours { before, after } = where_new(parts, register);
    Ok(SetMessage {
        caller,
        dest,
        number: register.number,
        version: register.version,
        desired,
        before,
        after,
        who,
    })
}

fn write_call(alloc: Global, parts: &Parts, number: u64) -> Result<Post, NoMemory>
    requires service { IsService parts.now }
    requires there { IsSome (register number parts.now.registers.list) }
    ensures { IfOk result (λ post. write_post (kept parts.now) (PostName.Call number) ≡ Some post) }
{
    let register = parts.registers.get(number).unwrap();
    let set = set_message(alloc, parts, register)?;
    Ok(Post::Set(set))
}

// ---- the token of an answer

fn token_message(alloc: Global, parts: &Parts, reply: &Reply) -> Result<TokenMessage, NoMemory>
    ensures { IfOk result (λ token. token ≡ token_message (kept parts.now) reply.now) }
{
    let (caller, callee) = copied_pair(alloc, &reply.caller, &parts.setting.me)?;
    let who = reply.repair_who.copied(alloc)?;
    Ok(TokenMessage {
        caller,
        callee,
        id: reply.id,
        number: reply.number,
        answer_version: reply.answer_version,
        who,
    })
}

fn write_token(alloc: Global, parts: &Parts, id: u64) -> Result<Post, NoMemory>
    requires { IsSome (token_post (kept parts.now) (reply id parts.now.replies.list)) }
    ensures { IfOk result (λ post. token_post (kept parts.now) (reply id parts.now.replies.list) ≡ Some post) }
{
    let reply = parts.replies.get(id).unwrap();
    let token = token_message(alloc, parts, reply)?;
    Ok(Post::Token(token))
}

// ---- the fetch of an answer

fn fetch_message(alloc: Global, parts: &Parts, register: &Register) -> Result<Fetch, NoMemory>
    ensures { IfOk result (λ fetch. fetch ≡ fetch_message (kept parts.now) register.now) }
{
    let (caller, callee) = copied_pair(alloc, &parts.setting.me, &register.dest)?;
    Ok(Fetch {
        caller,
        callee,
        number: register.number,
        answer_version: register.noted,
    })
}

fn write_fetch(alloc: Global, parts: &Parts, number: u64) -> Result<Post, NoMemory>
    requires { IsSome (fetch_post (kept parts.now) (register number parts.now.registers.list)) }
    ensures { IfOk result (λ post. fetch_post (kept parts.now) (register number parts.now.registers.list) ≡ Some post) }
{
    let register = parts.registers.get(number).unwrap();
    let fetch = fetch_message(alloc, parts, register)?;
    Ok(Post::Fetch(fetch))
}

/// The message of a post as it is now, of which there is one: that of a call of this number, the token of the last answer of an
/// entry of this number that has a reply, or the fetch of the last answer that was announced to a call of this number. A call of
/// version 1 names its neighbours among the wanted calls to the same service, in logged order.
pub fn write_post(alloc: Global, parts: &Parts, name: PostName) -> Result<Post, NoMemory>
    requires service { IsService parts.now }
    requires there { IsSome (write_post (kept parts.now) name) }
    ensures { IfOk result (λ post. write_post (kept parts.now) name ≡ Some post) }
{
    match name {
        PostName::Call(number) => write_call(alloc, parts, number),
        PostName::Reply(id) => write_token(alloc, parts, id),
        PostName::Fetch(number) => write_fetch(alloc, parts, number),
    }
}
