// Which post a reply is to, and whether the service had that post and has it still.
ghost use Rattle.std.specs.Prelude.{◌≡◌, ◌&&◌};
ghost use Rattle.std.specs.Option.{option_copied};
ghost use Rattle.service_events.specs.Messages.{answer_is_now, call_is_now, had, had_answer, had_call, has_call, hold_of, is_ack_of, is_confirm_of, is_given_to, is_now, is_version, replies_to};
ghost use Rattle.service_parts.specs.Parts.{kept};

use call_registers::{Hold, Register, Reply};
use lang_core::Same;
use repair_messages::{Ack, AnswerMessage, Confirm, Fetch, Post, SetMessage, TokenMessage};
use service_events::{PostReply, PostWord};
use service_parts::Parts;

// ---- posts that the service had

fn is_version(version: u64, last: u64) -> bool
    ensures { result ≡ is_version version last }
{
    1 <= version && version <= last
}

fn had_call(set: &SetMessage, register: Option<&Register>) -> bool
    ensures { result ≡ had_call set.now (option_copied register.entry) }
{
    match register {
        None => false,
        Some(register) => {
            register.dest.is(&set.dest) && is_version(set.version, register.version)
        }
    }
}

fn had_answer(token: &TokenMessage, reply: Option<&Reply>) -> bool
    ensures { result ≡ had_answer token.now (option_copied reply.entry) }
{
    match reply {
        None => false,
        Some(reply) => {
            reply.caller.is(&token.caller)
                && reply.number == token.number
                && is_version(token.answer_version, reply.answer_version)
        }
    }
}

fn has_call(fetch: &Fetch, register: Option<&Register>) -> bool
    ensures { result ≡ has_call fetch.now (option_copied register.entry) }
{
    match register {
        None => false,
        Some(register) => register.dest.is(&fetch.callee),
    }
}

fn had_fetch(parts: &Parts, fetch: &Fetch) -> bool
    ensures { result ≡ had (kept parts.now) (Post.Fetch fetch.now) }
{
    fetch.caller.is(&parts.setting.me)
        && has_call(fetch, parts.registers.get(fetch.number))
        && parts
            .journal
            .noted_at(fetch.number, fetch.answer_version)
            .is_some()
}

// Whether the service ever had that post at that version; of a fetch, whether a token announced the answer.
fn had(parts: &Parts, post: &Post) -> bool
    ensures { result ≡ had (kept parts.now) post.now }
{
    match post {
        Post::Set(set) => {
            set.caller.is(&parts.setting.me) && had_call(set, parts.registers.get(set.number))
        }
        Post::Token(token) => {
            token.callee.is(&parts.setting.me) && had_answer(token, parts.replies.get(token.id))
        }
        Post::Fetch(fetch) => had_fetch(parts, fetch),
    }
}

// ---- replies to a post

fn is_ack_of(set: &SetMessage, ack: &Ack) -> bool
    ensures { result ≡ is_ack_of set.now ack.now }
{
    ack.caller.is(&set.caller)
        && ack.dest.is(&set.dest)
        && ack.number == set.number
        && ack.version == set.version
}

fn is_confirm_of(token: &TokenMessage, confirm: &Confirm) -> bool
    ensures { result ≡ is_confirm_of token.now confirm.now }
{
    confirm.caller.is(&token.caller)
        && confirm.callee.is(&token.callee)
        && confirm.number == token.number
        && confirm.answer_version == token.answer_version
}

fn is_given_to(fetch: &Fetch, answer: &AnswerMessage) -> bool
    ensures { result ≡ is_given_to fetch.now answer.now }
{
    answer.callee.is(&fetch.callee)
        && answer.number == fetch.number
        && answer.answer_version == fetch.answer_version
}

fn replies_to(post: &Post, reply: &PostReply) -> bool
    ensures { result ≡ replies_to post.now reply.now }
{
    match reply {
        PostReply::Acked(ack) => match post {
            Post::Set(set) => is_ack_of(set, ack),
            Post::Token(_) => false,
            Post::Fetch(_) => false,
        },
        PostReply::Confirmed(confirm) => match post {
            Post::Set(_) => false,
            Post::Token(token) => is_confirm_of(token, confirm),
            Post::Fetch(_) => false,
        },
        PostReply::Given(answer) => match post {
            Post::Set(_) => false,
            Post::Token(_) => false,
            Post::Fetch(fetch) => is_given_to(fetch, answer),
        },
        PostReply::Refused { .. } => true,
        PostReply::Lost(_) => true,
    }
}

/// Whether the service ever had that post at that version, and this is a reply to it.
pub(crate) fn is_own(parts: &Parts, post: &Post, reply: &PostReply) -> bool
    ensures { result ≡ (had (kept parts.now) post.now && replies_to post.now reply.now) }
{
    had(parts, post) && replies_to(post, reply)
}

// ---- posts of the current version

fn call_is_now(version: u64, register: Option<&Register>) -> bool
    ensures { result ≡ call_is_now version (option_copied register.entry) }
{
    match register {
        None => false,
        Some(register) => version == register.version,
    }
}

fn answer_is_now(answer_version: u64, reply: Option<&Reply>) -> bool
    ensures { result ≡ answer_is_now answer_version (option_copied reply.entry) }
{
    match reply {
        None => false,
        Some(reply) => answer_version == reply.answer_version,
    }
}

/// Whether the post's version is the current one. A fetch is never held.
pub(crate) fn is_now(parts: &Parts, post: &Post) -> bool
    ensures { result ≡ is_now (kept parts.now) post.now }
{
    match post {
        Post::Set(set) => call_is_now(set.version, parts.registers.get(set.number)),
        Post::Token(token) => answer_is_now(token.answer_version, parts.replies.get(token.id)),
        Post::Fetch(_) => false,
    }
}

/// Whether a refusal with this word holds a post, and how.
pub(crate) fn hold_of(word: PostWord, number: u64) -> Option<Hold>
    ensures { result ≡ hold_of word number }
{
    match word {
        PostWord::Denied => Some(Hold::Rule(number)),
        PostWord::Unknown => Some(Hold::Unknown),
        PostWord::TooOld => Some(Hold::TooOld(number)),
        PostWord::NoMemory => None,
        PostWord::Full => None,
        PostWord::NotYet => None,
    }
}
