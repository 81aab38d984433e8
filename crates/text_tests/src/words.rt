// Words of refusals for want of memory, bytes that get no word, and what a peer's words come to at the service that called or posted.
use crate::given::{holds, name, text};
use call_registers::Why;
use http_front::FrontRefused;
use lang_core::{RequestId, Response};
use repair_messages::{Ack, AnswerMessage, Fetch, Post, SetMessage};
use service_events::{
    AnswerRefused, ArriveRefused, GiveRefused, OrderRefused, PostReply, PostWord, TakeRefused,
};
use std::process::Abort;
use wire_fields::{WireRefused, refusal_status};
use wire_replies::{Asking, Outgoing};
use wire_words::{
    answer_told, arrive_told, asking_of, call_reply, front_word, give_told, order_told, post_reply,
    refusal, take_told, why_unread, wire_word,
};

#[test]
fn no_memory_and_no_word(rt: HostRuntime) {
    let word = "nomemory";
    holds(&rt, word, refusal_status(word) == 503);
    holds(
        &rt,
        "front",
        front_word(FrontRefused::NoMemory) == Some(word),
    );
    holds(&rt, "wire", wire_word(WireRefused::NoMemory) == word);
    holds(
        &rt,
        "arrive",
        arrive_told(ArriveRefused::NoMemory).0 == word,
    );
    holds(&rt, "take", take_told(TakeRefused::NoMemory).0 == word);
    holds(
        &rt,
        "answer",
        answer_told(AnswerRefused::NoMemory).0 == word,
    );
    holds(&rt, "give", give_told(GiveRefused::NoMemory).0 == word);
    holds(&rt, "order", order_told(OrderRefused::NoMemory).0 == word);
    holds(&rt, "cut", front_word(FrontRefused::Cut(7)).is_none());
    holds(&rt, "fault", front_word(FrontRefused::ReadFault).is_none());
    holds(&rt, "no word of the table", refusal_status("heads") == 500);
}

// A refusal of a live call with this word, number and status is kept so.
fn call_fails(
    rt: &(impl Abort + AllocGlobal),
    word: &str,
    number: u64,
    status: u16,
    word_kept: u16,
    number_kept: u64,
) {
    let reply = refusal(rt.alloc(), word, number).expect(rt, "memory");
    let why = Why::Refused {
        word: word_kept,
        number: number_kept,
    };
    holds(rt, word, call_reply(reply, status).err() == Some(why));
}

// That version 2 of the shop's call 3 was taken.
fn acknowledgement(rt: &(impl Abort + AllocGlobal)) -> Outgoing {
    let caller = name(rt, "shop");
    let dest = name(rt, "bank");
    Outgoing::Ack(Ack {
        caller,
        dest,
        number: 3,
        version: 2,
    })
}

#[test]
fn refused_calls(rt: HostRuntime) {
    call_fails(&rt, "nomemory", 0, 503, 1, 0);
    call_fails(&rt, "full", 1096, 507, 2, 1096);
    call_fails(&rt, "notyet", 3, 409, 3, 3);
    call_fails(&rt, "gone", 2, 410, 4, 2);
    call_fails(&rt, "seal", 0, 403, 0, 403);
    call_fails(&rt, "denied", 2, 403, 0, 403);
    let failed = call_reply(acknowledgement(&rt), 200).err();
    holds(&rt, "an acknowledgement", failed == Some(why_unread(200)));
}

// What a refusal of this post with this word says.
fn post_refused(rt: &(impl Abort + AllocGlobal), post: &Post, word: &str) -> Option<PostWord> {
    match post_reply(post, refusal(rt.alloc(), word, 2).expect(rt, "memory")) {
        Some(PostReply::Refused { word, number: 2 }) => Some(word),
        _ => None,
    }
}

// A refusal with this word says the same of every post.
fn refuses(rt: &(impl Abort + AllocGlobal), word: &str, said: Option<PostWord>) {
    holds(rt, word, post_refused(rt, &deletion(rt), word) == said);
    holds(rt, word, post_refused(rt, &fetch(rt), word) == said);
}

fn is_acked(post: &Post, reply: Outgoing) -> bool {
    match post_reply(post, reply) {
        Some(PostReply::Acked(ack)) => ack.number == 3 && ack.version == 2,
        _ => false,
    }
}

fn is_given(post: &Post, reply: Outgoing) -> bool {
    match post_reply(post, reply) {
        Some(PostReply::Given(answer)) => answer.number == 3 && answer.answer_version == 2,
        _ => false,
    }
}

// The bank's second answer to the shop's call 3.
fn answer(rt: &(impl Abort + AllocGlobal)) -> AnswerMessage {
    let caller = name(rt, "shop");
    let callee = name(rt, "bank");
    let body = text(rt, "ok");
    let who = text(rt, "bank");
    AnswerMessage {
        caller,
        callee,
        id: 1,
        number: 3,
        answer_version: 2,
        version: 1,
        response: Response { status: 200, body },
        who,
    }
}

// A reply with this answer, or, where there is none, one to a client that is no peer.
fn answered(rt: &(impl Abort + AllocGlobal), answer: Option<AnswerMessage>) -> Outgoing {
    let service = name(rt, "bank");
    let body = text(rt, "ok");
    Outgoing::Answered {
        id: RequestId { service, number: 1 },
        answer,
        response: Response { status: 200, body },
    }
}

fn fetch(rt: &(impl Abort + AllocGlobal)) -> Post {
    let caller = name(rt, "shop");
    let callee = name(rt, "bank");
    Post::Fetch(Fetch {
        caller,
        callee,
        number: 3,
        answer_version: 2,
    })
}

fn deletion(rt: &(impl Abort + AllocGlobal)) -> Post {
    let caller = name(rt, "shop");
    let dest = name(rt, "bank");
    let who = text(rt, "shop");
    Post::Set(SetMessage {
        caller,
        dest,
        number: 3,
        version: 2,
        desired: None,
        before: None,
        after: None,
        who,
    })
}

#[test]
fn refused_posts(rt: HostRuntime) {
    refuses(&rt, "full", Some(PostWord::Full));
    refuses(&rt, "notyet", Some(PostWord::NotYet));
    refuses(&rt, "denied", Some(PostWord::Denied));
    refuses(&rt, "unknown", Some(PostWord::Unknown));
    refuses(&rt, "nomemory", Some(PostWord::NoMemory));
    refuses(&rt, "gone", None);
    let set = deletion(&rt);
    holds(&rt, "acked", is_acked(&set, acknowledgement(&rt)));
    holds(&rt, "asked", asking_of(&set) == Asking::Set);
    let unasked = post_reply(&set, answered(&rt, Some(answer(&rt))));
    holds(&rt, "an answer that wasn't fetched", unasked.is_none());
}

#[test]
fn fetches(rt: HostRuntime) {
    let fetch = fetch(&rt);
    holds(&rt, "asked", asking_of(&fetch) == Asking::Fetch);
    let given = answered(&rt, Some(answer(&rt)));
    holds(&rt, "given", is_given(&fetch, given));
    let open = post_reply(&fetch, answered(&rt, None));
    holds(&rt, "a reply to no peer", open.is_none());
}
