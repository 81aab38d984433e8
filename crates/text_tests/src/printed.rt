// Lines of what no script can bring about: a request that was answered otherwise than its journal says, a post that comes back to a
// service that didn't write it, a token of a call that its caller doesn't know, a fetch of an answer that wasn't given, and the largest
// numbers.
use crate::given::{holds, name, same, text};
use call_registers::Hold;
use journal_rows::{Row, Verdict};
use lang_core::Names;
use repair_messages::{Ack, Fetch, Post, PostName, Refusal, RefusalWord, TokenMessage};
use repair_queue::{Notice, Notices};
use report_text::{notices_text, verdict_text};
use script_text::{Detail, happened_line};
use service_events::{AnswerRefused, GiveRefused, PostRefused, PostReply};
use std::process::Abort;
use world_events::{Happened, Packet, What};

fn two_services(rt: &(impl Abort + AllocGlobal)) -> Names {
    let mut names = Names::new(rt.alloc());
    names.push(name(rt, "notes")).expect(rt, "memory");
    names.push(name(rt, "mail")).expect(rt, "memory");
    names
}

#[test]
fn forged_answers_are_told(rt: HostRuntime) {
    let names = two_services(&rt);
    assert!(rt; names.len() == 2);
    let verdict = Verdict::Forged { at: 1, index: 0 };
    let told = verdict_text(rt.alloc(), &names, &verdict).expect(&rt, "memory");
    same(&rt, told.as_str(), "forged mail/0\n");
}

fn told(rt: &(impl Abort + AllocGlobal), name: PostName, version: u64, hold: Hold, want: &str) {
    let mut list = Notices::new(rt.alloc());
    let notice = Notice {
        name,
        version,
        hold,
    };
    holds(rt, want, list.push(notice).is_ok());
    let line = notices_text(rt.alloc(), &list, None).expect(rt, "memory");
    same(rt, line.as_str(), want);
}

#[test]
fn notices_are_told(rt: HostRuntime) {
    let last = u64::MAX;
    told(
        &rt,
        PostName::Call(last),
        last,
        Hold::Rule(last),
        "call:18446744073709551615 v18446744073709551615 rule 18446744073709551615\n",
    );
    told(
        &rt,
        PostName::Reply(1),
        2,
        Hold::Unknown,
        "reply:1 a2 unknown\n",
    );
    told(
        &rt,
        PostName::Call(4),
        1,
        Hold::Unknown,
        "call:4 v1 unknown\n",
    );
    told(
        &rt,
        PostName::Reply(last),
        3,
        Hold::TooOld(last),
        "reply:18446744073709551615 a3 tooold 18446744073709551615\n",
    );
}

#[test]
fn a_fold_that_waits_is_told_alone(rt: HostRuntime) {
    let why = Refusal {
        word: RefusalWord::NotQuiet,
        number: u64::MAX,
    };
    let none = Notices::new(rt.alloc());
    let line = notices_text(rt.alloc(), &none, Some(why)).expect(&rt, "memory");
    same(&rt, line.as_str(), "fold notquiet 18446744073709551615\n");
}

// A token of the third answer to the shop's seventh call.
fn token(rt: &(impl Abort + AllocGlobal)) -> Post {
    Post::Token(TokenMessage {
        caller: name(rt, "shop"),
        callee: name(rt, "bank"),
        id: 4,
        number: 7,
        answer_version: 3,
        who: text(rt, "bank"),
    })
}

// A fetch of that answer.
fn fetch(rt: &(impl Abort + AllocGlobal)) -> Post {
    Post::Fetch(Fetch {
        caller: name(rt, "shop"),
        callee: name(rt, "bank"),
        number: 7,
        answer_version: 3,
    })
}

// That the bank is told this of a packet, which is the only one.
fn happens(
    rt: &(impl Abort + AllocGlobal),
    packet: Packet,
    what: What,
    back: Option<u64>,
    want: &str,
) {
    let mut packets = Vec::new(rt.alloc());
    holds(rt, want, packets.push(packet).is_ok());
    let rows: Vec<Row> = Vec::new(rt.alloc());
    let happened = Happened {
        service: Some(name(rt, "bank")),
        what,
        packet: back,
    };
    let detail = Detail::Packet(1);
    let line = happened_line(rt.alloc(), &packets, &rows, &detail, &happened).expect(rt, "memory");
    same(rt, line.as_str(), want);
}

#[test]
fn posts_are_told(rt: HostRuntime) {
    happens(
        &rt,
        Packet::Post(token(&rt)),
        What::TakeToken(Err(AnswerRefused::Unknown(7))),
        Some(5),
        "bank refused unknown 7 -> p5\n",
    );
    happens(
        &rt,
        Packet::Post(fetch(&rt)),
        What::Give(Err(GiveRefused::Unknown(7))),
        Some(6),
        "bank refused unknown 7 -> p6\n",
    );
    let reply = PostReply::Acked(Ack {
        caller: name(&rt, "shop"),
        dest: name(&rt, "bank"),
        number: 7,
        version: 2,
    });
    let packet = Packet::PostReply {
        post: token(&rt),
        reply,
    };
    let foreign = What::Posted(Err(PostRefused::Foreign));
    happens(&rt, packet, foreign, None, "bank refused foreign\n");
}
