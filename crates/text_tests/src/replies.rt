// Replies of `bank` as `shop` reads them, which no peer but the program itself sends it. The seals are those that
// `openssl dgst -sha256 -hmac s` prints for the sealed bytes.
use crate::given::{holds, name, source, text};
use http_front::{WireResponse, read_response};
use lang_core::{Name, Text};
use repair_messages::AnswerMessage;
use std::process::Abort;
use wire_fields::WireRefused;
use wire_replies::{Asking, Outgoing, read_reply};

const LIVE: &str =
    "HTTP/1.1 200 OK\r\nAire-From: bank\r\nAire-Dest: shop\r\nAire-Request-Id: bank/1\r\nAire-Response-Id: shop/3\r\nAire-Version: 1\r\nAire-Answer-Version: 2\r\nAire-Seal: 3660387fc0003cb7f26883f3ed0200ddd5215f80919ef12fca5e5ad75be63bac\r\nContent-Type: text/plain; charset=utf-8\r\nContent-Length: 4\r\nConnection: close\r\n\r\nok 5";

const ACK: &str =
    "HTTP/1.1 200 OK\r\nAire-From: bank\r\nAire-Dest: shop\r\nAire-Response-Id: shop/3\r\nAire-Version: 2\r\nAire-Seal: 8f4c7196a4b0935078e2f1a54853550429fe57f0df8ef8a707dd009c7b5beb38\r\nContent-Type: text/plain; charset=utf-8\r\nContent-Length: 0\r\nConnection: close\r\n\r\n";

const CONFIRM: &str =
    "HTTP/1.1 200 OK\r\nAire-From: bank\r\nAire-Dest: shop\r\nAire-Response-Id: bank/4\r\nAire-Answer-Version: 2\r\nAire-Seal: 67e656e947d948a8b76f691c9dcd957c609ae8d9bc7beccae84976835145e6d4\r\nContent-Type: text/plain; charset=utf-8\r\nContent-Length: 0\r\nConnection: close\r\n\r\n";

const DENIED: &str =
    "HTTP/1.1 403 Forbidden\r\nAire-From: bank\r\nAire-Dest: shop\r\nAire-Refused: denied 2\r\nAire-Seal: 4b9ef74a1e819f843873b4432d96304c18ffdd8cddbe67485e97a2cd9209d292\r\nContent-Type: text/plain; charset=utf-8\r\nContent-Length: 0\r\nConnection: close\r\n\r\n";

const NOT_HELD: &str =
    "HTTP/1.1 409 Conflict\r\nAire-From: bank\r\nAire-Dest: shop\r\nAire-Refused: notheld\r\nAire-Seal: 906f079db0d37cabbd71eb4318dd7646636282c514c41670abb8bd0226f22055\r\nContent-Type: text/plain; charset=utf-8\r\nContent-Length: 0\r\nConnection: close\r\n\r\n";

// An acknowledgement with another status, and with a body.
const CREATED: &str =
    "HTTP/1.1 201 Created\r\nAire-From: bank\r\nAire-Dest: shop\r\nAire-Response-Id: shop/3\r\nAire-Version: 2\r\nAire-Seal: 5749072090faa32deb99ec4c1c016aac1a7423d96889757b9ebc4ac16192a80b\r\nContent-Length: 4\r\n\r\nbody";

// What a client is answered that is no peer.
const OPEN: &str =
    "HTTP/1.1 404 Not Found\r\nAire-Request-Id: notes/1\r\nContent-Type: text/plain; charset=utf-8\r\nContent-Length: 0\r\nConnection: close\r\n\r\n";

fn response(rt: &(impl Abort + AllocGlobal), bytes: &str) -> WireResponse {
    let mut source = source(rt, bytes.as_bytes(), 0);
    read_response(rt.alloc(), &mut source)
        .ok()
        .expect(rt, bytes)
}

// What the shop reads in these bytes.
fn read(
    rt: &(impl Abort + AllocGlobal),
    asked: Asking,
    bytes: &str,
) -> Result<Outgoing, WireRefused> {
    let response = response(rt, bytes);
    let shop: Name = name(rt, "shop");
    let bank: Name = name(rt, "bank");
    let secret: Text = text(rt, "s");
    read_reply(rt.alloc(), &shop, &bank, &secret, &asked, &response)
}

fn is_the_answer(answer: Option<&AnswerMessage>) -> bool {
    match answer {
        Some(answer) => {
            answer.caller.as_str() == "shop"
                && answer.callee.as_str() == "bank"
                && answer.id == 1
                && answer.number == 3
                && answer.answer_version == 2
                && answer.version == 1
                && answer.response.status == 200
                && answer.response.body.as_str() == "ok 5"
                && answer.who.as_str() == "bank"
        }
        None => false,
    }
}

fn is_live(reply: Result<Outgoing, WireRefused>) -> bool {
    match reply {
        Ok(
            Outgoing::Answered {
                id,
                answer,
                response,
            },
        ) => {
            id.service.as_str() == "bank"
                && id.number == 1
                && response.status == 200
                && response.body.as_str() == "ok 5"
                && is_the_answer(answer.as_ref())
        }
        _ => false,
    }
}

fn is_ack(reply: Result<Outgoing, WireRefused>) -> bool {
    match reply {
        Ok(Outgoing::Ack(ack)) => {
            ack.caller.as_str() == "shop"
                && ack.dest.as_str() == "bank"
                && ack.number == 3
                && ack.version == 2
        }
        _ => false,
    }
}

fn is_confirm(reply: Result<Outgoing, WireRefused>) -> bool {
    match reply {
        Ok(Outgoing::Confirm(confirm)) => {
            confirm.caller.as_str() == "bank"
                && confirm.callee.as_str() == "shop"
                && confirm.number == 4
                && confirm.answer_version == 2
        }
        _ => false,
    }
}

fn is_refusal(reply: Result<Outgoing, WireRefused>, word: &str, number: u64) -> bool {
    match reply {
        Ok(
            Outgoing::Refused {
                word: found,
                number: n,
            },
        ) => found.as_str() == word && n == number,
        _ => false,
    }
}

#[test]
fn replies_are_read(rt: HostRuntime) {
    holds(&rt, "live", is_live(read(&rt, Asking::Call, LIVE)));
    holds(&rt, "fetched", is_live(read(&rt, Asking::Fetch, LIVE)));
    holds(&rt, "ack", is_ack(read(&rt, Asking::Set, ACK)));
    holds(&rt, "created", is_ack(read(&rt, Asking::Set, CREATED)));
    holds(
        &rt,
        "confirm",
        is_confirm(read(&rt, Asking::Token, CONFIRM)),
    );
    for asked in [Asking::Call, Asking::Set, Asking::Token, Asking::Fetch] {
        let denied = is_refusal(read(&rt, asked, DENIED), "denied", 2);
        holds(&rt, "denied", denied);
    }
    let not_held = is_refusal(read(&rt, Asking::Token, NOT_HELD), "notheld", 0);
    holds(&rt, "notheld", not_held);
}

// Whether it is refused so: `seal`, or `missing` or `bad` and the field.
fn is_told(why: Option<WireRefused>, told: &str) -> bool {
    match why {
        Some(WireRefused::MissingHeader(header)) => {
            told.strip_prefix("missing ") == Some(header.spelling())
        }
        Some(WireRefused::BadHeader(header)) => {
            told.strip_prefix("bad ") == Some(header.spelling())
        }
        Some(WireRefused::Seal) => told == "seal",
        _ => false,
    }
}

// These bytes, with one part put in place of another, are refused so. A row is the old part, the new one and what is told, with `|`
// between them.
fn refuses(rt: &(impl Abort + AllocGlobal), asked: Asking, bytes: &str, row: &str) {
    let (old, rest) = row.split_once('|').expect(rt, row);
    let (new, told) = rest.split_once('|').expect(rt, row);
    let (front, back) = bytes.split_once(old).expect(rt, row);
    let changed = format!(in rt.alloc(); "{front}{new}{back}").expect(rt, "memory");
    let why = read(rt, asked, &changed).err();
    holds(rt, row, is_told(why, told));
}

fn all_refused(rt: &(impl Abort + AllocGlobal), asked: Asking, bytes: &str, rows: &[&str]) {
    for row in rows {
        refuses(rt, asked, bytes, row);
    }
}

#[test]
fn answers_are_refused(rt: HostRuntime) {
    refuses(
        &rt,
        Asking::Call,
        OPEN,
        "Connection: close\r\n||missing Aire-From",
    );
    all_refused(
        &rt,
        Asking::Call,
        LIVE,
        &[
            "Aire-Dest: shop\r\n||missing Aire-Dest",
            "Aire-Version: 1|Aire-Version: 01|bad Aire-Version",
            "Aire-Version: 1|Aire-Version: 1\r\nAIRE-VERSION: 1|bad Aire-Version",
            "bank/1|bank/0|bad Aire-Request-Id",
            "Aire-Seal: 36|Aire-Seal: 3G|bad Aire-Seal",
            "Aire-Dest: shop|Aire-Dest: desk|bad Aire-Dest",
            "Id: bank/1\r\nAire-Response-Id: shop|Id: shop/1\r\nAire-Response-Id: bank|bad Aire-Request-Id",
            "shop/3|bank/3|bad Aire-Response-Id",
        ],
    );
}

#[test]
fn acknowledgements_are_refused(rt: HostRuntime) {
    refuses(
        &rt,
        Asking::Call,
        ACK,
        "Connection: close\r\n||missing Aire-Request-Id",
    );
    refuses(
        &rt,
        Asking::Token,
        ACK,
        "Connection: close\r\n||missing Aire-Answer-Version",
    );
    refuses(
        &rt,
        Asking::Fetch,
        CONFIRM,
        "Connection: close\r\n||missing Aire-Request-Id",
    );
    refuses(
        &rt,
        Asking::Set,
        CONFIRM,
        "Connection: close\r\n||missing Aire-Version",
    );
    refuses(
        &rt,
        Asking::Token,
        CONFIRM,
        "bank/4|shop/4|bad Aire-Response-Id",
    );
    refuses(&rt, Asking::Set, CREATED, "\r\n\r\nbody|\r\n\r\nbodi|seal");
    all_refused(
        &rt,
        Asking::Set,
        ACK,
        &[
            "shop/3|bank/3|bad Aire-Response-Id",
            "Aire-From: bank|Aire-From: desk|seal",
            "200 OK|201 OK|seal",
            "Aire-Version: 2|Aire-Version: 3|seal",
            "eb38\r\n|eb39\r\n|seal",
            "Seal: 8f|Seal: 9f|seal",
        ],
    );
}

#[test]
fn refusals_are_refused(rt: HostRuntime) {
    all_refused(
        &rt,
        Asking::Call,
        DENIED,
        &[
            "denied 2|denied|bad Aire-Refused",
            "denied 2|denied 02|bad Aire-Refused",
            "denied 2|denied 2 3|bad Aire-Refused",
            "denied 2|DENIED 2|bad Aire-Refused",
            "denied 2|denied 3|seal",
            "denied 2|notheld|seal",
        ],
    );
    all_refused(
        &rt,
        Asking::Call,
        NOT_HELD,
        &[
            "notheld|notheld 0|bad Aire-Refused",
            "notheld|held|bad Aire-Refused",
            "notheld|notheld\r\naire-refused: notheld|bad Aire-Refused",
        ],
    );
}
