// What a service sends to a peer, by its bytes. The seals are those that `openssl dgst -sha256 -hmac s` prints for the sealed bytes.
use crate::given::{holds, name, text};
use lang_core::{Bytes, Method, Names, NoMemory, Request};
use repair_messages::{Fetch, Post, SetMessage, TokenMessage};
use std::process::Abort;
use wire_bytes::{call_bytes, post_bytes};

const CALL: &str =
    "POST /pay/1 HTTP/1.1\r\nHost: 127.0.0.1:8102\r\nAire-From: shop\r\nAire-Dest: bank\r\nAire-Response-Id: shop/3\r\nAire-Notifier-URL: http://127.0.0.1:8101/aire/notify\r\nAire-Who: shop\r\nAire-Chain: shop\r\nAire-Seal: c7d9c240871868fc290607283eb1c02ae682ea2885a77a88b38d44ba16d0c401\r\nContent-Length: 1\r\nConnection: close\r\n\r\n5";

const CREATE: &str =
    "POST /aire/repair HTTP/1.1\r\nHost: 127.0.0.1:8102\r\nAire-From: shop\r\nAire-Dest: bank\r\nAire-Response-Id: shop/3\r\nAire-Repair: create\r\nAire-Version: 1\r\nAire-Who: shop\r\nAire-Method: PUT\r\nAire-Path: /pay/1\r\nAire-Request-Who: ann\r\nAire-Chain: web,shop\r\nAire-After: 2\r\nAire-Seal: 1032cad0364b5c4e0728b96c44f9df7c9cac141ac703fa083d8f2dceeae45843\r\nContent-Length: 1\r\nConnection: close\r\n\r\n5";

const REPLACE: &str =
    "POST /aire/repair HTTP/1.1\r\nHost: 127.0.0.1:8102\r\nAire-From: shop\r\nAire-Dest: bank\r\nAire-Response-Id: shop/3\r\nAire-Repair: replace\r\nAire-Version: 18446744073709551615\r\nAire-Who: root\r\nAire-Method: DELETE\r\nAire-Path: /pay/1\r\nAire-Request-Who: ann\r\nAire-Chain: web,shop\r\nAire-Before: 0\r\nAire-After: 12\r\nAire-Seal: d22a9fd83dcd6a009017600314cfed97ac88cdffdd35b89747f94e10f30e8c9d\r\nContent-Length: 0\r\nConnection: close\r\n\r\n";

const DELETION: &str =
    "POST /aire/repair HTTP/1.1\r\nHost: 127.0.0.1:8102\r\nAire-From: shop\r\nAire-Dest: bank\r\nAire-Response-Id: shop/3\r\nAire-Repair: delete\r\nAire-Version: 2\r\nAire-Who: shop\r\nAire-Seal: fd92eac45576ddc587f9e806a4a755cdbcb96adf0ca137e752bfc7883f8ad440\r\nContent-Length: 0\r\nConnection: close\r\n\r\n";

const TOKEN: &str =
    "POST /aire/notify HTTP/1.1\r\nHost: 127.0.0.1:8102\r\nAire-From: shop\r\nAire-Dest: bank\r\nAire-Request-Id: shop/9\r\nAire-Response-Id: bank/4\r\nAire-Repair: replace_response\r\nAire-Answer-Version: 3\r\nAire-Who: shop\r\nAire-Seal: 2da059240d649c77ba7f368e20474ed0600fd8da711bdf6a1e6ea31c925f1c26\r\nContent-Length: 0\r\nConnection: close\r\n\r\n";

const FETCH: &str =
    "POST /aire/fetch HTTP/1.1\r\nHost: 127.0.0.1:8102\r\nAire-From: shop\r\nAire-Dest: bank\r\nAire-Response-Id: shop/3\r\nAire-Answer-Version: 1\r\nAire-Seal: 6b117a42f191d075312ae5cc65729406d7ab646e3b1a0f1b7537c30244278dcc\r\nContent-Length: 0\r\nConnection: close\r\n\r\n";

// A request to pay, called for by the shop, which `web` called before it where it isn't the shop's own.
fn asked(
    rt: &(impl Abort + AllocGlobal),
    method: Method,
    who: &str,
    outer: bool,
    body: &str,
) -> Request {
    let mut chain = Names::new(rt.alloc());
    if outer {
        chain.push(name(rt, "web")).expect(rt, "memory");
    }
    chain.push(name(rt, "shop")).expect(rt, "memory");
    let path = text(rt, "/pay/1");
    let body = text(rt, body);
    let who = text(rt, who);
    Request {
        method,
        path,
        body,
        who,
        chain,
    }
}

// A version of the shop's call 3 to the bank.
fn set(
    rt: &(impl Abort + AllocGlobal),
    who: &str,
    version: u64,
    desired: Option<Request>,
    before: Option<u64>,
    after: Option<u64>,
) -> SetMessage {
    let caller = name(rt, "shop");
    let dest = name(rt, "bank");
    let who = text(rt, who);
    SetMessage {
        caller,
        dest,
        number: 3,
        version,
        desired,
        before,
        after,
        who,
    }
}

// The shop announces its third answer to the bank's call 4.
fn token(rt: &(impl Abort + AllocGlobal)) -> Post {
    let caller = name(rt, "bank");
    let callee = name(rt, "shop");
    let who = text(rt, "shop");
    Post::Token(TokenMessage {
        caller,
        callee,
        id: 9,
        number: 4,
        answer_version: 3,
        who,
    })
}

// The shop asks for the bank's first answer to its call 3.
fn fetch(rt: &(impl Abort + AllocGlobal)) -> Post {
    let caller = name(rt, "shop");
    let callee = name(rt, "bank");
    Post::Fetch(Fetch {
        caller,
        callee,
        number: 3,
        answer_version: 1,
    })
}

fn are(rt: &impl Abort, made: Result<Bytes, NoMemory>, wanted: &str) {
    let bytes = made.expect(rt, "memory");
    holds(rt, wanted, bytes.as_slice() == wanted.as_bytes());
}

// A version of the call goes to the bank in these bytes.
fn call_is(rt: &(impl Abort + AllocGlobal), call: &SetMessage, bytes: &str) {
    let address = text(rt, "127.0.0.1:8102");
    let door = text(rt, "127.0.0.1:8101");
    let secret = text(rt, "s");
    are(
        rt,
        call_bytes(rt.alloc(), &address, &door, &secret, call),
        bytes,
    );
}

fn post_is(rt: &(impl Abort + AllocGlobal), post: &Post, bytes: &str) {
    let address = text(rt, "127.0.0.1:8102");
    let secret = text(rt, "s");
    are(rt, post_bytes(rt.alloc(), &address, &secret, post), bytes);
}

#[test]
fn calls(rt: HostRuntime) {
    let call = asked(&rt, Method::Post, "shop", false, "5");
    call_is(&rt, &set(&rt, "shop", 1, Some(call), None, None), CALL);
    call_is(&rt, &set(&rt, "shop", 2, None, None, None), DELETION);
}

#[test]
fn posts(rt: HostRuntime) {
    let created = asked(&rt, Method::Put, "ann", true, "5");
    let create = set(&rt, "shop", 1, Some(created), None, Some(2));
    post_is(&rt, &Post::Set(create), CREATE);
    let replaced = asked(&rt, Method::Delete, "ann", true, "");
    let replace = set(&rt, "root", u64::MAX, Some(replaced), Some(0), Some(12));
    post_is(&rt, &Post::Set(replace), REPLACE);
    let deletion = set(&rt, "shop", 2, None, None, None);
    post_is(&rt, &Post::Set(deletion), DELETION);
    post_is(&rt, &token(&rt), TOKEN);
    post_is(&rt, &fetch(&rt), FETCH);
}
