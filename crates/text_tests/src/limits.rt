// What loopback can't show: orders whose body or text is as long as it may be, since the operator's whole body may be no longer; and names
// with secrets, of which a world has each once.
use crate::given::{holds, letters, name, text};
use admin_console::{Asked, asked_in, tried_in};
use std::process::Abort;
use wire_fields::{ConsoleRequest, ConsoleWord, Secrets};

fn request(rt: &(impl Abort + AllocGlobal), word: ConsoleWord, body: &str) -> ConsoleRequest {
    let who = text(rt, "ann");
    let body = text(rt, body);
    ConsoleRequest { word, who, body }
}

// Whether an operator's order whose request has a body of so many bytes is one.
fn is_order(rt: &(impl Abort + AllocGlobal), bytes: usize) -> bool {
    let body = letters(rt, bytes);
    let body = format!(in rt.alloc();
        "{{\"token\":\"t\",\"before\":null,\"after\":null,\"who\":\"ann\",\"method\":\"PUT\",\"path\":\"/n/a\",\"body\":\"{body}\"}}"
    ).expect(rt, "memory");
    asked_in(rt.alloc(), &request(rt, ConsoleWord::Create, &body))
        .expect(rt, "memory")
        .is_some()
}

// Whether a text of so many letters is read where it comes with this order: it is no program, nor rules, and that is told.
fn is_read(rt: &(impl Abort + AllocGlobal), word: ConsoleWord, field: &str, bytes: usize) -> bool {
    let letters = letters(rt, bytes);
    let body = format!(in rt.alloc();
        "{{\"token\":\"t\",\"number\":1,\"{field}\":\"{letters}\"}}"
    ).expect(rt, "memory");
    match asked_in(rt.alloc(), &request(rt, word, &body)).expect(rt, "memory") {
        Some(Asked::IllText(_)) => true,
        _ => false,
    }
}

// Whether a text of so many letters is read where it is rehearsed.
fn is_tried(rt: &(impl Abort + AllocGlobal), bytes: usize) -> bool {
    let letters = letters(rt, bytes);
    let body = format!(in rt.alloc(); "{{\"number\":1,\"program\":\"{letters}\"}}").expect(
        rt, "memory",
    );
    let request = request(rt, ConsoleWord::Rehearse, &body);
    match tried_in(rt.alloc(), &request).expect(rt, "memory") {
        Some(Err(at)) => at == 0,
        _ => false,
    }
}

#[test]
fn the_longest_body_of_an_order(rt: HostRuntime) {
    holds(&rt, "longest", is_order(&rt, 65_536));
    holds(&rt, "longer", !is_order(&rt, 65_537));
}

// That the longest text is read there, and a longer one makes the body ill.
fn has_limit(rt: &(impl Abort + AllocGlobal), word: ConsoleWord, field: &str) {
    holds(rt, field, is_read(rt, word, field, 65_536));
    holds(rt, field, !is_read(rt, word, field, 65_537));
}

#[test]
fn the_longest_text_of_an_order(rt: HostRuntime) {
    has_limit(&rt, ConsoleWord::Deploy, "program");
    has_limit(&rt, ConsoleWord::Correct, "program");
    has_limit(&rt, ConsoleWord::Rules, "rules");
    holds(&rt, "rehearsed", is_tried(&rt, 65_536));
    holds(&rt, "longer", !is_tried(&rt, 65_537));
}

fn has_secret(secrets: &Secrets, name: &str, secret: &str) -> bool {
    match secrets.get(name) {
        Some(found) => found.as_str() == secret,
        None => false,
    }
}

fn add(rt: &(impl Abort + AllocGlobal), secrets: &mut Secrets, peer: &str, secret: &str) -> bool {
    let peer = name(rt, peer);
    let secret = text(rt, secret);
    secrets.add(peer, secret).expect(rt, "memory")
}

#[test]
fn a_name_is_added_once(rt: HostRuntime) {
    let mut secrets = Secrets::new(rt.alloc());
    holds(&rt, "bank", add(&rt, &mut secrets, "bank", "s"));
    holds(&rt, "bank again", !add(&rt, &mut secrets, "bank", "t"));
    holds(&rt, "desk", add(&rt, &mut secrets, "desk", "s"));
    holds(&rt, "the first secret", has_secret(&secrets, "bank", "s"));
    holds(
        &rt,
        "two",
        secrets.len() == 2 && secrets.get("shop").is_none(),
    );
    let first = secrets.at(0).expect(&rt, "a peer");
    holds(
        &rt,
        "in order",
        first.name.as_str() == "bank" && secrets.at(2).is_none(),
    );
}
