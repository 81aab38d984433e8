// The fields of world files that a run of a script doesn't show.
use crate::given::{equal, holds, same};
use std::process::Abort;
use world_file::{Setup, built_in, read_world};

const FILE: &str =
    r#"{"services":[{"name":"a","program":"","rules":"","secret":"s","console":"c","door":"d","workers":4,"weight":1234},
{"name":"b","program":"","rules":"","secret":"s","console":"c","door":"e","workers":4}]}"#;

// Each service: its name, its peers, how many routes it has, and its door.
fn described(rt: &(impl Abort + AllocGlobal), world: &[Setup]) -> String {
    let mut text = String::new(rt.alloc());
    for setup in world {
        let name = setup.setting.me.as_str();
        write!(text, "{name}(").expect(rt, "memory");
        for peer in setup.setting.peers.as_slice() {
            let peer = peer.as_str();
            write!(text, "{peer},").expect(rt, "memory");
        }
        let routes = setup.setting.program.routes().len();
        let door = setup.door.as_str();
        write!(text, "){routes}@{door};").expect(rt, "memory");
    }
    text
}

// The fields of a service, but for its name, its program and its door.
fn is_plain(rt: &impl Abort, setup: Option<&Setup>, weight: u64) {
    let setup = setup.expect(rt, "a service");
    equal(rt, setup.setting.weight, weight);
    same(rt, setup.secret.as_str(), "s");
    same(rt, setup.console.as_str(), "c");
    equal(rt, setup.workers, 4);
}

fn is_built_in(rt: &(impl Abort + AllocGlobal), word: &str, want: &str) {
    let world = built_in(rt.alloc(), word).expect(rt, "memory");
    let world = world.expect(rt, word);
    is_plain(rt, world.first(), 1000000000);
    same(rt, described(rt, &world).as_str(), want);
}

fn is_none(rt: &(impl Abort + AllocGlobal), word: &str) {
    let world = built_in(rt.alloc(), word).expect(rt, "memory");
    holds(rt, word, world.is_none());
}

#[test]
fn services_are_set_up(rt: HostRuntime) {
    let world = read_world(rt.alloc(), FILE.as_bytes());
    let world = world.ok().expect(&rt, "a world");
    same(&rt, described(&rt, &world).as_str(), "a(b,)0@d;b(a,)0@e;");
    is_plain(&rt, world.first(), 1234);
    is_plain(&rt, world.last(), 1000000000);
    is_built_in(&rt, "@notes", "notes()5@127.0.0.1:8101;");
    is_built_in(
        &rt,
        "@shops",
        "shop(bank,)10@127.0.0.1:8101;bank(shop,)3@127.0.0.1:8102;",
    );
    is_built_in(
        &rt,
        "@posts",
        "oauth(askbot,dpaste,)3@127.0.0.1:8101;askbot(oauth,dpaste,)2@127.0.0.1:8102;dpaste(oauth,askbot,)1@127.0.0.1:8103;",
    );
    is_none(&rt, "");
    is_none(&rt, "notes");
    is_none(&rt, "@note");
    is_none(&rt, "@shop");
    is_none(&rt, "@other");
    is_none(&rt, "-");
}
