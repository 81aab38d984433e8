// What a run comes to where the k-th read, write or load fails, and which files it asks for, in which order.
use crate::memory::{input_of, is_told, ran, two_files};
use io_edge::MemoryFiles;
use std::process::Abort;

const TWO: &str = "ask notes ann PUT /n/a hi\nask notes ann GET /n/a\n";

fn ends(
    rt: &(impl Abort + AllocGlobal),
    read_fails: u64,
    write_fails: u64,
    status: u8,
    told: &str,
) {
    let mut files = two_files(rt, "", "", 0);
    let mut input = input_of(rt, TWO, read_fails);
    let came = ran(rt, "run @notes -", &mut files, &mut input, write_fails);
    is_told(rt, &came, status, told);
}

#[test]
fn reads_and_writes_fail(rt: HostRuntime) {
    ends(&rt, 0, 0, 0, "notes/1 = 200\nnotes/2 = 200 hi\n");
    ends(&rt, 1, 0, 4, "read fault\n");
    ends(&rt, 2, 0, 4, "read fault\n");
    ends(&rt, 0, 1, 5, "");
    ends(&rt, 0, 2, 5, "notes/1 = 200\n");
}

// A world of one service that keeps what is put.
const WORLD: &str =
    r#"{"services":[{"name":"a","program":"route PUT \"/*\" { put n path(1) = body; reply 200 \"\"; }",
"rules":"allow any any any /","secret":"s","console":"c","door":"d","workers":1}]}"#;

const PUT: &str = "ask a ann PUT /x 1\n";

fn has_asked(rt: &(impl Abort + AllocGlobal), files: &MemoryFiles, paths: &str) {
    let mut asked = String::new(rt.alloc());
    for path in files.asked() {
        let path = path.as_str();
        write!(asked, "{path};").expect(rt, "memory");
    }
    assert_eq!(rt; asked.as_str(), paths);
}

// That a run with these words, of this world file, asks for these paths, leaves the input as it was or not, and comes to this, where
// the load of this number fails.
fn loads(
    rt: &(impl Abort + AllocGlobal),
    words: &str,
    world: &str,
    fails: u64,
    paths: &str,
    untouched: bool,
    told: &str,
) {
    let mut files = two_files(rt, world, "rows a\n", fails);
    let mut input = input_of(rt, PUT, 0);
    let came = ran(rt, words, &mut files, &mut input, 0);
    has_asked(rt, &files, paths);
    assert_eq!(rt; input.left() == PUT.as_bytes(), untouched);
    is_told(rt, &came, status_of(told), told);
}

fn status_of(told: &str) -> u8 {
    if told == "read fault\n" {
        4
    } else if told == "world refused 1\n" {
        3
    } else if told == "usage: word 2\n" {
        2
    } else {
        0
    }
}

// The words, the world, the script: the first that is refused, or can't be loaded, ends the run.
#[test]
fn files_are_asked_for_in_order(rt: HostRuntime) {
    let world = "world;";
    let both = "world;script;";
    let fault = "read fault\n";
    loads(&rt, "run world script", WORLD, 0, both, true, "none\n");
    loads(&rt, "run world -", WORLD, 0, world, false, "a/1 = 200\n");
    loads(&rt, "run world script", WORLD, 1, world, true, fault);
    loads(&rt, "run world script", WORLD, 2, both, true, fault);
    loads(&rt, "run world -", WORLD, 1, world, true, fault);
    loads(&rt, "run world none", WORLD, 0, "world;none;", true, fault);
    loads(&rt, "run @notes script", WORLD, 1, "script;", true, fault);
    loads(
        &rt,
        "run world script",
        "{",
        0,
        world,
        true,
        "world refused 1\n",
    );
    loads(&rt, "run world -x", WORLD, 0, "", true, "usage: word 2\n");
}
