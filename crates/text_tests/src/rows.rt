// Rows in a tree, beside rows in a list, after the same writes. A write is `table key text`, or `table key` where nothing is to
// stand there; those of a request stand on one line.
use crate::given::text as text_of;
use dump_audit::RowTree;
use handler_run::{RowsView, View};
use lang_core::{Cells, Same, SharedWrites, Write, Writes, apply_writes};
use std::process::Abort;

const WRITES: &str = "names bob 1
names ann 2;names cid 3;notes a 4
names bob 5
names ann;notes a
names ann 6;notes b 7;notes ab 8;notes aa 9
names dan;names bob
notes b 10;names eve 11;a z 12;names evelyn 13
names bobby 14;names bo 15;notes ab";

fn write_of(rt: &(impl Abort + AllocGlobal), words: &str) -> Write {
    let (table, rest) = words.split_once(' ').expect(rt, "a table");
    let (key, text) = match rest.split_once(' ') {
        Some((key, text)) => (key, Some(text_of(rt, text))),
        None => (rest, None),
    };
    Write {
        table: text_of(rt, table),
        key: text_of(rt, key),
        text,
    }
}

fn writes_of(rt: &(impl Abort + AllocGlobal), line: &str) -> SharedWrites {
    let mut writes = Writes::new(rt.alloc());
    for words in line.split(';') {
        let write = write_of(rt, words);
        writes.set(write).expect(rt, "memory");
    }
    SharedWrites::of(rt.alloc(), writes).expect(rt, "memory")
}

fn found(rt: &(impl Abort + AllocGlobal), view: &impl View, table: &str, key: &str) -> String {
    let (table, key) = (text_of(rt, table), text_of(rt, key));
    match view.key(rt.alloc(), &table, &key).expect(rt, "memory") {
        Some(text) => {
            let text = text.as_str();
            format!(in rt.alloc(); "{text}").expect(rt, "memory")
        }
        None => String::new(rt.alloc()),
    }
}

fn scanned(rt: &(impl Abort + AllocGlobal), view: &impl View, table: &str, prefix: &str) -> Cells {
    let (table, prefix) = (text_of(rt, table), text_of(rt, prefix));
    view.scan(rt.alloc(), &table, &prefix).expect(rt, "memory")
}

fn look_alike(rt: &(impl Abort + AllocGlobal), tree: &RowTree, list: &Cells, key: &str) {
    let view = RowsView { cells: list };
    for table in ["a", "names", "notes", "none"] {
        let (one, other) = (found(rt, tree, table, key), found(rt, &view, table, key));
        assert_eq!(rt; one.as_str(), other.as_str(), "at {table} {key}");
        let same = scanned(rt, tree, table, key).is(&scanned(rt, &view, table, key));
        assert!(rt; same, "under {table} {key}");
    }
}

fn are_alike(rt: &(impl Abort + AllocGlobal), tree: &RowTree, list: &Cells, line: &str) {
    let cells = tree.cells(rt.alloc()).expect(rt, "memory");
    assert!(rt; cells.is(list), "after {line}");
    for key in ["", "a", "ann", "b", "bo", "bob", "bobby", "e", "eve", "z"] {
        look_alike(rt, tree, list, key);
    }
}

fn written(rt: &(impl Abort + AllocGlobal)) -> u64 {
    let mut tree = RowTree::new(rt.alloc());
    let mut list = Cells::new(rt.alloc());
    for line in WRITES.lines() {
        let writes = writes_of(rt, line);
        tree.apply(rt.alloc(), &writes).expect(rt, "memory");
        apply_writes(rt.alloc(), &mut list, &writes).expect(rt, "memory");
        are_alike(rt, &tree, &list, line);
    }
    list.len()
}

fn are_so_many(rt: &impl Abort, found: u64, want: u64) {
    assert_eq!(rt; found, want, "rows");
}

#[test]
fn trees_have_the_rows_of_lists(rt: HostRuntime) {
    let rows = written(&rt);
    are_so_many(&rt, rows, 9);
}
