// Files in memory and real ones.
use crate::given::{equal, failing, holds, same};
use io_edge::{Files, LoadRefused, MemoryFile, MemoryFiles, RealFiles};
use lang_base::{Bytes, Seq, Text};
use std::fs;
use std::process::Abort;
use std::rt::Files as OpensFiles;

// A load gives this text.
fn gives<F: Files>(
    rt: &(impl Abort + AllocGlobal),
    files: &mut F,
    path: &str,
    limit: u64,
    text: &str,
) {
    let bytes = files.load(rt.alloc(), path, limit).expect(rt, path);
    same(rt, bytes.as_slice(), text);
}

// A load is refused so.
fn refuses<F: Files>(
    rt: &(impl Abort + AllocGlobal),
    files: &mut F,
    path: &str,
    limit: u64,
    why: LoadRefused,
) {
    let refused = files.load(rt.alloc(), path, limit).err();
    holds(rt, path, refused == Some(why));
}

fn add(rt: &(impl Abort + AllocGlobal), files: &mut Seq<MemoryFile>, path: &str, text: &str) {
    let file = MemoryFile {
        path: Text::of(rt.alloc(), path).expect(rt, "memory"),
        bytes: Bytes::of(rt.alloc(), text.as_bytes()).expect(rt, "memory"),
    };
    files.push(file).expect(rt, "memory");
}

// Files in memory are loaded up to the limit, the first of two with one path, and the third load
// fails. Each path is kept, whatever the answer.
#[test]
fn loads_files_in_memory(rt: HostRuntime) {
    let mut named = Seq::new(rt.alloc());
    add(&rt, &mut named, "a", "first");
    add(&rt, &mut named, "b", "other");
    add(&rt, &mut named, "a", "later");
    let mut files = MemoryFiles::new(named, failing(&rt, 3));
    gives(&rt, &mut files, "a", 5, "first");
    refuses(&rt, &mut files, "b", 4, LoadRefused::TooLong);
    refuses(&rt, &mut files, "b", 5, LoadRefused::Failed);
    equal(&rt, files.faults(), 1);
    gives(&rt, &mut files, "b", 9, "other");
    refuses(&rt, &mut files, "c", 5, LoadRefused::Failed);
    equal(&rt, files.faults(), 2);
    let asked = files.asked();
    holds(&rt, "asked", asked.len() == 5);
    let last = asked.last().expect(&rt, "a path");
    same(&rt, last.as_bytes(), "c");
}

// Real files are loaded, and what can't be opened or read counts.
#[test]
fn loads_real_files(rt: HostRuntime) {
    let mut files = RealFiles::new(rt.alloc(), &rt);
    gives(&rt, &mut files, "/dev/null", 0, "");
    refuses(&rt, &mut files, "/dev/zero", 9, LoadRefused::TooLong);
    equal(&rt, files.faults(), 0);
    refuses(&rt, &mut files, "/no/such/file", 9, LoadRefused::Failed);
    refuses(&rt, &mut files, "/dev", 9, LoadRefused::Failed);
    refuses(&rt, &mut files, "", 9, LoadRefused::Failed);
    equal(&rt, files.faults(), 3);
}

// A real file is loaded up to the limit, by this path and not by the other one.
fn loads_by(rt: &(impl Abort + AllocGlobal + OpensFiles), path: &str, other: &str) {
    holds(rt, "written", fs::write(rt, path, "nine more").is_ok());
    let mut files = RealFiles::new(rt.alloc(), rt);
    gives(rt, &mut files, path, 9, "nine more");
    refuses(rt, &mut files, path, 8, LoadRefused::TooLong);
    refuses(rt, &mut files, other, 9, LoadRefused::Failed);
    holds(rt, "removed", fs::remove_file(rt, path).is_ok());
}

// A path is taken as it stands, with a space at its end or at its front.
#[test]
fn loads_a_path_with_a_space_at_an_end(rt: HostRuntime) {
    loads_by(&rt, "a file of edge_tests ", "a file of edge_tests");
    loads_by(
        &rt,
        " another file of edge_tests",
        "another file of edge_tests",
    );
}

// Lines of sixteen bytes, which differ, and one byte more.
fn lines(rt: &(impl Abort + AllocGlobal), count: u64) -> String {
    let mut text = String::new(rt.alloc());
    for line in 0..count {
        let line = format!(in rt.alloc(); "{line:15}\n").expect(rt, "memory");
        text.push_str(&line).expect(rt, "memory");
    }
    text.push('.').expect(rt, "memory");
    text
}

// A real file of so many lines and one byte comes whole.
fn comes_whole(rt: &(impl Abort + AllocGlobal + OpensFiles), count: u64, bytes: u64) {
    let path = "a long file of edge_tests";
    let text = lines(rt, count);
    equal(rt, text.len() as u64, bytes);
    holds(rt, "written", fs::write(rt, path, text.as_bytes()).is_ok());
    let mut files = RealFiles::new(rt.alloc(), rt);
    gives(rt, &mut files, path, bytes, &text);
    refuses(
        rt,
        &mut files,
        path,
        bytes.saturating_sub(1),
        LoadRefused::TooLong,
    );
    equal(rt, files.faults(), 0);
    holds(rt, "removed", fs::remove_file(rt, path).is_ok());
}

// Real files come whole where they are longer than one read or two.
#[test]
fn loads_files_of_several_reads(rt: HostRuntime) {
    comes_whole(&rt, 256, 4097);
    comes_whole(&rt, 512, 8193);
}
