// Assertions, texts and names, sources, and messages of some length.
use io_edge::MemorySource;
use lang_core::{Name, Text};
use std::process::Abort;

/// This is so, in a case that has this name.
pub fn holds(rt: &impl Abort, case: &str, is_so: bool) {
    assert!(rt; is_so, "{case}");
}

pub fn equal(rt: &impl Abort, found: u64, want: u64) {
    assert_eq!(rt; found, want);
}

pub fn same(rt: &impl Abort, found: &str, want: &str) {
    assert_eq!(rt; found, want);
}

pub fn text(rt: &(impl Abort + AllocGlobal), characters: &str) -> Text {
    Text::of(rt.alloc(), characters).expect(rt, "memory")
}

pub fn name(rt: &(impl Abort + AllocGlobal), characters: &str) -> Name {
    Name::new(text(rt, characters)).ok().expect(rt, "a name")
}

/// The call that fails; none where it is 0.
pub fn failing(rt: &(impl Abort + AllocGlobal), call: u64) -> Vec<u64> {
    vec![in rt.alloc(); call].expect(rt, "memory")
}

/// A source of bytes, read in pieces of two, of whose reads one fails.
pub fn source(rt: &(impl Abort + AllocGlobal), bytes: &[u8], fails: u64) -> MemorySource {
    let bytes = bytes.to_vec(rt.alloc()).expect(rt, "memory");
    MemorySource::in_pieces(bytes, 2, failing(rt, fails))
}

/// So many letters.
pub fn letters(rt: &(impl Abort + AllocGlobal), count: usize) -> String {
    "x".repeat(rt.alloc(), count).expect(rt, "memory")
}

/// A message with so many letters in the value of its one field; the rest has 8 bytes and the line.
pub fn with_value(rt: &(impl Abort + AllocGlobal), line: &str, count: usize) -> String {
    let value = letters(rt, count);
    format!(in rt.alloc(); "{line}\r\nA:{value}\r\n\r\n").expect(rt, "memory")
}

/// The first bytes, so many where there are as many.
pub fn front(bytes: &[u8], count: usize) -> &[u8] {
    if count <= bytes.len() {
        &bytes[..count]
    } else {
        bytes
    }
}
