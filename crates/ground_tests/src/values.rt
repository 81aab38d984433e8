// That copies of what no service keeps succeed where memory suffices.
use crate::given::holds;
use lang_base::{Bytes, Copied, FaultNote};
use std::process::Abort;

fn bytes(rt: &(impl Abort + AllocGlobal)) {
    let bytes = Bytes::of(rt.alloc(), &[0, 255]).expect(rt, "memory");
    let copy = bytes.copied(rt.alloc()).expect(rt, "memory");
    holds(rt, "bytes", copy.as_slice() == [0, 255].as_slice());
}

fn note(rt: &(impl Abort + AllocGlobal)) {
    let note = FaultNote {
        before: 1,
        after: 2,
    };
    let copy = note.copied(rt.alloc()).expect(rt, "memory");
    holds(rt, "note", copy == note);
}

#[test]
fn copies_succeed(rt: HostRuntime) {
    bytes(&rt);
    note(&rt);
}
