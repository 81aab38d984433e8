// What may show that there is no order.
use dump_tables::{DumpEntry, DumpService};

/// An entry of a service.
#[derive(Clone, Copy)]
pub struct At<'a> {
    pub service: &'a DumpService,
    pub entry: &'a DumpEntry,
}

/// An entry, and the slots in which calls lead from its root down to it.
pub struct Mark<'a> {
    pub at: At<'a>,
    pub slots: Vec<usize>,
}

impl Drop for Mark<'_> {
    fn drop(self) {
        let Self { at: _, slots: _ } = self;
    }
}

/// Two neighbours, and the root of the second.
pub struct Link<'a> {
    pub first: Mark<'a>,
    pub second: Mark<'a>,
    pub root: At<'a>,
}

impl Drop for Link<'_> {
    fn drop(self) {
        let Self {
            first: _,
            second: _,
            root: _,
        } = self;
    }
}

/// Two neighbours, their roots, and the links of a way back from the root of the second to that of the first; none where
/// both are of one root.
pub struct Candidate<'a> {
    pub first: Mark<'a>,
    pub root: At<'a>,
    pub second: Mark<'a>,
    pub other: At<'a>,
    pub back: Vec<Link<'a>>,
}

impl Drop for Candidate<'_> {
    fn drop(self) {
        let Self {
            first: _,
            root: _,
            second: _,
            other: _,
            back: _,
        } = self;
    }
}
