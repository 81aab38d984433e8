// Where the head of a message ends, as far as an ear looks for it.

/// How far the head of a message has come.
#[derive(Clone, Copy, Debug, PartialEq, Eq)]
pub enum Head {
    /// Nothing but CR and LF.
    Blank,
    /// Within a line.
    Line,
    /// Behind the LF of a line.
    LineEnd,
    /// Behind that LF and one CR.
    LineEndCr,
    /// Behind the empty line that ends the head.
    Whole,
}

impl Head {
    fn after(self, byte: u8) -> Head {
        match (self, byte) {
            (Head::Whole, _) => Head::Whole,
            (Head::LineEnd | Head::LineEndCr, b'\n') => Head::Whole,
            (Head::Blank, b'\r' | b'\n') => Head::Blank,
            (Head::LineEnd, b'\r') => Head::LineEndCr,
            (_, b'\n') => Head::LineEnd,
            _ => Head::Line,
        }
    }

    /// How far it came with these bytes.
    pub fn after_all(self, bytes: &[u8]) -> Head {
        let mut head = self;
        for byte in bytes {
            head = head.after(*byte);
        }
        head
    }
}
