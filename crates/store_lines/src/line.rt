// One line.
ghost use Rattle.std.specs.Prelude.{◌≡◌, List, ℕ};

use std::marker::Model;

/// The bytes of a line or of its text. Contracts see their list.
#[derive(Drop)]
pub struct Line {
    bytes: Vec<u8>,
}

impl Model for Line {
    ghost use Rattle.std.specs.Coded.{coded_list, coded_ℕ};
    ghost use Rattle.std.specs.Prelude.{List, ℕ};

    ghost Value = { List ℕ };

    ghost coded = { coded_list coded_ℕ };

    ghost view = { λ line. line.bytes.items };
}

impl Line {
    /// The line of these bytes.
    pub fn new(bytes: Vec<u8>) -> Line
        ensures { result ≡ bytes.items }
    {
        Line { bytes }
    }

    /// Its bytes.
    pub fn bytes(&self) -> &[u8]
        ensures { result.now ≡ self.now }
    {
        &self.bytes
    }
}
