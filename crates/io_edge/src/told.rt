// The calls that a source or a sink in memory is told to fail.
ghost use Rattle.std.specs.Prelude.{◌≡◌, ◌≤◌, ◌↔◌, IsTrue};

/// The calls that are to fail, counted from 1, how many were made, and how many failed.
pub struct FailingCalls {
    pub failing: Vec<u64>,
    pub made: u64,
    pub faults: u64,
}

impl Drop for FailingCalls {
    fn drop(self) {
        let Self {
            failing: _,
            made: _,
            faults: _,
        } = self;
    }
}

impl FailingCalls {
    ghost use Rattle.io_edge.specs.Told.{count_after, IsToldToFail};

    /// No call was made so far.
    pub fn new(failing: Vec<u64>) -> Self
        ensures failing { result.failing ≡ failing }
        ensures made { result.made ≡ 0 }
        ensures faults { result.faults ≡ 0 }
    {
        FailingCalls {
            failing,
            made: 0,
            faults: 0,
        }
    }

    /// Counts a call, and says whether it is to fail.
    pub fn fails(&mut self) -> bool
        ensures told { IsTrue result ↔ IsToldToFail self.old }
        ensures failing { self.new.failing ≡ self.old.failing }
        ensures made { self.new.made ≡ count_after self.old.made }
        ensures faults { self.new.faults ≡ self.old.faults }
    {
        self.made = self.made.saturating_add(1);
        self.failing.contains(&self.made)
    }

    /// Counts a fault.
    pub fn fault(&mut self)
        ensures failing { self.new.failing ≡ self.old.failing }
        ensures made { self.new.made ≡ self.old.made }
        ensures faults { self.new.faults ≡ count_after self.old.faults }
        ensures counted { self.old.faults ≤ self.new.faults }
    {
        self.faults = self.faults.saturating_add(1);
    }
}
