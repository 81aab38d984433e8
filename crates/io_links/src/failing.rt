// The calls of an object in memory that are to fail.
ghost use Rattle.std.specs.Prelude.{◌≡◌, ◌≤◌, ◌↔◌, IsErr, OnOk, OnErr};
ghost use Rattle.io_edge.specs.Told.{count_after};
ghost use Rattle.io_links.specs.Failing.{IsToldToFail};

use io_edge::Failed;

/// The calls that are to fail, counted from 1, how many were made, and how many failed.
pub struct FailingCalls {
    pub failing: Vec<u64>,
    pub made: u64,
    pub faults: u64,
}

impl Drop for FailingCalls {
    fn drop(self) {
        let Self {
            failing: _,
            made: _,
            faults: _,
        } = self;
    }
}

impl FailingCalls {
    /// No call was made so far.
    pub fn new(failing: Vec<u64>) -> Self
        ensures failing { result.failing ≡ failing }
        ensures made { result.made ≡ 0 }
        ensures faults { result.faults ≡ 0 }
    {
        FailingCalls {
            failing,
            made: 0,
            faults: 0,
        }
    }

    /// Counts a call, which fails where it is told to, and then counts as a fault.
    pub fn next(&mut self) -> Result<(), Failed>
        ensures told { IsErr result ↔ IsToldToFail self.old }
        ensures failing { self.new.failing ≡ self.old.failing }
        ensures made { self.new.made ≡ count_after self.old.made }
        ensures ok { OnOk result (self.new.faults ≡ self.old.faults) }
        ensures err { OnErr result (self.new.faults ≡ count_after self.old.faults) }
        ensures counted { self.old.faults ≤ self.new.faults }
    {
        self.made = self.made.saturating_add(1);
        if self.failing.contains(&self.made) {
            self.fault();
            return Err(Failed);
        }
        Ok(())
    }

    /// Counts a fault.
    pub fn fault(&mut self)
        ensures failing { self.new.failing ≡ self.old.failing }
        ensures made { self.new.made ≡ self.old.made }
        ensures faults { self.new.faults ≡ count_after self.old.faults }
        ensures counted { self.old.faults ≤ self.new.faults }
    {
        self.faults = self.faults.saturating_add(1);
    }
}
