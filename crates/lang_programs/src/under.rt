// The program that a request runs under.
ghost use Rattle.std.specs.Prelude.{◌≡◌, true};
ghost use Rattle.lang_programs.specs.Under.{corrected_under, settled, under_of};

use crate::deployed::Deployed;
use lang_core::{Copied, NoMemory, Shared};
use std::alloc::Global;
use std::marker::Model;
use std::mem;

/// The program of a request in a log, and the one that its record was made under. The two differ from a correction of the
/// program until the request ran again, or its record was found to be that of its program now.
pub struct Under {
    now: Shared<Deployed>,
    // None where it is the same.
    ran: Option<Shared<Deployed>>,
}

impl Drop for Under {
    fn drop(self) {
        let Self { now: _, ran: _ } = self;
    }
}

impl Model for Under {
    ghost use Rattle.lang_programs.specs.Under.{Under, ran_or, under_code};

    ghost Value = { Under };

    ghost coded = { under_code };

    ghost view = { λ under. record { now = under.now; ran = ran_or under.now under.ran } };
}

impl Under {
    /// A request and its record under the same program.
    pub fn of(program: Shared<Deployed>) -> Under
        ensures { result ≡ under_of program }
    {
        Under {
            now: program,
            ran: None,
        }
    }

    /// Its program.
    pub fn now(&self) -> &Shared<Deployed>
        ensures { result.now ≡ self.entry.now.now }
    {
        &self.now
    }

    /// The program that its record was made under.
    pub fn ran(&self) -> &Shared<Deployed>
        ensures { result.now ≡ self.entry.now.ran }
    {
        match &self.ran {
            None => &self.now,
            Some(ran) => ran,
        }
    }

    /// Whether the record is known to be made under its program. Where this is false the two may still be the same.
    pub fn is_settled(&self) -> bool
        ensures { result ≡ true → self.entry.now.ran ≡ self.entry.now.now }
    {
        self.ran.is_none()
    }

    /// Notes that it ran under its program.
    pub fn settle(&mut self)
        ensures { self.new ≡ settled self.old }
    {
        self.ran = None;
    }

    /// Gives it another program. Its record stays the one that was made under another.
    pub fn correct(&mut self, program: Shared<Deployed>)
        ensures { self.new ≡ corrected_under program self.old }
    {
        let before = mem::replace(&mut self.now, program);
        if self.ran.is_none() {
            self.ran = Some(before);
        }
    }
}

impl Copied for Under {
    fn copied(&self, alloc: Global) -> Result<Under, NoMemory> {
        let now = self.now.copied(alloc)?;
        let ran = Copied::copied(&self.ran, alloc)?;
        Ok(Under { now, ran })
    }
}
