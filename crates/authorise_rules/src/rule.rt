// Rules.
use lang_base::both;
use lang_core::{Copied, Name, NoMemory, Text};
use repair_messages::Kind;
use std::alloc::Global;

/// What a rule decides where it matches.
#[derive(Clone, Copy, PartialEq, Eq, Debug)]
pub enum Verb {
    Allow,
    Deny,
}

/// The kinds of repairs that a rule is about.
#[derive(Clone, Copy)]
pub enum Kinds {
    Any,
    Only(Kind),
}

/// From whom a repair comes that a rule is about.
pub enum Senders {
    Any,
    /// An operator at the console.
    Console,
    /// A service, which is named neither `any` nor `console`.
    Only(Name),
}

impl Drop for Senders {
    fn drop(self) {
        match self {
            Self::Any | Self::Console | Self::Only(_) => {}
        }
    }
}

/// For whom a repair comes that a rule is about.
pub enum Users {
    Any,
    /// The user for whom the request came that is repaired.
    Same,
    /// A user, of 1 to 64 visible characters.
    Only(Text),
}

impl Drop for Users {
    fn drop(self) {
        match self {
            Self::Any | Self::Same | Self::Only(_) => {}
        }
    }
}

/// A rule: what it decides, and which repairs it is about.
pub struct Rule {
    pub verb: Verb,
    pub kind: Kinds,
    pub from: Senders,
    pub who: Users,
    /// A path. An allowing rule is about repairs each of whose paths begins with it, a denying one about those of which
    /// one does.
    pub prefix: Text,
}

impl Drop for Rule {
    fn drop(self) {
        let Self {
            verb: _,
            kind: _,
            from: _,
            who: _,
            prefix: _,
        } = self;
    }
}

impl Copied for Senders {
    fn copied(&self, alloc: Global) -> Result<Senders, NoMemory> {
        match self {
            Senders::Any => Ok(Senders::Any),
            Senders::Console => Ok(Senders::Console),
            Senders::Only(service) => Ok(Senders::Only(service.copied(alloc)?)),
        }
    }
}

impl Copied for Users {
    fn copied(&self, alloc: Global) -> Result<Users, NoMemory> {
        match self {
            Users::Any => Ok(Users::Any),
            Users::Same => Ok(Users::Same),
            Users::Only(user) => Ok(Users::Only(user.copied(alloc)?)),
        }
    }
}

impl Copied for Rule {
    fn copied(&self, alloc: Global) -> Result<Rule, NoMemory> {
        let (from, who) = both(self.from.copied(alloc), self.who.copied(alloc))?;
        let prefix = self.prefix.copied(alloc)?;
        Ok(Rule {
            verb: self.verb,
            kind: self.kind,
            from,
            who,
            prefix,
        })
    }
}
