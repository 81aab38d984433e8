// How a service is set up.
use authorise_rules::GivenRules;
use lang_base::both;
use lang_core::{Copied, NoMemory, Setting, Text};
use std::alloc::Global;

/// How a service of a world is set up: its setting, its rules, and how it is reached.
pub struct Setup {
    /// Its name, the names of the others, its program, and how heavy its journal may grow.
    pub setting: Setting,
    /// By which it allows repairs at first, with their text.
    pub rules: GivenRules,
    /// The secret that seals its messages, of 1 to 256 bytes.
    pub secret: Text,
    /// The secret that seals console requests, of 1 to 256 bytes.
    pub console: Text,
    /// The address that it listens at, of 1 to 64 visible ASCII characters.
    pub door: Text,
    /// How many workers serve requests, from 1 to 8.
    pub workers: u64,
    /// How many entries it leaves that aren't folded where it folds by itself, which it does while it is served; from 1,000 to
    /// 90,000. None where it never does.
    pub keep: Option<u64>,
}

impl Drop for Setup {
    fn drop(self) {
        let Self {
            setting: _,
            rules: _,
            secret: _,
            console: _,
            door: _,
            workers: _,
            keep: _,
        } = self;
    }
}

impl Copied for Setup {
    fn copied(&self, alloc: Global) -> Result<Setup, NoMemory> {
        let secrets = both(self.secret.copied(alloc), self.console.copied(alloc));
        let reached = both(secrets, self.door.copied(alloc));
        let set = both(self.setting.copied(alloc), self.rules.copied(alloc));
        let ((setting, rules), (secrets, door)) = both(set, reached)?;
        Ok(Setup {
            setting,
            rules,
            secret: secrets.0,
            console: secrets.1,
            door,
            workers: self.workers,
            keep: self.keep,
        })
    }
}
