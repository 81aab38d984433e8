// Questions to rules, and what they decide.
use lang_core::{Name, Text};
use repair_messages::Kind;

/// A repair, as rules are asked of it.
#[derive(Drop)]
pub struct Asked<'a> {
    /// What it asks for.
    pub kind: Kind,
    /// The service that sends it; None is an operator at the console.
    pub from: Option<&'a Name>,
    /// For whom it comes.
    pub who: &'a Text,
    /// For whom the request came that is repaired, where there is such a request.
    pub original: Option<&'a Text>,
    /// The path of the request that there is, if there is one.
    pub old_path: Option<&'a Text>,
    /// The path of the request that is to be, if there is one.
    pub new_path: Option<&'a Text>,
}

/// What rules decide of a repair, with the number of the rule that decides, counted from 1; Deny 0 where none matches.
#[derive(Clone, Copy, PartialEq, Eq, Debug)]
pub enum Decision {
    Allow(u32),
    Deny(u32),
}
