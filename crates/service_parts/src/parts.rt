// What a service keeps, part by part.
use authorise_rules::GivenRules;
use call_registers::{Registers, Replies};
use flights::Flights;
use journal_rows::Rows;
use lang_core::{Setting, Shared};
use local_repair::Repairer;
use request_log::Deployed;

/// What a service keeps: what it is set to do, its first program among it; the rules with which it began, and those by which it
/// allows repairs now; the program under which what comes now runs; its log under repair, its flights, its journal, its
/// registers and its replies.
pub struct Parts {
    pub setting: Setting,
    pub began: Shared<GivenRules>,
    pub rules: Shared<GivenRules>,
    pub newest: Shared<Deployed>,
    pub repairer: Repairer,
    pub flights: Flights,
    pub journal: Rows,
    pub registers: Registers,
    pub replies: Replies,
}

impl Drop for Parts {
    fn drop(self) {
        let Self {
            setting: _,
            began: _,
            rules: _,
            newest: _,
            repairer: _,
            flights: _,
            journal: _,
            registers: _,
            replies: _,
        } = self;
    }
}
