//! Rules: which repairs a service allows, by their kind, their sender, their user and their paths.
//!
//! A service's rules are a list of lines, and the first rule that matches a question decides it. A text is read as the
//! rules that it spells, or refused at its first bad line, and what is printed of rules reads back to them.
#![tactic(auto)]

mod asked;
mod deciding;
mod given;
mod printing;
mod reading;
mod refused;
mod rule;
mod rules;
mod words;

pub use asked::{Asked, Decision};
pub use deciding::decide;
pub use given::{GivenRules, read_given};
pub use printing::print_rules;
pub use reading::read_rules;
pub use refused::RulesRefused;
pub use rule::{Kinds, Rule, Senders, Users, Verb};
pub use rules::{MOST_RULES, Rules};
