//! What services say to one another: calls as they are sent, answers, tokens that announce them, and what acknowledges these.
#![tactic(auto)]

mod kinds;
mod messages;
mod pairs;
mod posts;
mod refusals;

pub use kinds::{Kind, kind_of, kind_word, spelling};
pub use messages::{Ack, AnswerMessage, Confirm, Fetch, SetMessage, TokenMessage};
pub use pairs::copied_pair;
pub use posts::{Post, PostName};
pub use refusals::{Refusal, RefusalWord};
