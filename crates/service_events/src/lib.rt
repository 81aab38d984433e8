//! What a service means: what it keeps, how that fits its journal, and what each event makes of it and answers.
//!
//! Each event is a function of the service and its arguments. It never wants memory: code that meets it either does just
//! that, or wants memory and changes nothing.
#![tactic(auto)]

mod answers;
mod event;
mod refusals;

pub use answers::{Arrived, Heard, Ordered, PostReply, PostWord, Posted, Taken};
pub use event::{Done, Event};
pub use flights::Flight;
pub use local_repair::Stepped;
pub use refusals::{
    AnswerRefused, ArriveRefused, CallRefused, GiveRefused, OrderRefused, PostRefused, TakeRefused,
};
