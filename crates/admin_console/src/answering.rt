// What operators are answered.
ghost use Rattle.std.specs.Prelude.{◌≡◌, false, Some, IfOk, OnErr};
ghost use Rattle.service_events.specs.Commits.{live_rows};
ghost use Rattle.admin_console.specs.Answers.{IsAnswered, IsDone, IsLeft, IsUnanswered, MakesOrder};
ghost use Rattle.admin_console.specs.Asking.{is_of_the_run};
ghost use Rattle.admin_console.specs.declared.asking.Asked.TheVariants.{Order};

use crate::asking::{Asked, asked_in};
use crate::desk::Orders;
use crate::replies::{bad, fault_reply, order_reply};
use crate::reports::service_report;
use http_front::WireResponse;
use journal_rows::Command;
use lang_core::{Copied, Inputs, NoMemory, Text};
use std::alloc::Global;
use wire_fields::ConsoleRequest;

// Makes an order, and then tells its answer.
fn make_order<O: Orders>(
    alloc: Global,
    desk: &mut O,
    token: Text,
    command: Command,
    who: Text,
    inputs: Inputs,
) -> Result<WireResponse, NoMemory>
    ensures desk { IfOk result (λ response. IsDone O.kept O.waits O.made desk.old (Some (Order token command)) who inputs response desk.new) }
    ensures service { IfOk result (λ response. IsDone (λ s. s) (λ _. O.waits desk.old) MakesOrder (O.kept desk.old) (Some (Order token command)) who inputs response (O.kept desk.new)) }
    ensures desk_err { OnErr result (IsLeft O.made desk.old (Some (Order token command)) who inputs desk.new) }
    ensures service_err { OnErr result (IsLeft MakesOrder (O.kept desk.old) (Some (Order token command)) who inputs (O.kept desk.new)) }
    ensures silent { live_rows (O.kept desk.new).journal ≡ live_rows (O.kept desk.old).journal }
{
    let ordered = desk.order(alloc, command, token, who, inputs);
    order_reply(alloc, &desk.service().setting().me, ordered)
}

/// Does what was read of an operator's request, and makes its reply; of a body that was ill nothing was read. An order is made,
/// once, and then its answer is told; a report is of the service as it is; a body that is ill is told so, as is a text that is none, and
/// changes nothing.
/// Where there is no memory nothing changed, or an order was made and couldn't be told: asked again under its token, it is
/// answered as then. No live answer is made.
#[tactic(auto, using(crate::proofs::AnswerLemmas::told_report, crate::proofs::AnswerLemmas::told_fault, crate::proofs::AnswerLemmas::told_ill))]
pub fn carry_out<O: Orders>(
    alloc: Global,
    desk: &mut O,
    asked: Option<Asked>,
    who: Text,
    inputs: Inputs,
) -> Result<WireResponse, NoMemory>
    ensures desk { IfOk result (λ response. IsDone O.kept O.waits O.made desk.old asked who inputs response desk.new) }
    ensures service { IfOk result (λ response. IsDone (λ s. s) (λ _. O.waits desk.old) MakesOrder (O.kept desk.old) asked who inputs response (O.kept desk.new)) }
    ensures desk_err { OnErr result (IsLeft O.made desk.old asked who inputs desk.new) }
    ensures service_err { OnErr result (IsLeft MakesOrder (O.kept desk.old) asked who inputs (O.kept desk.new)) }
    ensures silent { live_rows (O.kept desk.new).journal ≡ live_rows (O.kept desk.old).journal }
{
    match asked {
        Some(Asked::Order { token, command }) => make_order(
            alloc, desk, token, command, who, inputs,
        ),
        Some(Asked::Report(which)) => service_report(alloc, desk.service(), desk.waits(), which),
        Some(Asked::IllText(fault)) => fault_reply(alloc, fault),
        None => bad(alloc),
    }
}

/// Answers an operator's request, whose word is none of the run: reads its body, and carries out what that asks. Who has a
/// service behind a lock reads the body before he takes the lock, and carries it out behind that.
#[tactic(auto, using(crate::proofs::AnswerLemmas::answered, crate::proofs::AnswerLemmas::unanswered, crate::proofs::AnswerLemmas::left_as_it_was))]
pub fn answer<O: Orders>(
    alloc: Global,
    desk: &mut O,
    request: &ConsoleRequest,
    inputs: Inputs,
) -> Result<WireResponse, NoMemory>
    requires word { is_of_the_run request.now.word ≡ false }
    ensures desk { IfOk result (λ response. IsAnswered O.kept O.waits O.made desk.old request.now inputs response desk.new) }
    ensures service { IfOk result (λ response. IsAnswered (λ s. s) (λ _. O.waits desk.old) MakesOrder (O.kept desk.old) request.now inputs response (O.kept desk.new)) }
    ensures desk_err { OnErr result (IsUnanswered O.made desk.old request.now inputs desk.new) }
    ensures service_err { OnErr result (IsUnanswered MakesOrder (O.kept desk.old) request.now inputs (O.kept desk.new)) }
    ensures silent { live_rows (O.kept desk.new).journal ≡ live_rows (O.kept desk.old).journal }
{
    let who = request.who.copied(alloc)?;
    let asked = asked_in(alloc, request)?;
    carry_out(alloc, desk, asked, who, inputs)
}
