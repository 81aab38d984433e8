// A line with a text: an order that is made of it, or why it is none.
ghost use Rattle.std.specs.Prelude.{◌≡◌, ◌++◌, IfOk, None, OnErr, OnOk, string_bytes};
ghost use Rattle.script_text.specs.Happenings.{refused_line};
ghost use Rattle.world_agreement.specs.Partners.{service_of};
ghost use Rattle.order_texts.specs.Texts.{command_given};
ghost use Rattle.script_run.specs.Giving.{fault_told, given_events, given_said, text_refused};
ghost use Rattle.script_run.specs.Reporting.{report_of};
ghost use Rattle.script_run.specs.Stops.{Does, DoesFirst};
ghost use Rattle.script_run.specs.Told.{saying};

use crate::counts::Said;
use crate::printed::Printed;
use crate::telling::happen;
use lang_core::{Name, NoMemory, Text};
use order_texts::{TextFault, TextOrder, command_given};
use script_lines::LineFault;
use script_text::push_refused_so;
use std::alloc::Global;
use world_settle::{Event, Service, World};

fn push_fault(line: &mut String, me: &Name, fault: TextFault) -> Result<(), NoMemory>
    ensures { OnOk result (string_bytes line.new ≡ string_bytes line.old ++ refused_line me.now (fault_told fault) None) }
{
    match fault {
        TextFault::Program(at) => push_refused_so(line, me, "program", Some(at), None),
        TextFault::Rules(number) => push_refused_so(line, me, "rules", Some(number), None),
    }
}

/// The line that tells why no order of a service is made of a text.
pub fn text_refused(alloc: Global, service: &Service, fault: TextFault) -> Result<Text, NoMemory>
    ensures { IfOk result (λ text. text ≡ text_refused fault service.now) }
{
    let mut line = String::new(alloc);
    push_fault(&mut line, &service.setting().me, fault)?;
    Text::shared(line)
}

// That of the service of this name, if it is there.
fn refused(
    alloc: Global,
    world: &World,
    name: &Name,
    fault: TextFault,
) -> Result<Result<Said, LineFault>, NoMemory>
    ensures { IfOk result (λ said. said ≡ report_of (text_refused fault) (service_of name.now world.now.services)) }
{
    match world.service(name) {
        Some(service) => Ok(Ok(Said::printed(Printed::report(text_refused(
            alloc, service, fault,
        )?)))),
        None => Ok(Err(LineFault::Service)),
    }
}

/// An order that this text is given for. Where the text is none, nothing happens, and it is told where it is none. For want of
/// memory the order was made or it wasn't, and nothing is said.
#[tactic(auto, using(crate::proofs::GivenLemmas::given_acts, crate::proofs::GivenLemmas::given_first, crate::proofs::GivenLemmas::given_refused))]
pub fn given(
    alloc: Global,
    world: &mut World,
    service: Name,
    order: TextOrder,
    token: Text,
    who: Text,
    text: &Text,
) -> Result<Result<Said, LineFault>, NoMemory>
    ensures does { IfOk result (λ said. Does world.old (λ events. events ≡ given_events service token who (command_given order text.now))
        (saying (given_said world.old service (command_given order text.now))) said world.new) }
    ensures early { OnErr result (DoesFirst world.old (λ events. events ≡ given_events service token who (command_given order text.now)) world.new) }
{
    match command_given(alloc, order, text)? {
        Ok(command) => happen(
            alloc,
            world,
            Event::Order {
                service,
                command,
                token,
                who,
            },
        ),
        Err(fault) => refused(alloc, world, &service, fault),
    }
}
