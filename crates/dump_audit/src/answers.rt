// What services answered one another.
ghost use Rattle.std.specs.Prelude.{◌≡◌};
ghost use Rattle.lang_base.specs.Equal.{equal};
ghost use Rattle.lang_core.specs.contracts.request.Request as request;
ghost use Rattle.dump_tables.specs.Kept.{AreKept};
ghost use Rattle.dump_audit.specs.Judging.{all_served, answer_fault, is_answered, is_served, serves};

use crate::judged::Fault;
use crate::replays::is_response;
use dump_tables::{DumpEntry, DumpService, DumpServices};
use lang_core::{CallMade, Name, Request, Response, Same};

fn request_is(logged: &Request, asked: &Request) -> bool
    ensures { result ≡ equal request.the_row.coded logged.now asked.now }
{
    logged.is(asked)
}

fn serves(call: &CallMade, answer: &Response, entry: &DumpEntry) -> bool
    ensures { result ≡ serves call.now answer.now entry.now }
{
    entry.wanted && request_is(&entry.request, &call.request) && is_response(&entry.reply, answer)
}

fn is_served(
    services: &DumpServices,
    caller: &Name,
    number: u64,
    call: &CallMade,
    answer: &Response,
) -> bool
    requires { ∥ AreKept services.now ∥₁ }
    ensures { result ≡ is_served services.now caller.now number call.now answer.now }
{
    let Some(service) = services.named(&call.dest) else {
        return false;
    };
    match service.entries.of_call(caller, number) {
        None => false,
        Some(entry) => serves(call, answer, entry),
    }
}

fn all_served(
    services: &DumpServices,
    caller: &Name,
    calls: &[CallMade],
    numbers: &[u64],
    answers: &[Response],
) -> bool
    requires { ∥ AreKept services.now ∥₁ }
    ensures { result ≡ all_served services.now caller.now calls.now numbers.now answers.now }
{
    let mut numbers = numbers;
    let mut answers = answers;
    for call in calls {
        let [number, more_numbers @ ..] = numbers else {
            return false;
        };
        let [answer, more_answers @ ..] = answers else {
            return false;
        };
        if !is_served(services, caller, *number, call, answer) {
            return false;
        }
        numbers = more_numbers;
        answers = more_answers;
    }
    numbers.is_empty() && answers.is_empty()
}

fn is_answered(services: &DumpServices, me: &Name, entry: &DumpEntry) -> bool
    requires { ∥ AreKept services.now ∥₁ }
    ensures { result ≡ is_answered services.now me.now entry.now }
{
    if !entry.is_alive() {
        return true;
    }
    entry.reply.is_some()
        && all_served(
            services,
            me,
            entry.calls.as_slice(),
            entry.numbers.as_slice(),
            entry.answers.as_slice(),
        )
}

/// The first entry of a service that has a call which isn't served.
pub(crate) fn answer_fault(services: &DumpServices, service: &DumpService) -> Option<(u64, Fault)>
    requires { ∥ AreKept services.now ∥₁ }
    ensures { result ≡ answer_fault services.now service.now }
{
    for entry in service.entries.as_slice() {
        if !is_answered(services, &service.setting.me, entry) {
            return Some((entry.id, Fault::Answer));
        }
    }
    None
}
