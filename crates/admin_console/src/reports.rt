// Reports of a service.
ghost use Rattle.std.specs.Prelude.{◌≡◌, IfOk};
ghost use Rattle.admin_console.specs.Replies.{report_reply};
ghost use Rattle.admin_console.specs.Reports.{report_of};

use crate::asking::Report;
use crate::replies::report_reply;
use http_front::WireResponse;
use lang_core::{NoMemory, Text};
use repair_messages::Refusal;
use service_reports::{Service, changed_of, log_of, notices_of, programs_of, rows_of};
use std::alloc::Global;

fn report_of(
    alloc: Global,
    service: &Service,
    waits: Option<Refusal>,
    report: Report,
) -> Result<Text, NoMemory>
    ensures { IfOk result (λ text. text ≡ report_of report waits service.now) }
{
    match report {
        Report::Notices => notices_of(alloc, service, waits),
        Report::Log => log_of(alloc, service),
        Report::Rows => rows_of(alloc, service),
        Report::Programs => programs_of(alloc, service),
        Report::Changed => changed_of(alloc, service),
    }
}

/// A report of a service as it is, for which a fold waits for this reason, as it is replied.
pub fn service_report(
    alloc: Global,
    service: &Service,
    waits: Option<Refusal>,
    report: Report,
) -> Result<WireResponse, NoMemory>
    ensures { IfOk result (λ response. response ≡ report_reply (report_of report waits service.now)) }
{
    let text = report_of(alloc, service, waits, report)?;
    report_reply(alloc, &text)
}
