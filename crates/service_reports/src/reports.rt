// Reports of a service.
ghost use Rattle.std.specs.Prelude.{◌≡◌, IfOk};
ghost use Rattle.service_reports.specs.Reports.{log_of_service, notices_of_service, rows_of_service};

use lang_core::{NoMemory, Text};
use preview_core::Service;
use repair_messages::Refusal;
use report_text::{log_text, notices, notices_text, rows_text};
use std::alloc::Global;

/// Its rows.
pub fn rows_of(alloc: Global, service: &Service) -> Result<Text, NoMemory>
    ensures { IfOk result (λ text. text ≡ rows_of_service service.now) }
{
    rows_text(alloc, &service.rows(alloc)?)
}

/// Its log.
pub fn log_of(alloc: Global, service: &Service) -> Result<Text, NoMemory>
    ensures { IfOk result (λ text. text ≡ log_of_service service.now) }
{
    log_text(alloc, &service.setting().me, service.entries())
}

/// What it has held, and why a fold waits that it would make by itself, if one does.
pub fn notices_of(
    alloc: Global,
    service: &Service,
    waits: Option<Refusal>,
) -> Result<Text, NoMemory>
    ensures { IfOk result (λ text. text ≡ notices_of_service waits service.now) }
{
    notices_text(
        alloc,
        &notices(alloc, service.registers(), service.replies())?,
        waits,
    )
}
