// Whether a repair of a service can be tried.
ghost use Rattle.std.specs.Prelude.{◌≡◌, find};
ghost use Rattle.std.specs.Option.{option_copied, option_map};
ghost use Rattle.journal_rows.specs.declared.verdict.Outstanding.{Outstanding as Left};
ghost use Rattle.service_core.specs.Readings.{first_stale};
ghost use Rattle.preview_core.specs.Previews.{is_early, not_idle, not_ready, untimely};

use crate::refused::PreviewRefused;
use call_registers::Register;
use journal_rows::Outstanding;
use service_core::Service;

// Whether the call holds an answer to a later version of it.
fn is_early(register: &Register) -> bool
    ensures { result ≡ is_early register.now }
{
    match &register.answer {
        Some(answer) => register.version < answer.version,
        None => false,
    }
}

fn first_early(registers: &[Register]) -> Option<&Register>
    ensures { option_copied result ≡ find is_early registers.now }
{
    registers.iter().find(|register| is_early(register))
}

// The number of the first call that holds an answer to a later version of it.
fn untimely(service: &Service) -> Option<u64>
    ensures { result ≡ untimely service.now }
{
    let register = first_early(service.registers().as_slice())?;
    Some(register.number)
}

fn first_stale(service: &Service) -> Option<Outstanding>
    ensures { result ≡ option_map Left.Stale (first_stale service.now) }
{
    let id = service.first_stale()?;
    Some(Outstanding::Stale(id))
}

// The first live request that waits for a call, else the first stale entry.
fn not_idle(service: &Service) -> Option<Outstanding>
    ensures { result ≡ not_idle service.now }
{
    match service.flights().as_slice() {
        [] => first_stale(service),
        [flight, ..] => Some(Outstanding::Flight(flight.id)),
    }
}

/// Why no repair of the service can be tried, if none can.
pub(crate) fn not_ready(service: &Service) -> Option<PreviewRefused>
    ensures { result ≡ not_ready service.now }
{
    if let Some(what) = not_idle(service) {
        return Some(PreviewRefused::NotIdle(what));
    }
    let number = untimely(service)?;
    Some(PreviewRefused::Untimely(number))
}
