// Repair steps until one is idle.
ghost use Rattle.std.specs.Prelude.{◌≡◌, ◌<◌, ◌^◌, IfOk, length};
ghost use Rattle.call_registers.specs.Registers.{IsTimely};
ghost use Rattle.service_events.specs.Fits.{Fits};
ghost use Rattle.service_events.specs.Steps.{step_event};
ghost use Rattle.preview_core.specs.Repairs.{HasRepaired, IsNoted};

use lang_core::NoMemory;
use local_repair::Stepped;
use request_log::Numbers;
use service_core::Service;
use std::alloc::Global;

/// What a service keeps fits its journal, whose rows can be counted; its type keeps that.
pub(crate) fn look_at(service: &Service)
    ensures fits { Fits service.now }
    ensures few { length service.now.journal < 2 ^ 64 }
{
    let _journal = service.journal();
}

// Notes the entry that ran behind the others; whether one ran.
fn note(stepped: Stepped, ids: &mut Numbers) -> Result<bool, NoMemory>
    ensures { IfOk result (λ ran. IsNoted stepped ids.old ids.new ran) }
{
    match stepped {
        Stepped::Idle => Ok(false),
        Stepped::Ran { id, answered: _ } => {
            ids.push(id)?;
            Ok(true)
        }
    }
}

// A repair step, whose entry is noted where one ran; whether one did.
fn step(alloc: Global, service: &mut Service, ids: &mut Numbers) -> Result<bool, NoMemory>
    ensures fits { Fits service.old }
    ensures few { length service.new.journal < 2 ^ 64 }
    ensures steps { IfOk result (λ ran. service.new ≡ (step_event service.old).service) }
    ensures noted { IfOk result (λ ran. IsNoted (step_event service.old).answer ids.old ids.new ran) }
{
    look_at(service);
    let stepped = service.repair_step(alloc);
    look_at(service);
    note(stepped?, ids)
}

/// Repair steps until one is idle; the numbers of the entries that ran, in order. There are at most as many as entries that
/// aren't folded.
pub(crate) fn step_until_idle(alloc: Global, service: &mut Service) -> Result<Numbers, NoMemory>
    requires { IsTimely service.old.registers }
    ensures { IfOk result (λ ids. HasRepaired service.old ids service.new) }
{
    let mut ids = Numbers::new(alloc);
    let mut left = service.entries().len();
    while left > 0 {
        let ran = step(alloc, service, &mut ids)?;
        left = if ran { left - 1 } else { 0 };
    }
    Ok(ids)
}
