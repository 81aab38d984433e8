// Services, brought to rest.
ghost use Rattle.std.specs.Prelude.{◌≡◌, IfOk, OnOk, IsTrue, false, find};
ghost use Rattle.std.specs.Option.{option_copied};
ghost use Rattle.call_registers.specs.Registers.{IsNumbered, IsTimely};
ghost use Rattle.node_run.specs.Settled.{is_early, HasSettled, HaveSettled};
ghost use Rattle.node_run.specs.Stepping.{ComesToRest, HasStepped, has_run};

use call_registers::Register;
use lang_core::NoMemory;
use local_repair::Stepped;
use service_core::Service;
use std::alloc::Global;

fn has_run(stepped: Stepped) -> bool
    ensures { result ≡ has_run stepped }
{
    match stepped {
        Stepped::Idle => false,
        Stepped::Ran { .. } => true,
    }
}

// A repair step; whether an entry ran.
fn step(alloc: Global, service: &mut Service) -> Result<bool, NoMemory>
    ensures { IfOk result (λ ran. HasStepped service.old ran service.new) }
{
    let stepped = service.repair_step(alloc)?;
    Ok(has_run(stepped))
}

// Repair steps until one is idle, at most as many as there are entries that aren't folded.
fn step_until_idle(alloc: Global, service: &mut Service) -> Result<(), NoMemory>
    ensures { OnOk result (ComesToRest service.old service.new) }
{
    let mut left = service.entries().len();
    while left > 0 {
        let ran = step(alloc, service)?;
        left = if ran { left - 1 } else { 0 };
    }
    Ok(())
}

// Whether the call holds an answer to a later version of it.
fn is_early(register: &Register) -> bool
    ensures { result ≡ is_early register.now }
{
    match &register.answer {
        Some(answer) => register.version < answer.version,
        None => false,
    }
}

fn first_early(registers: &[Register]) -> Option<&Register>
    ensures { option_copied result ≡ find is_early registers.now }
{
    registers.iter().find(|register| is_early(register))
}

#[tactic(auto, using(crate::proofs::SettlingLemmas::timely, crate::proofs::SettlingLemmas::untimely))]
fn are_timely(registers: &[Register]) -> bool
    requires { IsNumbered registers.now }
    ensures yes { IsTrue result → IsTimely registers.now }
    ensures no { result ≡ false → ¬ (IsTimely registers.now) }
{
    match first_early(registers) {
        None => true,
        Some(_) => false,
    }
}

fn is_timely(service: &Service) -> bool
    ensures yes { IsTrue result → IsTimely service.now.registers }
    ensures no { result ≡ false → ¬ (IsTimely service.now.registers) }
{
    are_timely(service.registers().as_slice())
}

// Brings a service to rest. Where calls held answers to later versions of them, the steps so far may have left some entry
// stale, though no call does any more.
fn settle(alloc: Global, service: &mut Service) -> Result<(), NoMemory>
    ensures { OnOk result (HasSettled service.old service.new) }
{
    step_until_idle(alloc, service)?;
    if is_timely(service) {
        step_until_idle(alloc, service)?;
    }
    Ok(())
}

/// The services, each brought to rest by repair steps: none that is timely has a stale entry any more, and none answers a live
/// request or has an order more. They are the same services, in order, and their journals go on.
#[tactic(auto, using(crate::proofs::SettlingLemmas::settled_next))]
pub fn settle_all(alloc: Global, services: Vec<Service>) -> Result<Vec<Service>, NoMemory>
    ensures { IfOk result (λ settled. HaveSettled services.items settled.items) }
{
    let mut settled = Vec::with_capacity(alloc, services.len())?;
    for mut service in services {
        settle(alloc, &mut service)?;
        settled.push(service)?;
    }
    Ok(settled)
}
