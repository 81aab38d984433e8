// Lines that print what stands in a world.
ghost use Rattle.std.specs.Prelude.{◌≡◌, All, None, Ok, IfOk, length};
ghost use Rattle.call_registers.specs.Registers.{IsTimely};
ghost use Rattle.journal_rows.specs.declared.verdict.Verdict.TheVariants.{Legal};
ghost use Rattle.report_text.specs.Reports.{IsVerdictOver};
ghost use Rattle.service_events.specs.Fits.{Fits};
ghost use Rattle.service_events.specs.Allowed.{IsAllowed};
ghost use Rattle.service_events.specs.State.{Kept};
ghost use Rattle.world_agreement.specs.Legal.{AreLegal};
ghost use Rattle.world_agreement.specs.Partners.{IsJoined, service_of};
ghost use Rattle.script_run.specs.Audits.{SaysForged, verdict};
ghost use Rattle.script_run.specs.Counting.{printed};
ghost use Rattle.dump_lines.specs.Dumps.{dump_text};
ghost use Rattle.service_reports.specs.Changed.{changed_of_service};
ghost use Rattle.service_reports.specs.Reports.{log_of_service, notices_of_service, rows_of_service};
ghost use Rattle.service_reports.specs.Programs.{programs_of_service};
ghost use Rattle.script_run.specs.Plays.{audit_text};
ghost use Rattle.script_run.specs.Reporting.{report_of};

use crate::counts::Said;
use crate::dumping::dump_text;
use crate::printed::Printed;
use journal_rows::Verdict;
use lang_core::{Name, NoMemory, Text};
use report_text::verdict_text;
use script_lines::LineFault;
use service_reports::{changed_of, log_of, notices_of, programs_of, rows_of};
use std::alloc::Global;
use world_audit::audit;
use world_settle::{Service, World, names_of};

/// The rows of the service of this name, if it is there.
pub fn rows(alloc: Global, world: &World, name: &Name) -> Result<Result<Said, LineFault>, NoMemory>
    ensures { IfOk result (λ said. said ≡ report_of rows_of_service (service_of name.now world.now.services)) }
{
    match world.service(name) {
        Some(service) => Ok(Ok(Said::printed(Printed::report(rows_of(alloc, service)?)))),
        None => Ok(Err(LineFault::Service)),
    }
}

/// The log of the service of this name, if it is there.
pub fn log(alloc: Global, world: &World, name: &Name) -> Result<Result<Said, LineFault>, NoMemory>
    ensures { IfOk result (λ said. said ≡ report_of log_of_service (service_of name.now world.now.services)) }
{
    match world.service(name) {
        Some(service) => Ok(Ok(Said::printed(Printed::report(log_of(alloc, service)?)))),
        None => Ok(Err(LineFault::Service)),
    }
}

/// What the service of this name has held, if it is there. In a script no service folds by itself, so that no fold waits.
pub fn notices(
    alloc: Global,
    world: &World,
    name: &Name,
) -> Result<Result<Said, LineFault>, NoMemory>
    ensures { IfOk result (λ said. said ≡ report_of (notices_of_service None) (service_of name.now world.now.services)) }
{
    match world.service(name) {
        Some(service) => Ok(Ok(Said::printed(Printed::report(notices_of(alloc, service, None)?)))),
        None => Ok(Err(LineFault::Service)),
    }
}

/// The programs of the service of this name and its rules, if it is there.
pub fn programs(
    alloc: Global,
    world: &World,
    name: &Name,
) -> Result<Result<Said, LineFault>, NoMemory>
    ensures { IfOk result (λ said. said ≡ report_of programs_of_service (service_of name.now world.now.services)) }
{
    match world.service(name) {
        Some(service) => Ok(Ok(Said::printed(Printed::report(programs_of(alloc, service)?)))),
        None => Ok(Err(LineFault::Service)),
    }
}

/// The requests from outside to the service of this name whose last answer isn't the one that their client got, if it is there.
pub fn changed(
    alloc: Global,
    world: &World,
    name: &Name,
) -> Result<Result<Said, LineFault>, NoMemory>
    ensures { IfOk result (λ said. said ≡ report_of changed_of_service (service_of name.now world.now.services)) }
{
    match world.service(name) {
        Some(service) => Ok(Ok(Said::printed(Printed::report(changed_of(alloc, service)?)))),
        None => Ok(Err(LineFault::Service)),
    }
}

/// All services, written down.
pub fn dump(alloc: Global, world: &World) -> Result<Result<Said, LineFault>, NoMemory>
    ensures { IfOk result (λ said. said ≡ Ok (printed (dump_text world.now.services))) }
{
    Ok(Ok(Said::printed(Printed::report(dump_text(alloc, world.services())?))))
}

// Each fits its journal, which its type keeps.
fn each_fits(services: &[Service])
    ensures { All Fits services.now }
{
    for service in services {
        let _journal = service.journal();
    }
}

/// The audit's verdict over a world, which is the one that is defined, and speaks of one of its services. Where it is Legal,
/// the services' histories are one legal execution; where what each says of another is what that one says of itself, it isn't
/// Forged, and each repair that a service applied was allowed by its rules.
pub fn judge(world: &World) -> Verdict
    ensures same { result ≡ verdict world.now.services }
    ensures over { IsVerdictOver (length world.now.services) result }
    ensures legal { result ≡ Legal → AreLegal world.now.services }
    ensures joined { IsJoined world.now.services → ¬ (SaysForged result) }
    ensures allowed { IsJoined world.now.services → All IsAllowed world.now.services }

    // Services that are joined are timely: none holds an answer to a later version of a call than its register's.
    ensures timely { IsJoined world.now.services → All (λ (s : Kept). IsTimely s.registers) world.now.services }
{
    let services = world.services();
    each_fits(services);
    audit(services)
}

/// The verdict over all services of a world, as a line.
pub fn verdict_line(alloc: Global, world: &World) -> Result<Text, NoMemory>
    ensures { IfOk result (λ text. text ≡ audit_text world.now.services) }
{
    let names = names_of(alloc, world.services())?;
    verdict_text(alloc, &names, &judge(world))
}

/// The verdict over all services of a world, printed.
pub fn verdict_over(alloc: Global, world: &World) -> Result<Result<Said, LineFault>, NoMemory>
    ensures { IfOk result (λ said. said ≡ Ok (printed (audit_text world.now.services))) }
{
    Ok(Ok(Said::printed(Printed::report(verdict_line(alloc, world)?))))
}
