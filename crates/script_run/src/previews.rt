// Lines that print what an order would come to.
ghost use Rattle.std.specs.Prelude.{◌≡◌, ◌++◌, Err, IfOk, None, OnOk, string_bytes};
ghost use Rattle.order_texts.specs.Texts.{program_given};
ghost use Rattle.service_reports.specs.HandedOn.{Cancel};
ghost use Rattle.script_text.specs.Happenings.{refused_line};
ghost use Rattle.world_agreement.specs.Partners.{service_of};
ghost use Rattle.script_run.specs.Previewing.{PrintsPreview, PrintsRehearsal, SaysShown, preview_text, unshown_refusal};

use crate::counts::Said;
use crate::giving::text_refused;
use crate::printed::Printed;
use lang_core::{Name, NoMemory, Text};
use order_texts::{TextFault, program_given};
use script_lines::LineFault;
use script_text::{push_refused, push_refused_so};
use service_reports::{Trial, Unshown, trial_shown};
use std::alloc::Global;
use world_settle::{Service, World};

fn push_why(line: &mut String, me: &Name, why: Unshown) -> Result<(), NoMemory>
    ensures { OnOk result (string_bytes line.new ≡ string_bytes line.old ++ refused_line me.now (unshown_refusal why) None) }
{
    match why {
        Unshown::NotIdle => push_refused_so(line, me, "notidle", Some(0), None),
        Unshown::Untimely(number) => push_refused_so(line, me, "untimely", Some(number), None),
        Unshown::Order(refused) => push_refused(line, me, refused.refusal(), None),
    }
}

fn refused_line(alloc: Global, service: &Service, why: Unshown) -> Result<Text, NoMemory>
    ensures { IfOk result (λ text. text ≡ preview_text service.now (Err why)) }
{
    let mut line = String::new(alloc);
    push_why(&mut line, &service.setting().me, why)?;
    Text::shared(line)
}

fn preview_text(
    alloc: Global,
    service: &Service,
    shown: Result<Text, Unshown>,
) -> Result<Text, NoMemory>
    ensures { IfOk result (λ text. text ≡ preview_text service.now shown) }
{
    match shown {
        Ok(lines) => Ok(lines),
        Err(why) => refused_line(alloc, service, why),
    }
}

// What is printed of this order, if it is only tried.
fn trial_lines(alloc: Global, service: &Service, trial: Trial, who: &Text) -> Result<Text, NoMemory>
    ensures { IfOk result (PrintsPreview trial who.now service.now) }
{
    let shown = trial_shown(alloc, service, trial, who)?;
    preview_text(alloc, service, shown)
}

/// What the cancellation of a request of the service of this name would come to, if the service is there.
pub fn previewed(
    alloc: Global,
    world: &World,
    name: &Name,
    id: u64,
    who: &Text,
) -> Result<Result<Said, LineFault>, NoMemory>
    ensures { IfOk result (λ said. SaysShown (PrintsPreview (Cancel id) who.now) (service_of name.now world.now.services) said) }
{
    match world.service(name) {
        Some(service) => Ok(Ok(Said::printed(Printed::report(trial_lines(
            alloc,
            service,
            Trial::Cancel(id),
            who,
        )?)))),
        None => Ok(Err(LineFault::Service)),
    }
}

// What is printed of the correction of the program of this number by the one that a text spells.
#[tactic(auto, using(crate::proofs::PreviewLemmas::program_prints, crate::proofs::PreviewLemmas::fault_prints))]
fn rehearsal_lines(
    alloc: Global,
    service: &Service,
    number: u64,
    who: &Text,
    text: &Text,
) -> Result<Text, NoMemory>
    ensures { IfOk result (PrintsRehearsal number who.now (program_given text.now) service.now) }
{
    match program_given(alloc, text)? {
        Ok(program) => trial_lines(alloc, service, Trial::Correct(number, program), who),
        Err(at) => text_refused(alloc, service, TextFault::Program(at)),
    }
}

/// What the correction of a program of the service of this name would come to, if the service is there: of the one of this number, by
/// the program that this text spells; where it spells none, that is told before all else.
pub fn rehearsed(
    alloc: Global,
    world: &World,
    name: &Name,
    number: u64,
    who: &Text,
    text: &Text,
) -> Result<Result<Said, LineFault>, NoMemory>
    ensures { IfOk result (λ said. SaysShown (PrintsRehearsal number who.now (program_given text.now)) (service_of name.now world.now.services) said) }
{
    match world.service(name) {
        Some(service) => Ok(Ok(Said::printed(Printed::report(rehearsal_lines(
            alloc, service, number, who, text,
        )?)))),
        None => Ok(Err(LineFault::Service)),
    }
}
