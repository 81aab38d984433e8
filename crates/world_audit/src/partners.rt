// Whether another service did what a row says of it.
ghost use Rattle.std.specs.Prelude.{◌≡◌, ◌↔◌, IsTrue, option_map};
ghost use Rattle.journal_rows.specs.Words.{last_sent};
ghost use Rattle.service_events.specs.Fits.{Fits};
ghost use Rattle.service_events.specs.State.{me};
ghost use Rattle.world_agreement.specs.Partners.{service_of, HasPartner};
ghost use Rattle.world_audit.specs.Conditions.{sends, gives, gives_any, confirms, acknowledges_so, named_has, callee_of, dest_has, is_partnered};

use crate::sought::{Sought, is_in};
use journal_rows::{NotedRow, Row, SawAckRow, SawAnswerRow, TookRow, WasConfirmedRow};
use lang_core::{Name, Same};
use service_core::Service;

fn service_of<'a>(services: &'a [Service], name: &Name) -> Option<&'a Service>
    ensures { option_map (λ s. s.now) result ≡ service_of name.now services.now }
{
    services
        .iter()
        .find(|service| service.setting().me.text().is(name.text()))
}

// The service to which a call of this one was sent, as its register says.
fn callee_of<'a>(services: &'a [Service], service: &Service, number: u64) -> Option<&'a Service>
    requires { Fits service.now }
    ensures { option_map (λ s. s.now) result ≡ callee_of services.now (last_sent number service.now.journal) }
{
    match service.registers().get(number) {
        None => None,
        Some(register) => service_of(services, &register.dest),
    }
}

// Whether a caller sent to this service what was taken here.
fn was_sent(services: &[Service], service: &Service, took: &TookRow) -> bool
    ensures { result ≡ named_has services.now took.now.caller (sends (record { number = took.now.number; dest = me service.now; version = took.now.version; desired = took.now.desired })) }
{
    let dest = &service.setting().me;
    match service_of(services, &took.caller) {
        None => false,
        Some(caller) => is_in(caller.journal(), Sought::Sent { dest, took }),
    }
}

// Whether a callee acknowledged what this service saw.
fn was_acknowledged(services: &[Service], service: &Service, seen: SawAckRow) -> bool
    requires { Fits service.now }
    ensures { result ≡ dest_has services.now service.now seen.number (acknowledges_so (me service.now) seen.number seen.version seen.how) }
{
    let caller = &service.setting().me;
    match callee_of(services, service, seen.number) {
        None => false,
        Some(callee) => is_in(callee.journal(), Sought::Acknowledged { caller, seen }),
    }
}

// Whether a callee gave the answer that was announced to this service.
fn was_announced(services: &[Service], service: &Service, noted: &NotedRow) -> bool
    requires { Fits service.now }
    ensures { result ≡ dest_has services.now service.now noted.now.number (gives_any (me service.now) noted.now.number noted.now.answer_version) }
{
    let caller = &service.setting().me;
    match callee_of(services, service, noted.number) {
        None => false,
        Some(callee) => is_in(callee.journal(), Sought::Given { caller, noted }),
    }
}

// Whether a callee gave the answer that this service saw.
fn was_given(services: &[Service], service: &Service, seen: &SawAnswerRow) -> bool
    requires { Fits service.now }
    ensures { result ≡ dest_has services.now service.now seen.now.number (gives (me service.now) seen.now.number seen.now.answer_version seen.now.version seen.now.response) }
{
    let caller = &service.setting().me;
    match callee_of(services, service, seen.number) {
        None => false,
        Some(callee) => is_in(callee.journal(), Sought::Answered { caller, seen }),
    }
}

// Whether a caller confirmed what was noted as confirmed.
fn was_confirmed(services: &[Service], noted: &WasConfirmedRow) -> bool
    ensures { result ≡ named_has services.now noted.now.caller (confirms noted.now.number noted.now.answer_version) }
{
    match service_of(services, &noted.caller) {
        None => false,
        Some(caller) => is_in(caller.journal(), Sought::Confirmed(noted)),
    }
}

fn is_partnered(services: &[Service], service: &Service, row: &Row) -> bool
    requires { Fits service.now }
    ensures { result ≡ is_partnered services.now service.now row.now }
{
    match row {
        Row::Took(took) => was_sent(services, service, took),
        Row::SawAck(seen) => was_acknowledged(services, service, *seen),
        Row::Noted(noted) => was_announced(services, service, noted),
        Row::SawAnswer(seen) => was_given(services, service, seen),
        Row::WasConfirmed(noted) => was_confirmed(services, noted),
        _ => true,
    }
}

/// Whether a row of this service, which fits its journal, has its partner in the journal of the service that it names.
pub fn has_partner(services: &[Service], service: &Service, row: &Row) -> bool
    requires { Fits service.now }
    ensures { IsTrue result ↔ HasPartner services.now service.now row.now }
{
    is_partnered(services, service, row)
}
