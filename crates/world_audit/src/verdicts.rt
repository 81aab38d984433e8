// The audit.
ghost use Rattle.std.specs.Prelude.{◌≡◌, ◌↔◌, All, MatchOption, None};
ghost use Rattle.journal_rows.specs.declared.verdict.Verdict.{Verdict};
ghost use Rattle.journal_rows.specs.declared.verdict.Verdict.TheVariants.{Legal};
ghost use Rattle.service_events.specs.Allowed.{IsAllowed};
ghost use Rattle.service_events.specs.Fits.{Fits};
ghost use Rattle.world_agreement.specs.Partners.{HasPartner, IsJoined};
ghost use Rattle.world_agreement.specs.Quiet.{AreQuiet};
ghost use Rattle.world_audit.specs.First.{IsFirstWithout};
ghost use Rattle.world_audit.specs.Verdicts.{IsFirstOf, IsForged, IsVerdict, NoneIn, what_is, SaysForged, SaysUnsettled};

use crate::outstanding::{OutstandingKind, first_in, outstanding};
use crate::partners::has_partner;
use journal_rows::{Row, Verdict};
use service_core::Service;

/// A number found at a service.
#[derive(Clone, Copy, PartialEq, Eq)]
pub struct Found {
    /// The service's position.
    pub at: u64,
    /// Of a row its index, else the number of what is outstanding.
    pub number: u64,
}

// The first row of a service without a partner.
fn first_alone(services: &[Service], service: &Service, rows: &[Row]) -> Option<u64>
    requires { Fits service.now }
    ensures { MatchOption result (All (HasPartner services.now service.now) rows.now) (IsFirstWithout (HasPartner services.now service.now) rows.now) }
{
    for (index, row) in rows.iter().enumerate() {
        if !has_partner(services, service, row) {
            return Some(index as u64);
        }
    }
    None
}

// The first row of all without a partner. Where there is none, each service fits its journal, which was looked at, and allowed
// each repair in it.
fn forged(services: &[Service]) -> Option<Found>
    ensures fits { result ≡ None → All Fits services.now }
    ensures allowed { result ≡ None → All IsAllowed services.now }
    ensures first { MatchOption result (IsJoined services.now) (λ f. IsForged services.now f.at f.number) }
{
    for (at, service) in services.iter().enumerate() {
        if let Some(index) = first_alone(services, service, service.journal().as_slice()) {
            return Some(Found {
                at: at as u64,
                number: index,
            });
        }
    }
    None
}

// The first of a kind that is outstanding.
fn first_of(kind: OutstandingKind, services: &[Service]) -> Option<Found>
    ensures { MatchOption result (NoneIn kind services.now) (λ f. IsFirstOf kind services.now f.at f.number) }
{
    for (at, service) in services.iter().enumerate() {
        if let Some(number) = first_in(kind, service) {
            return Some(Found {
                at: at as u64,
                number,
            });
        }
    }
    None
}

fn unsettled(kind: OutstandingKind, found: Found) -> Verdict
    ensures { result ≡ Verdict.Unsettled found.at (what_is kind found.number) }
{
    Verdict::Unsettled {
        at: found.at,
        what: outstanding(kind, found.number),
    }
}

// The first row without a partner, else the first thing outstanding, else Legal.
fn judged(services: &[Service]) -> Verdict
    ensures verdict { IsVerdict services.now result }
    ensures fits { (¬ (SaysForged result)) → All Fits services.now }
    ensures allowed { (¬ (SaysForged result)) → All IsAllowed services.now }
{
    if let Some(found) = forged(services) {
        return Verdict::Forged {
            at: found.at,
            index: found.number,
        };
    }
    if let Some(found) = first_of(OutstandingKind::Flights, services) {
        return unsettled(OutstandingKind::Flights, found);
    }
    if let Some(found) = first_of(OutstandingKind::Entries, services) {
        return unsettled(OutstandingKind::Entries, found);
    }
    if let Some(found) = first_of(OutstandingKind::Calls, services) {
        return unsettled(OutstandingKind::Calls, found);
    }
    if let Some(found) = first_of(OutstandingKind::Fetches, services) {
        return unsettled(OutstandingKind::Fetches, found);
    }
    if let Some(found) = first_of(OutstandingKind::Answers, services) {
        return unsettled(OutstandingKind::Answers, found);
    }
    Verdict::Legal
}

/// The verdict over services: Forged with the first row that says of another service what that one doesn't say of itself, by
/// service and then index; else Unsettled with the first thing outstanding, by kind, then service, then number or logged
/// order; else Legal.
pub fn audit(services: &[Service]) -> Verdict
    ensures verdict { IsVerdict services.now result }

    // Each is answered exactly where it should be.
    ensures legal { (result ≡ Legal) ↔ (IsJoined services.now × AreQuiet services.now) }
    ensures forged { SaysForged result ↔ (¬ (IsJoined services.now)) }
    ensures unsettled { SaysUnsettled result ↔ (IsJoined services.now × (¬ (AreQuiet services.now))) }

    // Where it isn't Forged, each journal was looked at whole: each service fits its own, and its rules allowed each repair in it.
    ensures fits { (¬ (SaysForged result)) → All Fits services.now }
    ensures allowed { (¬ (SaysForged result)) → All IsAllowed services.now }
{
    judged(services)
}
