// What entries that ran answer.
ghost use Rattle.std.specs.Prelude.{◌≡◌, All, IfOk, IsSome, Some, find};
ghost use Rattle.std.specs.Option.{option_copied};
ghost use Rattle.request_log.specs.Entries.{has_id};
ghost use Rattle.service_events.specs.State.{unfolded};
ghost use Rattle.preview_core.specs.Repairs.{AreResponses, ran_one, response_in, response_of};

use crate::told::{RanList, RanOne};
use lang_core::{Copied, NoMemory, Response};
use service_core::Service;
use std::alloc::Global;

// What the entry of a number that isn't folded answered in its last run.
fn later_response(service: &Service, id: u64) -> Option<&Response>
    ensures { option_copied result ≡ response_in (find (has_id id) (unfolded service.now)) }
{
    let entry = service.entries().find(id)?;
    match &entry.made {
        Some(made) => Some(&made.trace.response),
        None => None,
    }
}

// What the entry of a number answered in its last run, also where it is folded.
fn response_of(service: &Service, id: u64) -> Option<&Response>
    ensures { option_copied result ≡ response_of id service.now }
{
    match service.entries().find_folded(id) {
        Some(past) => Some(&past.response),
        None => later_response(service, id),
    }
}

fn ran_one(alloc: Global, service: &Service, id: u64) -> Result<RanOne, NoMemory>
    requires { IsSome (response_of id service.now) }
    ensures { IfOk result (λ one. ran_one service.now id ≡ Some one) }
{
    let response = response_of(service, id).unwrap().copied(alloc)?;
    Ok(RanOne { id, response })
}

/// The entries of these numbers, each of which ran, with what they answered in their last runs.
pub(crate) fn responses(alloc: Global, service: &Service, ids: &[u64]) -> Result<RanList, NoMemory>
    requires { All (λ id. IsSome (response_of id service.now)) ids.now }
    ensures { IfOk result (λ list. AreResponses service.now ids.now list) }
{
    let mut list = RanList::new(alloc);
    for id in ids {
        list.push(ran_one(alloc, service, *id)?)?;
    }
    Ok(list)
}
