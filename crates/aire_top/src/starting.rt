// New worlds.
ghost use Rattle.std.specs.Prelude.{◌≡◌, IfOk, map};
ghost use Rattle.world_events.specs.Live.{IsLiveWorld};
ghost use Rattle.world_events.specs.Sound.{IsSound};
ghost use Rattle.world_file.specs.Worlds.{KnowEachOther};
ghost use Rattle.aire_top.specs.Top.{fresh, fresh_service};

use lang_base::both;
use lang_core::{Copied, NoMemory};
use script_run::{Service, World};
use std::alloc::Global;
use world_file::Setup;

fn fresh_service(alloc: Global, setup: &Setup) -> Result<Service, NoMemory>
    ensures { IfOk result (λ service. service ≡ fresh_service setup.now) }
{
    let (setting, rules) = both(setup.setting.copied(alloc), setup.rules.copied(alloc))?;
    Service::new(alloc, setting, rules)
}

/// New services that are set up so.
pub(crate) fn services_of(alloc: Global, setups: &[Setup]) -> Result<Vec<Service>, NoMemory>
    ensures { IfOk result (λ services. services.items ≡ map fresh_service setups.now) }
{
    let mut services = Vec::new(alloc);
    for setup in setups {
        services.push(fresh_service(alloc, setup)?)?;
    }
    Ok(services)
}

/// A new world of services that are set up so.
#[tactic(auto, using(crate::proofs::FreshLaws::names_differ, crate::proofs::FreshLaws::peered, crate::proofs::FreshLaws::setups_sound, crate::proofs::FreshLaws::setups_live))]
pub(crate) fn started(alloc: Global, setups: &[Setup]) -> Result<World, NoMemory>
    requires { KnowEachOther setups.now }
    ensures fresh { IfOk result (λ world. world ≡ fresh setups.now) }
    ensures sound { IfOk result (λ world. IsSound world) }
    ensures live { IfOk result (λ world. IsLiveWorld world) }
{
    let services = services_of(alloc, setups)?;
    Ok(World::new(alloc, services))
}
