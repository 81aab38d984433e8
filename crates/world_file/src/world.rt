// The world that a file spells.
ghost use Rattle.std.specs.Prelude.{◌≡◌, Ok, Some, IfOk, IfErr, map};
ghost use Rattle.serde_json.specs.View.{view, items_view};
ghost use Rattle.world_file.specs.Peers.{others};
ghost use Rattle.world_file.specs.Spelled.{member_seen, members_seen};
ghost use Rattle.world_file.specs.Worlds.{KnowEachOther, Refuses, member_name, setup_of, world_of, world_of_items, world_of_json, world_with};

use crate::field::Field;
use crate::members::{Member, members_of};
use crate::refused::WorldRefused;
use crate::setup::Setup;
use lang_core::{Copied, Name, Names, NoMemory, Program, Setting, Text};
use serde_json::Value;
use std::alloc::Global;

/// The most services of a world.
pub const MOST_SERVICES: u64 = 16;

fn names_of(alloc: Global, members: &[Member<'_>]) -> Result<Names, NoMemory>
    ensures { IfOk result (λ names. names ≡ map member_name (members_seen members.now)) }
{
    let mut names = Names::new(alloc);
    for member in members {
        names.push(member.spelled.name.copied(alloc)?)?;
    }
    Ok(names)
}

// The other ones of these names, in their order.
fn others(alloc: Global, me: &Name, names: &[Name]) -> Result<Names, NoMemory>
    ensures { IfOk result (λ peers. peers ≡ others me.now names.now) }
{
    let mut peers = Names::new(alloc);
    for name in names {
        if name.as_str() != me.as_str() {
            peers.push(name.copied(alloc)?)?;
        }
    }
    Ok(peers)
}

// The setting of a service among those of these names.
fn setting_of(
    alloc: Global,
    me: Name,
    program: Program,
    weight: u64,
    names: &[Name],
) -> Result<Setting, NoMemory>
    ensures me { IfOk result (λ setting. setting.me ≡ me) }
    ensures peers { IfOk result (λ setting. setting.peers ≡ others me names.now) }
    ensures program { IfOk result (λ setting. setting.program ≡ program) }
    ensures weight { IfOk result (λ setting. setting.weight ≡ weight) }
{
    let peers = others(alloc, &me, names)?;
    Ok(Setting {
        me,
        peers,
        program,
        weight,
    })
}

// A service among those of these names.
fn set_up(alloc: Global, member: Member<'_>, names: &[Name]) -> Result<Setup, NoMemory>
    ensures { IfOk result (λ setup. setup ≡ setup_of names.now (member_seen member.entry)) }
{
    let Member {
        spelled,
        program,
        rules,
    } = member;
    let secret = Text::of(alloc, spelled.secret)?;
    let console = Text::of(alloc, spelled.console)?;
    let door = Text::of(alloc, spelled.door)?;
    let workers = spelled.workers;
    let keep = spelled.keep;
    let setting = setting_of(alloc, spelled.name, program, spelled.weight, names)?;
    Ok(Setup {
        setting,
        rules,
        secret,
        console,
        door,
        workers,
        keep,
    })
}

// These services, each among those of these names.
fn set_up_all(
    alloc: Global,
    members: Vec<Member<'_>>,
    names: &[Name],
) -> Result<Vec<Setup>, NoMemory>
    ensures { IfOk result (λ world. world.items ≡ map (setup_of names.now) (members_seen members.entry.items)) }
{
    let mut world = Vec::new(alloc);
    for member in members {
        world.push(set_up(alloc, member, names)?)?;
    }
    Ok(world)
}

/// The world of these services: the others are each one's peers.
pub fn world_with(alloc: Global, members: Vec<Member<'_>>) -> Result<Vec<Setup>, NoMemory>
    ensures { IfOk result (λ world. world.items ≡ world_with (members_seen members.entry.items)) }
{
    let names = names_of(alloc, &members)?;
    set_up_all(alloc, members, names.as_slice())
}

// The world of these services, where want of memory is refused as a file is.
fn finished(alloc: Global, members: Vec<Member<'_>>) -> Result<Vec<Setup>, WorldRefused>
    ensures world { IfOk result (λ world. world.items ≡ world_with (members_seen members.entry.items)) }
    ensures refused { IfErr result (λ why. why ≡ WorldRefused.NoMemory) }
{
    match world_with(alloc, members) {
        Ok(world) => Ok(world),
        Err(_) => Err(WorldRefused::NoMemory),
    }
}

// A list of services, as a world.
#[tactic(auto, using(crate::proofs::Json::too_many, crate::proofs::Json::no_services))]
fn world_of_items(alloc: Global, services: &[Value]) -> Result<Vec<Setup>, WorldRefused>
    ensures world { IfOk result (λ world. world_of_items (items_view services.now) ≡ Ok world.items) }
    ensures refused { IfErr result (λ why. Refuses why (world_of_items (items_view services.now))) }
{
    if services.is_empty() {
        return Err(WorldRefused::BadField(Field::Services));
    }
    if services.len() as u64 > MOST_SERVICES {
        return Err(WorldRefused::TooMany);
    }
    match members_of(alloc, services) {
        Ok(members) => finished(alloc, members),
        Err(why) => Err(why),
    }
}

// The list of services, as a world.
fn world_of_json(alloc: Global, value: &Value) -> Result<Vec<Setup>, WorldRefused>
    ensures world { IfOk result (λ world. world_of_json (Some (view value.now)) ≡ Ok world.items) }
    ensures refused { IfErr result (λ why. Refuses why (world_of_json (Some (view value.now)))) }
{
    let Some(services) = value.get(Field::Services.as_str()) else {
        return Err(WorldRefused::Missing(Field::Services));
    };
    match services.as_array() {
        Some(services) => world_of_items(alloc, services),
        None => Err(WorldRefused::BadField(Field::Services)),
    }
}

// The world that these bytes spell.
#[tactic(auto, using(crate::proofs::Json::spelled, crate::proofs::Json::not_json))]
fn world_of(alloc: Global, bytes: &[u8]) -> Result<Vec<Setup>, WorldRefused>
    ensures world { IfOk result (λ world. world_of bytes.now ≡ Ok world.items) }
    ensures refused { IfErr result (λ why. Refuses why (world_of bytes.now)) }
{
    match Value::from_slice(alloc, bytes) {
        Ok(value) => world_of_json(alloc, &value),
        Err(e) if e.is_memory() => Err(WorldRefused::NoMemory),
        Err(_) => Err(WorldRefused::NotJson),
    }
}

/// The world that the bytes of a file spell: its services in the file's order, each with the others as its peers. A file
/// is a JSON object whose field `services` is a list of 1 to 16 objects.
///
/// Until there are rules, those of each service allow all.
#[tactic(auto, using(crate::proofs::Json::world_knows))]
pub fn read_world(alloc: Global, bytes: &[u8]) -> Result<Vec<Setup>, WorldRefused>
    ensures world { IfOk result (λ world. world_of bytes.now ≡ Ok world.items) }
    ensures together { IfOk result (λ world. KnowEachOther world.items) }
    ensures refused { IfErr result (λ why. Refuses why (world_of bytes.now)) }
{
    world_of(alloc, bytes)
}
