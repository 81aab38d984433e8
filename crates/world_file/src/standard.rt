// The worlds that come with the program, as an operator would write them.
ghost use Rattle.std.specs.Prelude.{◌≡◌, false, [], Ok, IfOk, IfErr, IsTrue, OnOk, map, option_map};
ghost use Rattle.std.specs.List.{list_all};
ghost use Rattle.world_file.specs.Spelled.{fields_of, has_name, member_seen, members_seen, standard_of, standard_read};
ghost use Rattle.world_file.specs.Standard.{built_in, notes, posts, shops, world_of_fields};
ghost use Rattle.world_file.specs.Worlds.{Refuses, is_memory, member_of, members_behind};

use crate::fields::{MOST_WEIGHT, Spelled};
use crate::members::{Member, member_of, push_member};
use crate::programs::{askbot_text, bank_text, dpaste_text, notes_text, oauth_text, shop_text};
use crate::refused::WorldRefused;
use crate::setup::Setup;
use crate::world::world_with;
use lang_core::{Name, NoMemory, Text};
use std::alloc::Global;

// A service of a world that comes with the program: its name, its program's text, and its door.
#[derive(Drop)]
struct Standard {
    name: &'static str,
    program: &'static str,
    door: &'static str,
}

// What a world file would say of it.
fn spelled_of(alloc: Global, service: &Standard) -> Result<Spelled<'static>, NoMemory>
    requires { IsTrue (has_name service.now) }
    ensures { IfOk result (λ spelled. fields_of spelled ≡ standard_of service.now) }
{
    let Ok(name) = Name::new(Text::of(alloc, service.name)?) else {
        unreachable!();
    };
    Ok(Spelled {
        name,
        program: service.program,
        rules: "allow any any any /",
        secret: "s",
        console: "c",
        door: service.door,
        workers: 4,
        weight: MOST_WEIGHT,
        keep: None,
    })
}

// The next service behind earlier ones.
fn next_standard(
    alloc: Global,
    earlier: &[Member<'static>],
    service: &Standard,
) -> Result<Member<'static>, WorldRefused>
    requires { IsTrue (has_name service.now) }
    ensures member { IfOk result (λ member.
        member_of (members_seen earlier.now) (standard_read service.now) ≡ Ok (member_seen member)) }
    ensures refused { IfErr result (λ why.
        Refuses why (member_of (members_seen earlier.now) (standard_read service.now))) }
{
    match spelled_of(alloc, service) {
        Ok(spelled) => member_of(alloc, earlier, Ok(spelled)),
        Err(_) => Err(WorldRefused::NoMemory),
    }
}

// These services, in their order.
fn members_of(alloc: Global, services: &[Standard]) -> Result<Vec<Member<'static>>, WorldRefused>
    requires { IsTrue (list_all has_name services.now) }
    ensures members { IfOk result (λ members.
        members_behind [] (map standard_read services.now) ≡ Ok (members_seen members.items)) }
    ensures refused { IfErr result (λ why.
        Refuses why (members_behind [] (map standard_read services.now))) }
{
    let mut members = Vec::new(alloc);
    for service in services {
        let member = next_standard(alloc, &members, service)?;
        push_member(&mut members, member)?;
    }
    Ok(members)
}

// Whether memory was wanting.
fn unless_lacking(why: &WorldRefused) -> Result<(), NoMemory>
    ensures { OnOk result (is_memory why.now ≡ false) }
{
    match why {
        WorldRefused::NoMemory => Err(NoMemory),
        _ => Ok(()),
    }
}

// The world of these services.
fn world_of(alloc: Global, services: &[Standard]) -> Result<Option<Vec<Setup>>, NoMemory>
    requires { IsTrue (list_all has_name services.now) }
    ensures { IfOk result (λ world.
        option_map (λ setups. setups.items) world ≡ world_of_fields (map standard_of services.now)) }
{
    match members_of(alloc, services) {
        Ok(members) => Ok(Some(world_with(alloc, members)?)),
        Err(why) => {
            unless_lacking(&why)?;
            Ok(None)
        }
    }
}

fn notes(alloc: Global) -> Result<Option<Vec<Setup>>, NoMemory>
    ensures { IfOk result (λ world. option_map (λ setups. setups.items) world ≡ world_of_fields notes) }
{
    let notes = Standard {
        name: "notes",
        program: notes_text(),
        door: "127.0.0.1:8101",
    };
    world_of(alloc, &[notes])
}

fn shops(alloc: Global) -> Result<Option<Vec<Setup>>, NoMemory>
    ensures { IfOk result (λ world. option_map (λ setups. setups.items) world ≡ world_of_fields shops) }
{
    let shop = Standard {
        name: "shop",
        program: shop_text(),
        door: "127.0.0.1:8101",
    };
    let bank = Standard {
        name: "bank",
        program: bank_text(),
        door: "127.0.0.1:8102",
    };
    world_of(alloc, &[shop, bank])
}

fn posts(alloc: Global) -> Result<Option<Vec<Setup>>, NoMemory>
    ensures { IfOk result (λ world. option_map (λ setups. setups.items) world ≡ world_of_fields posts) }
{
    let oauth = Standard {
        name: "oauth",
        program: oauth_text(),
        door: "127.0.0.1:8101",
    };
    let askbot = Standard {
        name: "askbot",
        program: askbot_text(),
        door: "127.0.0.1:8102",
    };
    let dpaste = Standard {
        name: "dpaste",
        program: dpaste_text(),
        door: "127.0.0.1:8103",
    };
    world_of(alloc, &[oauth, askbot, dpaste])
}

/// The world that comes with the program under this word: `@notes`, `@shops` or `@posts`; None exactly for other words.
#[tactic(auto, unfolding(crate::specs::Standard::built_in))]
pub fn built_in(alloc: Global, word: &str) -> Result<Option<Vec<Setup>>, NoMemory>
    ensures { IfOk result (λ world. option_map (λ setups. setups.items) world ≡ built_in word.now) }
{
    match word {
        "@notes" => notes(alloc),
        "@shops" => shops(alloc),
        "@posts" => posts(alloc),
        _ => Ok(None),
    }
}
