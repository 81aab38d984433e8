// The services of a world, read one after another.
ghost use Rattle.std.specs.Prelude.{◌≡◌, [], ◌∷◌, ◌++◌, Ok, IfOk, IfErr, OnOk, map};
ghost use Rattle.authorise_rules.specs.Given.{given_of};
ghost use Rattle.handler_lang.specs.Reading.{read_of};
ghost use Rattle.world_file.specs.Spelled.{fields_of, member_seen, members_seen, read_in, seen};
ghost use Rattle.world_file.specs.Worlds.{Refuses, is_taken, member_of, members_behind, with_program, with_rules};

use crate::field::FieldFault;
use crate::fields::{Spelled, fields_in};
use crate::refused::WorldRefused;
use authorise_rules::{GivenRules, RulesRefused, read_given};
use handler_lang::{ProgramRefused, read_program};
use lang_core::{Name, NoMemory, Program};
use serde_json::Value;
use std::alloc::Global;

/// A service that was read: what its fields say, its program, and its rules.
#[derive(Drop)]
pub struct Member<'v> {
    pub spelled: Spelled<'v>,
    pub program: Program,
    pub rules: GivenRules,
}

// The service with these fields and this program, or why its rules are none.
fn with_rules(
    alloc: Global,
    spelled: Spelled<'_>,
    program: Program,
) -> Result<Member<'_>, WorldRefused>
    ensures member { IfOk result (λ member.
        with_rules (fields_of spelled.entry) program (given_of spelled.entry.rules.now) ≡ Ok (member_seen member)) }
    ensures refused { IfErr result (λ why.
        Refuses why (with_rules (fields_of spelled.entry) program (given_of spelled.entry.rules.now))) }
{
    match read_given(alloc, spelled.rules) {
        Ok(rules) => Ok(Member {
            spelled,
            program,
            rules,
        }),
        Err(RulesRefused::NoMemory) => Err(WorldRefused::NoMemory),
        Err(refused) => Err(WorldRefused::Rules(spelled.name, refused)),
    }
}

// The service with these fields, or why its program or its rules are none.
fn with_program(alloc: Global, spelled: Spelled<'_>) -> Result<Member<'_>, WorldRefused>
    ensures member { IfOk result (λ member.
        with_program (fields_of spelled.entry) (read_of spelled.entry.program.now) ≡ Ok (member_seen member)) }
    ensures refused { IfErr result (λ why.
        Refuses why (with_program (fields_of spelled.entry) (read_of spelled.entry.program.now))) }
{
    match read_program(alloc, spelled.program) {
        Ok(program) => with_rules(alloc, spelled, program),
        Err(ProgramRefused::NoMemory) => Err(WorldRefused::NoMemory),
        Err(refused) => Err(WorldRefused::Program(spelled.name, refused)),
    }
}

fn is_taken(earlier: &[Member<'_>], name: &Name) -> bool
    ensures { result ≡ is_taken (members_seen earlier.now) name.now }
{
    for member in earlier {
        if member.spelled.name.as_str() == name.as_str() {
            return true;
        }
    }
    false
}

// The service with these fields, unless its name is taken, or why it is refused.
fn with_fields<'v>(
    alloc: Global,
    earlier: &[Member<'_>],
    spelled: Spelled<'v>,
) -> Result<Member<'v>, WorldRefused>
    ensures member { IfOk result (λ member.
        member_of (members_seen earlier.now) (Ok (fields_of spelled.entry)) ≡ Ok (member_seen member)) }
    ensures refused { IfErr result (λ why.
        Refuses why (member_of (members_seen earlier.now) (Ok (fields_of spelled.entry)))) }
{
    if is_taken(earlier, &spelled.name) {
        return Err(WorldRefused::Twice(spelled.name));
    }
    with_program(alloc, spelled)
}

/// The next service behind earlier ones, by what was read of its fields, or why it is refused.
pub fn member_of<'v>(
    alloc: Global,
    earlier: &[Member<'_>],
    read: Result<Spelled<'v>, FieldFault>,
) -> Result<Member<'v>, WorldRefused>
    ensures member { IfOk result (λ member.
        member_of (members_seen earlier.now) (seen read.entry) ≡ Ok (member_seen member)) }
    ensures refused { IfErr result (λ why. Refuses why (member_of (members_seen earlier.now) (seen read.entry))) }
{
    match read {
        Ok(spelled) => with_fields(alloc, earlier, spelled),
        Err(fault) => Err(WorldRefused::from(fault)),
    }
}

/// Puts a service last.
pub fn push_member<'v>(members: &mut Vec<Member<'v>>, member: Member<'v>) -> Result<(), NoMemory>
    ensures { OnOk result (members.new.items ≡ members.old.items ++ member.entry ∷ []) }
{
    members.push(member)?;
    Ok(())
}

// The next service of a file.
fn next_member<'v>(
    alloc: Global,
    earlier: &[Member<'_>],
    service: &'v Value,
) -> Result<Member<'v>, WorldRefused>
    ensures member { IfOk result (λ member.
        member_of (members_seen earlier.now) (read_in service.now) ≡ Ok (member_seen member)) }
    ensures refused { IfErr result (λ why. Refuses why (member_of (members_seen earlier.now) (read_in service.now))) }
{
    match fields_in(alloc, service) {
        Ok(read) => member_of(alloc, earlier, read),
        Err(_) => Err(WorldRefused::NoMemory),
    }
}

/// The services of a file, in its order, or why the first that is refused is so.
pub fn members_of(alloc: Global, services: &[Value]) -> Result<Vec<Member<'_>>, WorldRefused>
    ensures members { IfOk result (λ members.
        members_behind [] (map read_in services.now) ≡ Ok (members_seen members.items)) }
    ensures refused { IfErr result (λ why. Refuses why (members_behind [] (map read_in services.now))) }
{
    let mut members = Vec::new(alloc);
    for service in services {
        let member = next_member(alloc, &members, service)?;
        push_member(&mut members, member)?;
    }
    Ok(members)
}
