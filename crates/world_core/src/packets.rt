// The packets of a world.
ghost use Rattle.std.specs.Prelude.{◌≡◌, ◌+◌, ◌<◌, ◌++◌, [], ◌∷◌, OnOk, find, if◌then◌else◌, length, map, option_map, option_to_list};
ghost use Rattle.std.specs.Option.{option_copied};
ghost use Rattle.world_events.specs.Events.{is_call_of};
ghost use Rattle.world_events.specs.Worlds.{packet_in};
ghost use Rattle.world_core.specs.Packets.{packet_key};

use lang_core::{Name, NoMemory, Same};
use lang_lists::{HashIndex, call_key};
use std::alloc::Global;
use std::marker::Model;
use world_events::Packet;

/// All packets that were ever written, numbered from 1. A live call's packet is found by its caller and number, whatever
/// else was written. Contracts see the packets, and for how many more there is room.
#[derive(Drop)]
pub(crate) struct Packets {
    items: Vec<Packet>,
    // By place: the key of the call that the packet is.
    keys: HashIndex,
}

impl Model for Packets {
    ghost use Rattle.std.specs.Prelude.{◌≡◌, ◌-◌, map, min, vec_len, vec_capacity};
    ghost use Rattle.world_core.specs.Packets.{KeptPackets, packet_key};

    ghost Value = { KeptPackets };

    ghost view = { λ p. record { list = p.items.items; spare = min (vec_capacity p.items - vec_len p.items) p.keys.spare } };

    ghost invariant = { λ p. p.keys.keys ≡ map packet_key p.items.items };
}

// What is no live call has the key 0; nothing looks for it.
fn packet_key(packet: &Packet) -> u64
    ensures { result ≡ packet_key packet.now }
{
    match packet {
        Packet::Call { set, .. } => call_key(set.caller.text(), set.number),
        _ => 0,
    }
}

fn is_call_of(packet: &Packet, caller: &Name, number: u64) -> bool
    ensures { result ≡ is_call_of caller.now number packet.now }
{
    match packet {
        Packet::Call { set, .. } => set.number == number && set.caller.text().is(caller.text()),
        _ => false,
    }
}

fn first_of(is_call: bool, number: u64, other: u64) -> u64
    ensures { result ≡ if is_call then number else other }
{
    if is_call { number } else { other }
}

// The number of the first packet that is the live call of this number of this caller; 0 where none is. Packets of its key
// are looked at alone, from the last back.
fn first_call(packets: &[Packet], keys: &HashIndex, caller: &Name, number: u64) -> u64
    requires { keys.now.keys ≡ map packet_key packets.now }
    ensures { packet_in result packets.now ≡ find (is_call_of caller.now number) packets.now }
{
    let mut first = 0;
    let mut end = keys.end_of(call_key(caller.text(), number));
    while end > 0 {
        let packet = &packets[end - 1];
        first = first_of(is_call_of(packet, caller, number), end as u64, first);
        end = keys.end_before(end - 1);
    }
    first
}

// Packets are numbered from 1.
fn packet_in(packets: &[Packet], number: u64) -> Option<&Packet>
    ensures { option_copied result ≡ packet_in number packets.now }
{
    if number == 0 {
        return None;
    }
    packets.get((number - 1) as usize)
}

impl Packets {
    /// None was written yet.
    pub fn new(alloc: Global) -> Packets
        ensures { result.list ≡ [] }
    {
        Packets {
            items: Vec::new(alloc),
            keys: HashIndex::new(alloc),
        }
    }

    /// All of them, in the order in which they were written.
    pub fn as_slice(&self) -> &[Packet]
        ensures { result.now ≡ self.now.list }
    {
        &self.items
    }

    /// The packet of this number; None exactly where none has it.
    pub fn get(&self, number: u64) -> Option<&Packet>
        ensures { option_copied result ≡ packet_in number self.now.list }
    {
        packet_in(&self.items, number)
    }

    /// The first packet that is the live call of this number of this caller.
    pub fn find_call(&self, caller: &Name, number: u64) -> Option<&Packet>
        ensures { option_copied result ≡ find (is_call_of caller.now number) self.now.list }
    {
        self.get(first_call(&self.items, &self.keys, caller, number))
    }

    /// Makes room for one more. Refused, they stay as they are.
    pub fn reserve(&mut self) -> Result<(), NoMemory>
        ensures list { self.new.list ≡ self.old.list }
        ensures room { OnOk result (0 < self.new.spare) }
    {
        self.keys.reserve(1)?;
        self.items.reserve(1)?;
        Ok(())
    }

    fn push(&mut self, packet: Packet)
        requires { 0 < self.old.spare }
        ensures { self.new.list ≡ self.old.list ++ packet ∷ [] }
    {
        let key = packet_key(&packet);
        self.items.push_reserved(packet);
        self.keys.push(key);
    }

    /// Writes a packet, if there is one, for which there has to be room, and answers its number.
    pub fn write(&mut self, packet: Option<Packet>) -> Option<u64>
        requires { 0 < self.old.spare }
        ensures list { self.new.list ≡ self.old.list ++ option_to_list packet }
        ensures number { result ≡ option_map (λ _. length self.old.list + 1) packet }
    {
        match packet {
            None => None,
            Some(packet) => {
                self.push(packet);
                Some(self.items.len() as u64)
            }
        }
    }
}
