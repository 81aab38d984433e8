// What an event was told, as far as the line that is printed of it needs it.
ghost use Rattle.std.specs.Prelude.{◌≡◌, IfOk};
ghost use Rattle.std.specs.Option.{option_map};
ghost use Rattle.script_text.specs.Details.{detail_of, flight_told, packet_told, receiver_told, token_told};

use lang_core::{Copied, Name, NoMemory, Text};
use std::alloc::Global;
use world_events::Event;

/// What an event was told beside its service, as far as its line prints it.
#[derive(Drop)]
pub enum Detail {
    /// Nothing that its line prints.
    Nothing,
    /// The number of the packet that is delivered or lost.
    Packet(u64),
    /// The service for which a post is to be written.
    To(Name),
    /// The number of the flight that is abandoned.
    Flight(u64),
    /// The token of the order.
    Token(Text),
}

impl Detail {
    /// What this event is told.
    pub fn of(alloc: Global, event: &Event) -> Result<Detail, NoMemory>
        ensures { IfOk result (λ detail. detail ≡ detail_of event.now) }
    {
        match event {
            Event::Deliver(number) => Ok(Detail::Packet(*number)),
            Event::Lose(number) => Ok(Detail::Packet(*number)),
            Event::Post { to, .. } => Ok(Detail::To(to.copied(alloc)?)),
            Event::Abandon { flight, .. } => Ok(Detail::Flight(*flight)),
            Event::Order { token, .. } => Ok(Detail::Token(token.copied(alloc)?)),
            _ => Ok(Detail::Nothing),
        }
    }

    /// The number of the packet.
    pub(crate) fn packet(&self) -> Option<u64>
        ensures { result ≡ packet_told self.now }
    {
        match self {
            Detail::Packet(number) => Some(*number),
            _ => None,
        }
    }

    /// The service for which a post is to be written.
    pub(crate) fn receiver(&self) -> Option<&Name>
        ensures { option_map (λ name. name.now) result ≡ receiver_told self.now }
    {
        match self {
            Detail::To(name) => Some(name),
            _ => None,
        }
    }

    /// The number of the flight.
    pub(crate) fn flight(&self) -> Option<u64>
        ensures { result ≡ flight_told self.now }
    {
        match self {
            Detail::Flight(number) => Some(*number),
            _ => None,
        }
    }

    /// The token of the order.
    pub(crate) fn token(&self) -> Option<&Text>
        ensures { option_map (λ token. token.now) result ≡ token_told self.now }
    {
        match self {
            Detail::Token(token) => Some(token),
            _ => None,
        }
    }
}
