// What happened as a line.
ghost use Rattle.std.specs.Prelude.{◌≡◌, ◌++◌, IfOk, OnOk, string_bytes};
ghost use Rattle.std.specs.Option.{option_map};
ghost use Rattle.script_text.specs.Happenings.{happened_line, post_in, post_of, what_line};
ghost use Rattle.world_events.specs.Worlds.{packet_in};

use crate::detail::Detail;
use crate::others::{push_abandoned, push_ordered, push_stepped};
use crate::posts::{push_given, push_next, push_posted, push_taken, push_token_taken};
use crate::requests::{push_arrived, push_flown};
use journal_rows::Row;
use lang_core::{Name, NoMemory};
use repair_messages::Post;
use std::alloc::Global;
use world_events::{Happened, Packet, What};

// Room in which nearly every line fits, so that it needn't grow.
const LINE_ROOM: usize = 64;

// The packet of this number, which counts from 1.
fn packet_in(packets: &[Packet], number: u64) -> Option<&Packet>
    ensures { option_map (λ p. p.now) result ≡ packet_in number packets.now }
{
    if number == 0 {
        return None;
    }
    packets.get((number - 1) as usize)
}

fn post_of(packet: &Packet) -> Option<&Post>
    ensures { option_map (λ p. p.now) result ≡ post_of packet.now }
{
    match packet {
        Packet::Post(post) => Some(post),
        Packet::PostReply { post, reply: _ } => Some(post),
        _ => None,
    }
}

fn post_in(packets: &[Packet], number: Option<u64>) -> Option<&Post>
    ensures { option_map (λ p. p.now) result ≡ post_in packets.now number }
{
    post_of(packet_in(packets, number?)?)
}

// What happened at a service.
fn push_what(
    text: &mut String,
    service: &Name,
    packets: &[Packet],
    rows: &[Row],
    detail: &Detail,
    what: What,
    packet: Option<u64>,
) -> Result<(), NoMemory>
    ensures { OnOk result (string_bytes text.new ≡ string_bytes text.old
        ++ what_line service.now packets.now rows.now detail.now what packet) }
{
    match what {
        What::Arrive(arrived) => push_arrived(text, service, rows, arrived, packet),
        What::CallAnswered(flown) => push_flown(text, service, rows, flown, packet),
        What::CallFailed(flown) => push_flown(text, service, rows, flown, packet),
        What::Take(taken) => {
            push_taken(
                text,
                service,
                post_in(packets, detail.packet()),
                taken,
                packet,
            )
        }
        What::TakeToken(heard) => {
            push_token_taken(
                text,
                service,
                post_in(packets, detail.packet()),
                heard,
                packet,
            )
        }
        What::Give(given) => {
            push_given(
                text,
                service,
                post_in(packets, detail.packet()),
                given,
                packet,
            )
        }
        What::Posted(posted) => {
            push_posted(
                text,
                service,
                post_in(packets, detail.packet()),
                posted,
                packet,
            )
        }
        What::NextPost(name) => {
            push_next(
                text,
                service,
                detail.receiver(),
                post_in(packets, packet),
                name,
                packet,
            )
        }
        What::RepairStep(stepped) => push_stepped(text, service, stepped),
        What::Abandon(was_there) => push_abandoned(text, service, detail.flight(), was_there),
        What::Order(ordered) => push_ordered(text, service, detail.token(), ordered, packet),
        What::Set => Ok(()),
    }
}

/// The line that a script prints of what happened, or no text where it prints none: by all packets of the world and the
/// journal of the service at which it happened, both as they are after it, and by what the event was told.
pub fn happened_line(
    alloc: Global,
    packets: &[Packet],
    rows: &[Row],
    detail: &Detail,
    happened: &Happened,
) -> Result<String, NoMemory>
    ensures { IfOk result (λ line. string_bytes line ≡ happened_line packets.now rows.now detail.now happened.now) }
{
    let mut line = String::with_capacity(alloc, LINE_ROOM)?;
    if let Some(service) = &happened.service {
        push_what(
            &mut line,
            service,
            packets,
            rows,
            detail,
            happened.what,
            happened.packet,
        )?;
    }
    Ok(line)
}
