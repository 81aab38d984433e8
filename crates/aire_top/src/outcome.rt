// How a command ended that serves nobody, before the verdict.
ghost use Rattle.std.specs.Prelude.{◌≡◌, IfSome};
ghost use Rattle.world_agreement.specs.Partners.{IsJoined};
ghost use Rattle.command_ends.specs.Ends.{unread_line, usage_line};
ghost use Rattle.aire_top.specs.Closings.{Closes};
ghost use Rattle.aire_top.specs.Endings.{LacksMemory, answer_in, nothing, standing};

use command_ends::{lacking, misused, unread};
use io_edge::Sink;
use script_run::World;
use std::alloc::Global;

/// How a command ended that serves nobody: its status, and its world where one stands. None does where no world was there, or
/// the script couldn't be read, or memory was wanting. What each of its services says of another is what that one says of
/// itself, so that the verdict over them is never Forged.
#[derive(Drop)]
pub struct Outcome {
    pub status: u8,
    pub world: Option<World>,
    ghost joined: { ∥ IfSome world (λ w. IsJoined w.services) ∥₁ },
}

impl Outcome {
    /// No world stands.
    pub fn without(status: u8) -> Self
        ensures { answer_in result.status result.world ≡ nothing status }
    {
        Self {
            status,
            world: None,
        }
    }

    /// This world stands, with nothing more to write.
    pub fn standing(status: u8, world: World) -> Self
        requires { IsJoined world.services }
        ensures { answer_in result.status result.world ≡ standing status world }
    {
        Self {
            status,
            world: Some(world),
        }
    }

    /// Memory is wanting: 6.
    pub fn lacking<K: Sink>(out: &mut K) -> Self
        ensures { LacksMemory (K.writes out.old) (K.writes out.new) (answer_in result.status result.world) }
    {
        Self::without(lacking(out))
    }

    /// A file or the input can't be read: 4.
    pub fn unread<K: Sink>(out: &mut K) -> Self
        ensures { Closes (K.writes out.old) (K.writes out.new) (nothing 4) unread_line (answer_in result.status result.world) }
    {
        Self::without(unread(out))
    }

    /// The word at this place doesn't fit, or is missing: 2.
    pub fn misused<K: Sink>(alloc: Global, out: &mut K, place: u64) -> Self
        ensures { Closes (K.writes out.old) (K.writes out.new) (nothing 2) (usage_line place) (answer_in result.status result.world) }
    {
        Self::without(misused(alloc, out, place))
    }
}
