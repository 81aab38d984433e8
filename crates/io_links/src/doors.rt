// Where connections come from.
ghost use Rattle.std.specs.Prelude.{◌≤◌, ℕ, OnErr};
ghost use Rattle.io_edge.specs.Edge.{Rose};
ghost use Rattle.io_links.specs.Connections.{IsNew, GivesNew};

use io_edge::{Connection, Failed};

/// What an ear heard at one look.
#[derive(Drop)]
pub enum Accepted<C> {
    /// A connection that came.
    Conn(C),
    /// None waited.
    Nobody,
    /// The look failed.
    Failed,
}

/// The connections that come to one address. Workers share it, so it counts no faults that a
/// contract could compare: no answer of a call above rests on one.
pub trait Ear {
    /// What comes. It may move between threads.
    type Conn: Connection + Send + Drop;

    /// Looks once, which may take a while, for a connection that waits. `Nobody` where none came
    /// in that while. Of one that is given nothing was taken, nothing was written to it, and both
    /// its counts are 0.
    fn accept(&self) -> Accepted<Self::Conn>
        ensures new { GivesNew (λ conn. IsNew (Self.Conn.Source.reads conn) (Self.Conn.Sink.writes conn)) result };

    /// Ends what waits here, for a program that is to stop. From then on `accept` answers `Nobody`, at once, and what a
    /// connection that was given still waits for fails within a moment, as if its time were up. What else ends with this ear
    /// is said where doors and links are made. The address stays taken until the ear is dropped.
    fn close(&self);
}

/// Opens ears.
pub trait Door {
    /// What listens. Threads share it.
    type Ear: Ear + Sync + Drop;

    /// How many calls of `listen` have failed, up to the greatest `u64`.
    ghost faults: { Self → ℕ };

    /// An ear for the connections that come to this address.
    fn listen(&mut self, address: &str) -> Result<Self::Ear, Failed>
        ensures counted { faults self.old ≤ faults self.new }
        ensures failed { OnErr result (Rose (faults self.old) (faults self.new)) };
}
