// Jobs in threads of their own, and who starts them.
ghost use Rattle.std.specs.Prelude.{◌≤◌, ℕ, OnErr};
ghost use Rattle.io_edge.specs.Edge.{Rose};

use io_edge::Failed;
use std::marker::PhantomData;
use std::thread::{JoinHandle, Scope, Threads};

/// What a thread is to do. What is known of its answer is what the type of the answer says.
pub trait Job: Send + Drop {
    /// What comes of it.
    type Out: Send + Drop;

    /// Does it.
    fn run(self) -> Self::Out;
}

/// A job that was started and has to be joined. Where a ticket is dropped what came of the job is
/// lost, and the scope that the job runs in still waits for it.
#[derive(Drop)]
pub struct Ticket<'scope, T: Drop> {
    handle: JoinHandle<T>,
    scope: PhantomData<&'scope ()>,
}

impl<'scope, T: Drop> Ticket<'scope, T> {
    /// Waits until the job is done, and gives what came of it.
    pub fn join<R: Threads>(self, rt: &R) -> T {
        let Ticket { handle, scope: _ } = self;
        handle.join(rt)
    }
}

/// Starts jobs in a scope of threads. What an implementor decides is whether a thread may be
/// started, and it counts refusals; the thread itself is always std's.
pub trait Spawner {
    /// How many starts were refused, up to the greatest `u64`.
    ghost faults: { Self → ℕ };

    /// Says whether a thread may be started. A refusal counts.
    fn admit(&mut self) -> Result<(), Failed>
        ensures counted { faults self.old ≤ faults self.new }
        ensures failed { OnErr result (Rose (faults self.old) (faults self.new)) };

    /// Counts a thread that could not be made.
    fn refused(&mut self)
        ensures counted { faults self.old ≤ faults self.new }
        ensures rose { Rose (faults self.old) (faults self.new) };

    /// Starts a job in a thread of the scope. Where that is refused the job is dropped.
    final fn start<'scope, 'env, J: Job + 'scope>(
        &mut self,
        scope: &'scope Scope<'scope, &'env ()>,
        job: J,
    ) -> Result<Ticket<'scope, J::Out>, Failed>
        ensures counted { faults self.old ≤ faults self.new }
        ensures failed { OnErr result (Rose (faults self.old) (faults self.new)) }
    {
        self.admit()?;
        match scope.spawn(move || job.run()) {
            Ok(handle) => Ok(Ticket {
                handle,
                scope: PhantomData,
            }),
            Err(_) => {
                self.refused();
                Err(Failed)
            }
        }
    }
}
