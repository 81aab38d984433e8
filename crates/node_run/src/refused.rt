// Why a run didn't end well.
ghost use Rattle.std.specs.Prelude.{◌≡◌};
ghost use Rattle.node_run.specs.Refused.{unequal, widened};
ghost use Rattle.node_run.specs.declared.refused.StartRefused.TheVariants.{NoMemory as NoRoom};

use lang_core::NoMemory;
use node_core::{CloseRefused, Receipt};
use service_core::Service;
use std::alloc::{AllocError, AllocFailed};

/// Why a run didn't end well.
#[derive(Drop)]
pub enum RunRefused {
    /// There was no memory for it. Nodes and receipts are gone. It is answered also where a service isn't set up as it
    /// should be.
    NoMemory,
    /// A service couldn't be listened for, and the door's count of faults rose.
    DoorFault,
    /// A worker couldn't be started, and the spawner's count of faults rose. Those that were started are joined.
    NotStarted,
    /// This receipt doesn't agree with the journal of the service that it names.
    Differs {
        receipt: Receipt,
        services: Vec<Service>,
    },
    /// Each receipt agrees, and these two are of one answer.
    Twice {
        first: Receipt,
        second: Receipt,
        services: Vec<Service>,
    },
}

/// Why the workers didn't all work.
#[derive(Clone, Copy)]
pub enum StartRefused {
    NoMemory,
    DoorFault,
    NotStarted,
}

impl From<NoMemory> for StartRefused {
    ghost from_gives = { λ _ why. why ≡ NoRoom };

    fn from(_: NoMemory) -> Self {
        StartRefused::NoMemory
    }
}

impl From<AllocError> for StartRefused {
    ghost from_gives = { λ _ why. why ≡ NoRoom };

    fn from(_: AllocError) -> Self {
        StartRefused::NoMemory
    }
}

impl<T: Drop> From<AllocFailed<T>> for StartRefused {
    ghost from_gives = { λ _ why. why ≡ NoRoom };

    fn from(_: AllocFailed<T>) -> Self {
        StartRefused::NoMemory
    }
}

/// Why the run didn't end well, where the workers didn't all work.
pub fn widened(why: StartRefused) -> RunRefused
    ensures { result ≡ widened why }
{
    match why {
        StartRefused::NoMemory => RunRefused::NoMemory,
        StartRefused::DoorFault => RunRefused::DoorFault,
        StartRefused::NotStarted => RunRefused::NotStarted,
    }
}

/// Why the run didn't end well, where nodes and receipts couldn't be closed.
pub fn unequal(why: CloseRefused) -> RunRefused
    ensures { result ≡ unequal why }
{
    match why {
        CloseRefused::NoMemory => RunRefused::NoMemory,
        CloseRefused::Differs { receipt, services } => RunRefused::Differs { receipt, services },
        CloseRefused::Twice {
            first,
            second,
            services,
        } => RunRefused::Twice {
            first,
            second,
            services,
        },
    }
}
