// Why a store fails.
ghost use Rattle.std.specs.Prelude.{◌≡◌};
ghost use Rattle.store_disk.specs.declared.fault.Fault.TheVariants.{Io, NoMemory};

use std::alloc::AllocError;
use std::io;
use store_lines::NotTaken;

/// Why a store failed. After any but `Full` it has to be opened again.
#[derive(Drop)]
pub enum Fault {
    /// No memory for it.
    NoMemory,
    /// A call of the file failed.
    Io(io::Error),
    /// The file would be longer than an offset can say.
    Full,
    /// A torn write to this disk may leave any bytes, so that one sync isn't enough.
    Unsupported,
}

impl From<AllocError> for Fault {
    ghost from_gives = { λ _ why. why ≡ NoMemory };

    fn from(_error: AllocError) -> Fault {
        Fault::NoMemory
    }
}

impl From<NotTaken> for Fault {
    ghost from_gives = { λ _ why. why ≡ NoMemory };

    fn from(_why: NotTaken) -> Fault {
        Fault::NoMemory
    }
}

impl From<io::Error> for Fault {
    ghost from_gives = { λ cause why. why ≡ Io cause };

    fn from(error: io::Error) -> Fault {
        Fault::Io(error)
    }
}
