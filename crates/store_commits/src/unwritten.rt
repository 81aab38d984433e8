// Why records weren't written.
ghost use Rattle.std.specs.Prelude.{◌≡◌};
ghost use Rattle.store_lines.specs.declared.batch.NotTaken.{NotTaken};
ghost use Rattle.store_disk.specs.declared.fault.Fault.{Fault};
ghost use Rattle.store_commits.specs.declared.unwritten.Unwritten.TheVariants.{Failed, NoLine};

use store_disk::Fault;
use store_lines::NotTaken;

/// Why records weren't written.
#[derive(Drop)]
pub enum Unwritten {
    /// The file failed, or there was no memory for them. After any but `NoMemory` nothing is written to it any more.
    Failed(Fault),
    /// One of them has a byte that no line has.
    NoLine,
    /// Others were handed over before them.
    OutOfOrder,
}

impl From<Fault> for Unwritten {
    ghost from_gives = { λ fault why. why ≡ Failed fault };

    fn from(fault: Fault) -> Unwritten {
        Unwritten::Failed(fault)
    }
}

impl From<NotTaken> for Unwritten {
    ghost from_gives = { λ cause why. (cause ≡ NotTaken.NoMemory → why ≡ Failed Fault.NoMemory) × (cause ≡ NotTaken.NoLine → why ≡ NoLine) };

    fn from(cause: NotTaken) -> Unwritten {
        match cause {
            NotTaken::NoMemory => Unwritten::Failed(Fault::NoMemory),
            NotTaken::NoLine => Unwritten::NoLine,
        }
    }
}
