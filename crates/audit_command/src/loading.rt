// The dump that a word names.
ghost use Rattle.std.specs.Prelude.{◌≡◌, IfErr, IfOk, IsErrOf, Ok, Err};
ghost use Rattle.std.specs.Option.{ForSome};
ghost use Rattle.io_edge.specs.Files.{LoadFails};
ghost use Rattle.dump_reader.specs.Reading.{read_of};
ghost use Rattle.audit_command.specs.Audits.{Asked, Is, dump_told};
ghost use Rattle.audit_command.specs.Causes.{refusal_of};

use dump_reader::{Dump, DumpRefused, LONGEST_DUMP, read_dump};
use io_edge::{Files, LoadRefused};
use std::alloc::Global;

/// Why there is no dump.
#[derive(Clone, Copy)]
pub enum NoDump {
    /// Memory ran out.
    NoMemory,
    /// The file wasn't loaded, and the count of faults rose.
    Failed,
    /// It is refused.
    Refused(DumpRefused),
}

fn dump_from(alloc: Global, bytes: &[u8]) -> Result<Dump, NoDump>
    ensures dump { IfOk result (λ dump. read_of bytes.now ≡ Ok dump.services) }
    ensures refused { IfErr result (λ why. ForSome (refusal_of why) (λ refused. read_of bytes.now ≡ Err refused)) }
    ensures cause { ¬ (IsErrOf result NoDump.Failed) }
{
    match read_dump(alloc, bytes) {
        Ok(dump) => Ok(dump),
        Err(DumpRefused::NoMemory) => Err(NoDump::NoMemory),
        Err(why) => Err(NoDump::Refused(why)),
    }
}

/// The dump of a file.
#[tactic(auto, using(crate::proofs::Dumps::file_read, crate::proofs::Dumps::file_refused, crate::proofs::Dumps::long_file))]
pub fn load_dump<F: Files>(alloc: Global, path: &str, files: &mut F) -> Result<Dump, NoDump>
    ensures dump { IfOk result (λ dump. Is (dump_told (F.loads files.old).files path.now) (Ok dump.services)) }
    ensures refused { IfErr result (λ why. ForSome (refusal_of why) (λ refused. Is (dump_told (F.loads files.old).files path.now) (Err refused))) }
    ensures asked { ¬ (IsErrOf result NoDump.NoMemory) → Asked (F.loads files.old) (F.loads files.new) path.now }
    ensures failed { IsErrOf result NoDump.Failed → LoadFails (F.loads files.old) (F.loads files.new) }
{
    match files.load(alloc, path, LONGEST_DUMP) {
        Ok(bytes) => dump_from(alloc, bytes.as_slice()),
        Err(LoadRefused::NoMemory) => Err(NoDump::NoMemory),
        Err(LoadRefused::Failed) => Err(NoDump::Failed),
        Err(LoadRefused::TooLong) => Err(NoDump::Refused(DumpRefused::TooLong)),
    }
}
