// Files that a program loads by their paths.
ghost use Rattle.std.specs.Prelude.{◌≡◌, ◌⊎◌, ◌≤◌, [], ◌∷◌, ◌++◌, length, IfOk, OnOk, OnErr, IsErrOf};
ghost use Rattle.io_edge.specs.Files.{Loads, AskedFor, AskedNothing, IsFile, IsLonger, LoadFails};

use lang_base::{Bytes, NoMemory, Seq, Text};
use std::alloc::Global;

/// Why a file wasn't loaded.
#[derive(Clone, Copy, Debug, PartialEq, Eq)]
pub enum LoadRefused {
    /// No memory for the bytes.
    NoMemory,
    /// There is no such file, or it can't be read, and the count of faults rose.
    Failed,
    /// The file has more bytes than the limit.
    TooLong,
}

/// Where files are loaded from. Files that are known are told to contracts, as those in memory
/// are; those of a disk aren't.
pub trait Files {
    /// What the files tell: the bytes of each, the paths that were asked for, and the count of
    /// faults.
    ghost loads: { Self → Loads };

    /// All bytes of the file of a path, where they are no more than `limit`. `TooLong` comes
    /// exactly where there are more, unless the load fails or memory runs out before that is seen.
    /// The path stands last among those that were asked for, whatever the answer; where there is no
    /// memory to keep it, nothing was loaded.
    fn load(&mut self, alloc: Global, path: &str, limit: u64) -> Result<Bytes, LoadRefused>
        ensures file { IfOk result (λ bytes. IsFile (loads self.old) path.now bytes) }
        ensures within { IfOk result (λ bytes. length bytes ≤ limit) }
        ensures too_long { IsErrOf result LoadRefused.TooLong
            → IsLonger (loads self.old) path.now limit }
        ensures files { (loads self.new).files ≡ (loads self.old).files }
        ensures asked { AskedFor (loads self.old) (loads self.new) path.now
            ⊎ (IsErrOf result LoadRefused.NoMemory × AskedNothing (loads self.old) (loads self.new)) }

        ensures counted { (loads self.old).faults ≤ (loads self.new).faults }
        ensures failed { IsErrOf result LoadRefused.Failed
            → LoadFails (loads self.old) (loads self.new) };
}

/// Puts a path behind those that were asked for. Refused, they stay.
pub fn keep_path(alloc: Global, asked: &mut Seq<Text>, path: &str) -> Result<(), NoMemory>
    ensures ok { OnOk result (asked.new ≡ asked.old ++ path.now ∷ []) }
    ensures err { OnErr result (asked.new ≡ asked.old) }
{
    let path = Text::of(alloc, path)?;
    asked.push(path)
}
