// Files of std. They count their faults and keep the paths that were asked for, and tell no bytes.
ghost use Rattle.std.specs.Prelude.{◌≡◌, ◌≢◌, ◌⊎◌, ◌≤◌, [], length, IfOk, IsErrOf};
ghost use Rattle.std.specs.IoError.{error_kind};
ghost use Rattle.std.specs.declared.io.ErrorKind.TheVariants.{OutOfMemory};
ghost use Rattle.io_edge.specs.Causes.{load_refusal};
ghost use Rattle.io_edge.specs.Files.{AskedFor, AskedNothing, IsFile, IsLonger, LoadFails};

use crate::files::keep_path;
use crate::{Files, LoadRefused, ReadRefused, Reading, read_all};
use lang_base::{Bytes, Seq, Text};
use std::alloc::Global;
use std::{fs, io, rt};

/// The files that a runtime opens, which tell no bytes.
#[derive(Drop)]
pub struct RealFiles<'a, R: rt::Files> {
    rt: &'a R,
    asked: Seq<Text>,
    faults: u64,
}

impl<'a, R: rt::Files> RealFiles<'a, R> {
    ghost use Rattle.io_edge.specs.RealFiles.{real_asked, real_faults};

    /// The files of this runtime, with no fault so far.
    pub fn new(alloc: Global, rt: &'a R) -> Self
        ensures asked { real_asked result ≡ [] }
        ensures faults { real_faults result ≡ 0 }
    {
        RealFiles {
            rt,
            asked: Seq::new(alloc),
            faults: 0,
        }
    }

    /// How many loads have failed, up to the greatest `u64`.
    pub fn faults(&self) -> u64
        ensures faults { result ≡ real_faults self.now }
    {
        self.faults
    }
}

// Why a file isn't opened, by std's error.
fn opening_refusal(error: io::Error) -> ReadRefused
    ensures memory { error_kind error ≡ OutOfMemory → result ≡ ReadRefused.NoMemory }
    ensures fault { error_kind error ≢ OutOfMemory → result ≡ ReadRefused.Fault }
{
    if error.kind() == io::ErrorKind::OutOfMemory {
        ReadRefused::NoMemory
    } else {
        ReadRefused::Fault
    }
}

// Why a file isn't loaded.
fn load_refusal(why: ReadRefused) -> LoadRefused
    ensures { result ≡ load_refusal why }
{
    match why {
        ReadRefused::NoMemory => LoadRefused::NoMemory,
        ReadRefused::Fault => LoadRefused::Failed,
        ReadRefused::TooLong => LoadRefused::TooLong,
    }
}

// The bytes of the file of a path, opened anew.
fn opened<R: rt::Files>(
    rt: &R,
    alloc: Global,
    path: &str,
    limit: u64,
) -> Result<Vec<u8>, ReadRefused>
    ensures within { IfOk result (λ v. length v.items ≤ limit) }
{
    match fs::open(rt, path) {
        Ok(file) => read_all(alloc, &mut Reading::new(file), limit),
        Err(error) => Err(opening_refusal(error)),
    }
}

impl<'a, R: rt::Files> Files for RealFiles<'a, R> {
    ghost use Rattle.io_edge.specs.RealFiles.{real_faults, real_loads};

    ghost loads = { λ s. real_loads s };

    fn load(&mut self, alloc: Global, path: &str, limit: u64) -> Result<Bytes, LoadRefused>
        ensures file { IfOk result (λ bytes. IsFile (real_loads self.old) path.now bytes) }
        ensures within { IfOk result (λ bytes. length bytes ≤ limit) }
        ensures too_long { IsErrOf result LoadRefused.TooLong
            → IsLonger (real_loads self.old) path.now limit }
        ensures asked { AskedFor (real_loads self.old) (real_loads self.new) path.now
            ⊎ (IsErrOf result LoadRefused.NoMemory
            × AskedNothing (real_loads self.old) (real_loads self.new)) }
        ensures counted { real_faults self.old ≤ real_faults self.new }
        ensures failed { IsErrOf result LoadRefused.Failed
            → LoadFails (real_loads self.old) (real_loads self.new) }
        // Nothing else counts.
        ensures none_else { real_faults self.new ≡ real_faults self.old
            ⊎ IsErrOf result LoadRefused.Failed }
    {
        if keep_path(alloc, &mut self.asked, path).is_err() {
            return Err(LoadRefused::NoMemory);
        }
        match opened(self.rt, alloc, path, limit) {
            Ok(bytes) => Ok(Bytes::from(bytes)),
            Err(why) => {
                if why == ReadRefused::Fault {
                    self.faults = self.faults.saturating_add(1);
                }
                Err(load_refusal(why))
            }
        }
    }
}
