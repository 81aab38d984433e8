// Files in memory. They tell their bytes, and fail at the loads that they are told to.
ghost use Rattle.std.specs.Prelude.{◌≡◌, ◌⊎◌, ◌<◌, ◌≤◌, [], None, find, length, IfOk, IsErrOf};
ghost use Rattle.std.specs.Option.{option_copied};
ghost use Rattle.io_edge.specs.Files.{AskedFor, AskedNothing, IsFile, IsLonger, LoadFails};
ghost use Rattle.io_edge.specs.MemoryFiles.{has_path};

use crate::files::keep_path;
use crate::told::FailingCalls;
use crate::{Files, LoadRefused};
use lang_base::{Bytes, Copied, Seq, Text};
use std::alloc::Global;

/// A file in memory: the path that it is loaded by, and its bytes.
pub struct MemoryFile {
    pub path: Text,
    pub bytes: Bytes,
}

impl Drop for MemoryFile {
    fn drop(self) {
        let Self { path: _, bytes: _ } = self;
    }
}

/// Files in memory. Of two with the same path the first counts.
pub struct MemoryFiles {
    files: Seq<MemoryFile>,
    asked: Seq<Text>,
    calls: FailingCalls,
}

impl Drop for MemoryFiles {
    fn drop(self) {
        let Self {
            files: _,
            asked: _,
            calls: _,
        } = self;
    }
}

fn found<'a>(files: &'a [MemoryFile], path: &str) -> Option<&'a MemoryFile>
    ensures { option_copied result ≡ find (has_path path.now) files.now }
{
    files.iter().find(|file| file.path.as_str() == path)
}

// The file's bytes, where they are no more than the limit.
fn within(alloc: Global, file: &MemoryFile, limit: u64) -> Result<Bytes, LoadRefused>
    ensures bytes { IfOk result (λ bytes. bytes ≡ file.now.bytes) }
    ensures within { IfOk result (λ bytes. length bytes ≤ limit) }
    ensures too_long { IsErrOf result LoadRefused.TooLong → limit < length file.now.bytes }
    ensures not_failed { ¬ (IsErrOf result LoadRefused.Failed) }
{
    if file.bytes.as_slice().len() as u64 > limit {
        return Err(LoadRefused::TooLong);
    }
    match file.bytes.copied(alloc) {
        Ok(bytes) => Ok(bytes),
        Err(_) => Err(LoadRefused::NoMemory),
    }
}

impl MemoryFiles {
    ghost use Rattle.io_edge.specs.MemoryFiles.{memory_files, load_faults, load_calls, paths_asked};

    /// These files. The loads with the numbers in `failing`, counted from 1, fail.
    pub fn new(files: Seq<MemoryFile>, failing: Vec<u64>) -> Self
        ensures files { memory_files result ≡ files }
        ensures asked { paths_asked result ≡ [] }
        ensures faults { load_faults result ≡ 0 }
        ensures failing { (load_calls result).failing ≡ failing }
        ensures made { (load_calls result).made ≡ 0 }
    {
        let asked = Seq::new(*failing.allocator());
        MemoryFiles {
            files,
            asked,
            calls: FailingCalls::new(failing),
        }
    }

    /// The paths that were asked for, in order.
    pub fn asked(&self) -> &[Text]
        ensures asked { result.now ≡ paths_asked self.now }
    {
        self.asked.as_slice()
    }

    /// How many loads have failed, up to the greatest `u64`.
    pub fn faults(&self) -> u64
        ensures faults { result ≡ load_faults self.now }
    {
        self.calls.faults
    }
}

impl Files for MemoryFiles {
    ghost use Rattle.io_edge.specs.MemoryFiles.{bytes_at, memory_files, load_faults, load_calls, memory_loads};
    ghost use Rattle.io_edge.specs.Told.{count_after, IsToldToFail};

    ghost loads = { λ s. memory_loads s };

    fn load(&mut self, alloc: Global, path: &str, limit: u64) -> Result<Bytes, LoadRefused>
        // The trait's clauses.
        ensures file { IfOk result (λ bytes. IsFile (memory_loads self.old) path.now bytes) }
        ensures within { IfOk result (λ bytes. length bytes ≤ limit) }
        ensures too_long { IsErrOf result LoadRefused.TooLong
            → IsLonger (memory_loads self.old) path.now limit }
        ensures files { memory_files self.new ≡ memory_files self.old }
        ensures asked { AskedFor (memory_loads self.old) (memory_loads self.new) path.now
            ⊎ (IsErrOf result LoadRefused.NoMemory
            × AskedNothing (memory_loads self.old) (memory_loads self.new)) }
        ensures counted { load_faults self.old ≤ load_faults self.new }
        ensures failed { IsErrOf result LoadRefused.Failed
            → LoadFails (memory_loads self.old) (memory_loads self.new) }

        // Each failed load counts once, and nothing else counts.
        ensures one { IsErrOf result LoadRefused.Failed
            → load_faults self.new ≡ count_after (load_faults self.old) }
        ensures none_else { load_faults self.new ≡ load_faults self.old
            ⊎ IsErrOf result LoadRefused.Failed }

        // It fails exactly where it is told to, or there is no such file, unless memory is wanting.
        ensures told { IsToldToFail (load_calls self.old)
            → IsErrOf result LoadRefused.Failed ⊎ IsErrOf result LoadRefused.NoMemory }
        ensures missing { bytes_at (memory_files self.old) path.now ≡ None
            → IsErrOf result LoadRefused.Failed ⊎ IsErrOf result LoadRefused.NoMemory }
        ensures cause { IsErrOf result LoadRefused.Failed → IsToldToFail (load_calls self.old)
            ⊎ (bytes_at (memory_files self.old) path.now ≡ None) }
        ensures failing { (load_calls self.new).failing ≡ (load_calls self.old).failing }
        ensures made { (load_calls self.new).made ≡ count_after (load_calls self.old).made }
    {
        let fails = self.calls.fails();
        if keep_path(alloc, &mut self.asked, path).is_err() {
            return Err(LoadRefused::NoMemory);
        }
        if fails {
            self.calls.fault();
            return Err(LoadRefused::Failed);
        }
        match found(self.files.as_slice(), path) {
            Some(file) => within(alloc, file, limit),
            None => {
                self.calls.fault();
                Err(LoadRefused::Failed)
            }
        }
    }
}
