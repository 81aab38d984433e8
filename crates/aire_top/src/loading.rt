// The world and the script that the words name.
ghost use Rattle.std.specs.Prelude.{◌≡◌, ◌∷◌, [], ◌<◌, ◌≤◌, ℕ, List, Ok, Err, length, IfOk, OnOk, IfErr, IsErrOf};
ghost use Rattle.io_edge.specs.Edge.{IsAtEnd, ReadFails};
ghost use Rattle.io_edge.specs.Files.{AskedFor, IsFile, IsLonger, LoadFails};
ghost use Rattle.std.specs.Option.{ForSome};
ghost use Rattle.aire_top.specs.Causes.{what_of};
ghost use Rattle.aire_top.specs.Closings.{IsGot, IsNotGot};
ghost use Rattle.aire_top.specs.Endings.{Asked};
ghost use Rattle.aire_top.specs.Top.{Is, file_world, world_from, world_path, world_told};
ghost use Rattle.world_file.specs.Worlds.{KnowEachOther, world_of};

use crate::words::is_input;
use io_edge::{Files, LoadRefused, ReadRefused, Source, read_all};
use lang_core::Bytes;
use script_run::LONGEST_SCRIPT;
use std::alloc::Global;
use world_file::{Setup, WorldRefused, built_in, read_world};

/// The most bytes of a world file.
pub const LONGEST_WORLD: u64 = 4194304;

/// Why there is no world.
#[derive(Drop)]
pub enum NoWorld {
    /// Memory ran out.
    NoMemory,
    /// The file wasn't loaded, and the count of faults rose.
    Failed,
    /// The file is too long.
    TooLong,
    /// The file is refused.
    Refused(WorldRefused),
}

// The world that these bytes spell.
fn world_from(alloc: Global, bytes: &[u8]) -> Result<Vec<Setup>, NoWorld>
    ensures world { IfOk result (λ setups. world_from (world_of bytes.now) ≡ Ok setups.items) }
    ensures together { IfOk result (λ setups. KnowEachOther setups.items) }
    ensures refused { IfErr result (λ why. ForSome (what_of why) (λ what. world_from (world_of bytes.now) ≡ Err what)) }
    ensures cause { ¬ (IsErrOf result NoWorld.Failed) }
{
    match read_world(alloc, bytes) {
        Ok(setups) => Ok(setups),
        Err(WorldRefused::NoMemory) => Err(NoWorld::NoMemory),
        Err(why) => Err(NoWorld::Refused(why)),
    }
}

// The world of a file.
#[tactic(auto, using(crate::proofs::Worlds::short_file, crate::proofs::Worlds::long_file))]
fn load_file<F: Files>(alloc: Global, path: &str, files: &mut F) -> Result<Vec<Setup>, NoWorld>
    ensures world { IfOk result (λ setups. Is (file_world (F.loads files.old).files path.now) (Ok setups.items)) }
    ensures together { IfOk result (λ setups. KnowEachOther setups.items) }
    ensures refused { IfErr result (λ why. ForSome (what_of why) (λ what. Is (file_world (F.loads files.old).files path.now) (Err what))) }
    ensures files { (F.loads files.new).files ≡ (F.loads files.old).files }
    ensures asked { ¬ (IsErrOf result NoWorld.NoMemory) → Asked (F.loads files.old) (F.loads files.new) (path.now ∷ []) }
    ensures counted { (F.loads files.old).faults ≤ (F.loads files.new).faults }
    ensures failed { IsErrOf result NoWorld.Failed → LoadFails (F.loads files.old) (F.loads files.new) }
{
    match files.load(alloc, path, LONGEST_WORLD) {
        Ok(bytes) => world_from(alloc, bytes.as_slice()),
        Err(LoadRefused::NoMemory) => Err(NoWorld::NoMemory),
        Err(LoadRefused::Failed) => Err(NoWorld::Failed),
        Err(LoadRefused::TooLong) => Err(NoWorld::TooLong),
    }
}

/// The world that a word names: one that comes with the program, or that of a file.
#[tactic(auto, using(crate::proofs::Worlds::standard_told, crate::proofs::Worlds::other_told))]
pub fn load_world<F: Files>(alloc: Global, word: &str, files: &mut F) -> Result<Vec<Setup>, NoWorld>
    ensures world { IfOk result (λ setups. Is (world_told (F.loads files.old).files word.now) (Ok setups.items)) }
    ensures together { IfOk result (λ setups. KnowEachOther setups.items) }
    ensures refused { IfErr result (λ why. ForSome (what_of why) (λ what. Is (world_told (F.loads files.old).files word.now) (Err what))) }
    ensures files { (F.loads files.new).files ≡ (F.loads files.old).files }
    ensures asked { ¬ (IsErrOf result NoWorld.NoMemory) → Asked (F.loads files.old) (F.loads files.new) (world_path word.now) }
    ensures counted { (F.loads files.old).faults ≤ (F.loads files.new).faults }
    ensures failed { IsErrOf result NoWorld.Failed → LoadFails (F.loads files.old) (F.loads files.new) }
{
    match built_in(alloc, word) {
        Ok(Some(setups)) => Ok(setups),
        Ok(None) => load_file(alloc, word, files),
        Err(_) => Err(NoWorld::NoMemory),
    }
}

// The script of a file.
fn load_named<F: Files>(alloc: Global, path: &str, files: &mut F) -> Result<Bytes, ReadRefused>
    ensures file { IfOk result (λ script. IsFile (F.loads files.old) path.now script) }
    ensures too_long { IsErrOf result ReadRefused.TooLong → IsLonger (F.loads files.old) path.now LONGEST_SCRIPT }
    ensures asked { ¬ (IsErrOf result ReadRefused.NoMemory) → AskedFor (F.loads files.old) (F.loads files.new) path.now }
    ensures failed { IsErrOf result ReadRefused.Fault → LoadFails (F.loads files.old) (F.loads files.new) }
{
    match files.load(alloc, path, LONGEST_SCRIPT) {
        Ok(script) => Ok(script),
        Err(LoadRefused::NoMemory) => Err(ReadRefused::NoMemory),
        Err(LoadRefused::Failed) => Err(ReadRefused::Fault),
        Err(LoadRefused::TooLong) => Err(ReadRefused::TooLong),
    }
}

// The script that is the input.
fn read_input<S: Source>(alloc: Global, input: &mut S) -> Result<Bytes, ReadRefused>
    ensures all { IfOk result (λ script. ForSome (S.reads input.old).left (λ all. script ≡ all)) }
    ensures end { OnOk result (IsAtEnd (S.reads input.new)) }
    ensures too_long { IsErrOf result ReadRefused.TooLong
        → ForSome (S.reads input.old).left (λ all. LONGEST_SCRIPT < length all) }
    ensures fault { IsErrOf result ReadRefused.Fault → ReadFails (S.reads input.old) (S.reads input.new) }
{
    let bytes = read_all(alloc, input, LONGEST_SCRIPT)?;
    Ok(Bytes::from(bytes))
}

/// The script that a word names: all of the input, or a file.
pub fn load_script<F: Files, S: Source>(
    alloc: Global,
    word: &str,
    files: &mut F,
    input: &mut S,
) -> Result<Bytes, ReadRefused>
    ensures got { IfOk result (λ script. IsGot word.now (F.loads files.old) (F.loads files.new) (S.reads input.old) (S.reads input.new) script) }
    ensures too_long { IsErrOf result ReadRefused.TooLong → (script : List ℕ)
        × IsGot word.now (F.loads files.old) (F.loads files.new) (S.reads input.old) (S.reads input.new) script
        × (LONGEST_SCRIPT < length script) }
    ensures fault { IsErrOf result ReadRefused.Fault
        → IsNotGot word.now (F.loads files.old) (F.loads files.new) (S.reads input.old) (S.reads input.new) }
{
    if is_input(word) {
        read_input(alloc, input)
    } else {
        load_named(alloc, word, files)
    }
}
