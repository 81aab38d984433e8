// The world that words name, served.
ghost use Rattle.std.specs.Prelude.{◌≡◌, None, map, string_bytes};
ghost use Rattle.aire_top.specs.Ended.{faults};
ghost use Rattle.aire_top.specs.Endings.{outside};
ghost use Rattle.aire_top.specs.Seen.{ending_of};
ghost use Rattle.aire_top.specs.Serving.{ServingEnds, serve_misfit};
ghost use Rattle.aire_top.specs.Top.{world_word};

use crate::announcing::AnnouncingDoor;
use crate::ended::Ended;
use crate::ending::{without, worldless};
use crate::loading::load_world;
use crate::serving::serve;
use crate::words::served_world;
use command_ends::misused;
use io_edge::{Files, Sink};
use io_links::{Ear, Link, Spawner};
use recorded_inputs::{Clock, Words};
use std::alloc::Global;
use std::sync::Wait;
use std::thread::Threads;
use std::time;

// Serves the world that a word names.
fn serve_world<
    R: Threads + Wait + time::Clock + Sync,
    F: Files,
    K: Sink,
    D: AnnouncingDoor,
    L: Link + Send,
    C: Clock + Send,
    V: Words + Send,
    P: Spawner,
>(
    rt: &R,
    alloc: Global,
    world: &str,
    files: &mut F,
    out: &mut K,
    doors: &mut D,
    links: &L,
    clock: &mut C,
    random: &mut V,
    spawner: &mut P,
) -> Ended<<D::Ear as Ear>::Conn>
    ensures { (words : _) (reads : _) → serve_misfit words ≡ None → world_word words ≡ world.now
        → ServingEnds words
        (faults (D.faults doors.old) (P.faults spawner.old))
        (faults (D.faults doors.new) (P.faults spawner.new))
        (outside (F.loads files.old) reads (K.writes out.old))
        (outside (F.loads files.new) reads (K.writes out.new))
        (ending_of result) }
{
    match load_world(alloc, world, files) {
        Ok(setups) => serve(rt, alloc, setups, out, doors, links, clock, random, spawner),
        Err(why) => without(alloc, worldless(alloc, why, out)),
    }
}

/// Serves the world that words name, until an operator stops it; or says which word doesn't fit.
pub fn served<
    R: Threads + Wait + time::Clock + Sync,
    F: Files,
    K: Sink,
    D: AnnouncingDoor,
    L: Link + Send,
    C: Clock + Send,
    V: Words + Send,
    P: Spawner,
>(
    rt: &R,
    alloc: Global,
    words: &[String],
    files: &mut F,
    out: &mut K,
    doors: &mut D,
    links: &L,
    clock: &mut C,
    random: &mut V,
    spawner: &mut P,
) -> Ended<<D::Ear as Ear>::Conn>
    ensures { (reads : _) → ServingEnds (map string_bytes words.now)
        (faults (D.faults doors.old) (P.faults spawner.old))
        (faults (D.faults doors.new) (P.faults spawner.new))
        (outside (F.loads files.old) reads (K.writes out.old))
        (outside (F.loads files.new) reads (K.writes out.new))
        (ending_of result) }
{
    match served_world(words) {
        Ok(world) => serve_world(
            rt, alloc, world, files, out, doors, links, clock, random, spawner,
        ),
        Err(place) => without(alloc, misused(alloc, out, place)),
    }
}
