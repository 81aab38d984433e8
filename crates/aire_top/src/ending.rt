// How a run ends.
ghost use Rattle.std.specs.Prelude.{◌≡◌, All, IfSome, None, Some, codes};
ghost use Rattle.journal_rows.specs.declared.verdict.Verdict.TheVariants.{Legal};
ghost use Rattle.service_events.specs.Allowed.{IsAllowed};
ghost use Rattle.service_events.specs.Fits.{Fits};
ghost use Rattle.script_run.specs.Audits.{SaysForged};
ghost use Rattle.world_agreement.specs.Legal.{AreLegal};
ghost use Rattle.world_agreement.specs.Partners.{IsJoined};
ghost use Rattle.world_file.specs.Numbers.{refusal_text};
ghost use Rattle.aire_top.specs.Closings.{Closes, ClosesWorldless};
ghost use Rattle.aire_top.specs.Ended.{plain};
ghost use Rattle.aire_top.specs.Endings.{answer_in, nothing, refused_line, standing, world_line};
ghost use Rattle.aire_top.specs.Seen.{ending_of};

use crate::ended::Ended;
use crate::loading::NoWorld;
use crate::outcome::Outcome;
use command_ends::{REFUSED, lacking, unread, write_last};
use io_edge::{Connection, Sink};
use node_run::look_at_all;
use script_run::{World, judge};
use std::alloc::Global;
use std::mem;
use world_file::WorldRefused;

/// The end of a command of which the status alone is known.
pub fn without<C: Connection + Drop>(alloc: Global, status: u8) -> Ended<C>
    ensures ends { ending_of result ≡ plain (nothing status) }
    ensures verdict { result.verdict ≡ None }
    ensures kept { All Fits result.services.items × All IsAllowed result.services.items }
{
    Ended {
        status,
        services: Vec::new(alloc),
        verdict: None,
        receipts: Vec::new(alloc),
        last: None,
    }
}

/// The end of a command that serves nobody, with the verdict over its world where one stands, which is so by what an outcome
/// keeps and what a verdict says.
pub fn closed<C: Connection + Drop>(alloc: Global, outcome: Outcome) -> Ended<C>
    ensures ends { ending_of result ≡ plain (answer_in outcome.status outcome.world) }
    ensures legal { result.verdict ≡ Some Legal → AreLegal result.services.items }
    ensures joined { IfSome result.verdict (λ v. ¬ (SaysForged v)) }
    ensures allowed { IfSome result.verdict (λ v. All IsAllowed result.services.items) }
    ensures kept { All Fits result.services.items × All IsAllowed result.services.items }
{
    let Outcome { status, world } = outcome;
    match world {
        None => without(alloc, status),
        Some(world) => {
            let verdict = judge(&world);
            look_at_all(world.services());
            Ended {
                status,
                services: world.into_services(),
                verdict: Some(verdict),
                receipts: Vec::new(alloc),
                last: None,
            }
        }
    }
}

/// The status of how a command ended, when the process ends with it: services and receipts are left to the system, which takes
/// their memory back at once, and the connection on which an operator asked to stop is closed.
pub fn leave<C: Connection + Drop>(ended: Ended<C>) -> u8
    ensures { result ≡ ended.status }
{
    let Ended {
        status,
        services,
        verdict: _,
        receipts,
        last,
    } = ended;
    mem::forget(services);
    mem::forget(receipts);
    drop(last);
    status
}

/// The end of a run whose world stands, at a line of the script that is refused: 3.
pub fn refusal<K: Sink>(alloc: Global, world: World, out: &mut K, line: u64, number: u64) -> Outcome
    requires { IsJoined world.services }
    ensures { Closes (K.writes out.old) (K.writes out.new) (standing 3 world) (refused_line line number) (answer_in result.status result.world) }
{
    match format!(in alloc; "script refused line {line} number {number}\n") {
        Ok(text) => {
            write_last(out, text.as_str());
            Outcome::standing(REFUSED, world)
        }
        Err(_) => Outcome::lacking(out),
    }
}

// The end where the world file is too long: 3.
#[tactic(auto, using(crate::proofs::Bare::closes_now))]
fn world_too_long<K: Sink>(out: &mut K) -> u8
    ensures { Closes (K.writes out.old) (K.writes out.new) (nothing 3) (world_line (codes "8")) (nothing result) }
{
    write_last(out, "world refused 8\n");
    REFUSED
}

// The end where the world file is refused: 3.
#[tactic(auto, using(crate::proofs::Bare::lacks_now))]
fn world_refused<K: Sink>(alloc: Global, out: &mut K, why: &WorldRefused) -> u8
    ensures { Closes (K.writes out.old) (K.writes out.new) (nothing 3) (world_line (refusal_text why.now)) (nothing result) }
{
    match format!(in alloc; "world refused {why}\n") {
        Ok(text) => {
            write_last(out, text.as_str());
            REFUSED
        }
        Err(_) => lacking(out),
    }
}

/// The end of a command that has no world, by its status.
#[tactic(auto, using(crate::proofs::Bare::lacks_now, crate::proofs::Bare::unread_now))]
pub fn worldless<K: Sink>(alloc: Global, why: NoWorld, out: &mut K) -> u8
    ensures { ClosesWorldless why (K.writes out.old) (K.writes out.new) (nothing result) }
{
    match why {
        NoWorld::NoMemory => lacking(out),
        NoWorld::Failed => unread(out),
        NoWorld::TooLong => world_too_long(out),
        NoWorld::Refused(why) => world_refused(alloc, out, &why),
    }
}
