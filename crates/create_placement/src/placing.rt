// The place of a created entry.
ghost use Rattle.std.specs.Prelude.{◌≡◌, ◌<◌, ◌≤◌, length, IfSome};
ghost use Rattle.create_placement.specs.Placement.{IsPlaced, known_place, named, names_folded, place_among, place_behind};

use request_log::Log;

fn known_place(log: &Log, id: Option<u64>) -> Option<u64>
    ensures place { result ≡ known_place id log.now.entries }
    ensures within { IfSome result (λ at. at < length log.now.entries) }
{
    match id {
        Some(id) => log.place_of(id),
        None => None,
    }
}

fn names_folded(log: &Log, id: Option<u64>) -> bool
    ensures { result ≡ names_folded id log.now.folded }
{
    match id {
        Some(id) => log.find_folded(id).is_some(),
        None => false,
    }
}

fn place_behind(log: &Log, after: Option<u64>) -> u64
    ensures place { result ≡ place_behind after log.now.folded log.now.entries }
    ensures within { result ≤ length log.now.entries }
{
    let end = log.len();
    if names_folded(log, after) {
        return 0;
    }
    match known_place(log, after) {
        Some(at) => at + 1,
        None => end,
    }
}

fn place_among(log: &Log, before: Option<u64>, after: Option<u64>) -> u64
    ensures place { result ≡ place_among before after log.now.folded log.now.entries }
    ensures within { result ≤ length log.now.entries }
{
    if names_folded(log, before) {
        return 0;
    }
    match known_place(log, before) {
        Some(at) => at,
        None => place_behind(log, after),
    }
}

/// The place, counted from 0, at which a created entry is inserted among the entries of the log that aren't folded: directly
/// before the entry of the number `before` where the log has it, else directly behind the entry of the number `after` where
/// it has that, else at the end. A folded entry stands before all places: where it decides, the place is the first.
pub fn place(log: &Log, before: Option<u64>, after: Option<u64>) -> u64
    ensures place { result ≡ place_among before after log.now.folded log.now.entries }
    ensures within { result ≤ length log.now.entries }
    ensures stands { let folded = log.now.folded in let entries = log.now.entries in
        IsPlaced (names_folded before folded) (named before entries) (names_folded after folded) (named after entries) result entries }
{
    place_among(log, before, after)
}
