// Chains of places, of which each bucket has one.
ghost use Rattle.std.specs.Prelude.{ℕ, ◌≡◌, ◌+◌, ◌-◌, ◌<◌, ◌≤◌, true, nat_eq, length, take, insert, slice_index, OnOk, vec_len, vec_capacity};
ghost use Rattle.lang_lists.specs.Chains.{bucket_of, is_in, IsChained, IsLinked, IsParted};
ghost use Rattle.lang_lists.specs.Ends.{last_end, raised};
ghost use Rattle.lang_lists.specs.Indexes.{most_keys};

use lang_base::NoMemory;

/// At most so many keys are chained, so that each end is a number of 32 bits, also once it is raised by one.
pub(crate) const MOST_KEYS: usize = 4_294_967_294;

// An end, or a place, as a number of 32 bits.
fn narrow(end: usize) -> u32
    requires { end ≤ most_keys }
    ensures { result ≡ end }
{
    end as u32
}

/// The bucket of a key.
pub(crate) fn bucket_of(last: &[u32], key: u64) -> usize
    requires { 0 < length last.now }
    ensures bucket { result ≡ bucket_of (length last.now) key }
    ensures within { result < length last.now }
{
    (key % last.len() as u64) as usize
}

/// Puts the key at a place into its chain, where those before it are in theirs.
pub(crate) fn link(keys: &[u64], before: &mut [u32], last: &mut [u32], place: usize)
    requires len { length before.old ≡ length keys.now }
    requires buckets { 0 < length last.old }
    requires place { place < length keys.now }
    requires most { place < most_keys }
    requires chained { IsChained (length last.old) place keys.now before.old last.old }
    ensures before { length before.new ≡ length before.old }
    ensures last { length last.new ≡ length last.old }
    ensures chained { IsChained (length last.old) (place + 1) keys.now before.new last.new }
{
    let bucket = bucket_of(last, keys[place]);
    before[place] = last[bucket];
    last[bucket] = narrow(place + 1);
}

fn clear(last: &mut [u32])
    ensures len { length last.new ≡ length last.old }
    ensures each { (b : ℕ) → b < length last.old → slice_index last.new b ≡ 0 }
{
    for bucket in 0..last.len() {
        last[bucket] = 0;
    }
}

/// Chains all keys afresh.
pub(crate) fn chain(keys: &[u64], before: &mut [u32], last: &mut [u32])
    requires len { length before.old ≡ length keys.now }
    requires buckets { 0 < length last.old }
    requires most { length keys.now ≤ most_keys }
    ensures before { length before.new ≡ length before.old }
    ensures last { length last.new ≡ length last.old }
    ensures linked { IsLinked keys.now before.new last.new }
{
    clear(last);
    for place in 0..keys.len() {
        link(keys, before, last, place);
    }
}

/// Makes half as many buckets as there are places for keys, and one, and chains all keys in them. Refused, there are those
/// that there were.
pub(crate) fn spread(
    keys: &Vec<u64>,
    before: &mut Vec<u32>,
    last: &mut Vec<u32>,
) -> Result<(), NoMemory>
    requires linked { IsLinked keys.now.items before.old.items last.old.items }
    requires most { vec_len keys.now ≤ most_keys }
    ensures linked { IsLinked keys.now.items before.new.items last.new.items }
    ensures len { vec_len before.new ≡ vec_len before.old }
    ensures capacity { vec_capacity before.new ≡ vec_capacity before.old }
    ensures buckets { OnOk result (0 < vec_len last.new) }
    ensures kept { 0 < vec_len last.old → 0 < vec_len last.new }
{
    last.resize(keys.capacity() / 2 + 1, 0)?;
    chain(keys, before, last);
    Ok(())
}

// Where the keys of a bucket part at a place.
fn part(keys: &[u64], before: &[u32], last: &[u32], bucket: usize, at: usize) -> (u32, usize)
    requires linked { IsLinked keys.now before.now last.now }
    requires bucket { bucket < length last.now }
    requires at { at ≤ length keys.now }
    ensures { IsParted (length last.now) bucket at keys.now result.0 result.1 }
{
    let mut behind = keys.len() + 1;
    let mut end = last[bucket];
    while end as usize > at {
        behind = end as usize;
        end = before[behind - 1];
    }
    (end, behind)
}

// Raises each end that lies behind a place by one.
fn raise(ends: &mut [u32], at: u32)
    requires { (i : ℕ) → i < length ends.old → slice_index ends.old i ≤ most_keys }
    ensures len { length ends.new ≡ length ends.old }
    ensures each { (i : ℕ) → i < length ends.old → slice_index ends.new i ≡ raised at (slice_index ends.old i) }
{
    for place in 0..ends.len() {
        let end = ends[place];
        ends[place] = end + u32::from(end > at);
    }
}

/// Puts a key, for which there is room, at a place before what stands there. The ends behind the place are raised, and the key
/// goes into its chain; no other chain is looked at.
pub(crate) fn link_between(
    keys: &mut Vec<u64>,
    before: &mut Vec<u32>,
    last: &mut [u32],
    at: usize,
    key: u64,
)
    requires linked { IsLinked keys.old.items before.old.items last.old }
    requires within { at < vec_len keys.old }
    requires most { vec_len keys.old < most_keys }
    requires keys { vec_len keys.old < vec_capacity keys.old }
    requires before { vec_len before.old < vec_capacity before.old }
    ensures linked { IsLinked keys.new.items before.new.items last.new }
    ensures items { keys.new.items ≡ insert keys.old.items at key }
    ensures keys { vec_capacity keys.new ≡ vec_capacity keys.old }
    ensures before { vec_capacity before.new ≡ vec_capacity before.old }
    ensures last { length last.new ≡ length last.old }
{
    let bucket = bucket_of(last, key);
    let (front, behind) = part(keys, before, last, bucket, at);
    let here = narrow(at);
    raise(before, here);
    raise(last, here);
    let _ = keys.insert(at, key);
    let _ = before.insert(at, front);
    if behind < keys.len() {
        before[behind] = here + 1;
    } else {
        last[bucket] = here + 1;
    }
}

// From the end of a key in its bucket's chain back to the end of the first that is the key itself.
fn walk(keys: &[u64], before: &[u32], last: &[u32], key: u64, from: usize) -> usize
    requires linked { IsLinked keys.now before.now last.now }
    requires within { from ≤ length keys.now }
    requires chained { 0 < from → is_in (length last.now) (bucket_of (length last.now) key) (slice_index keys.now (from - 1)) ≡ true }
    ensures { result ≡ last_end (nat_eq key) (take from keys.now) }
{
    let mut end = from;
    while end > 0 {
        if keys[end - 1] == key {
            return end;
        }
        end = before[end - 1] as usize;
    }
    0
}

/// The end of a key among all keys.
pub(crate) fn end_of(keys: &[u64], before: &[u32], last: &[u32], key: u64) -> usize
    requires { IsLinked keys.now before.now last.now }
    ensures { result ≡ last_end (nat_eq key) keys.now }
{
    if last.is_empty() {
        return 0;
    }
    let bucket = bucket_of(last, key);
    walk(keys, before, last, key, last[bucket] as usize)
}

/// The end of the key at a place among those before it.
pub(crate) fn end_before(keys: &[u64], before: &[u32], last: &[u32], place: usize) -> usize
    requires linked { IsLinked keys.now before.now last.now }
    requires place { place < length keys.now }
    ensures { result ≡ last_end (nat_eq (slice_index keys.now place)) (take place keys.now) }
{
    walk(keys, before, last, keys[place], before[place] as usize)
}
