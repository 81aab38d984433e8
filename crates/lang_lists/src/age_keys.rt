// Keys, and how many of a rising list stand before a place, found by halves.
ghost use Rattle.std.specs.Prelude.{◌≡◌, ◌≤◌, true, false, nat_lt, nat_le, length};
ghost use Rattle.std.specs.List.{slice_range};
ghost use Rattle.std.specs.List.Sorted.{IsPartitionPoint};
ghost use Rattle.lang_lists.specs.Ages.{is_before, of_code, IsRising};

use crate::halves::count_front;

/// What waits: for whom, since when, and which it is.
#[derive(Clone, Copy, PartialEq, Eq)]
pub struct AgeKey {
    /// The receiver, as a number. Several may have the same: who takes a key looks whom it is for.
    pub code: u64,
    /// Since when it waits.
    pub since: u64,
    /// Of those that wait for as long, the one with the lowest number comes first.
    pub number: u64,
}

fn is_before(key: &AgeKey, other: &AgeKey) -> bool
    ensures { result ≡ is_before key.now other.now }
{
    key.code < other.code
        || key.code == other.code
            && (key.since < other.since || key.since == other.since && key.number < other.number)
}

/// How many keys stand before the place of this one.
pub(crate) fn count_before(keys: &[AgeKey], key: AgeKey) -> usize
    requires { IsRising keys.now }
    ensures within { result ≤ length keys.now }
    ensures parted { IsPartitionPoint (λ k. is_before k key ≡ true) (λ k. is_before k key ≡ false) keys.now result }
{
    count_front(keys, |other| is_before(other, &key))
}

// How many keys have a lower code.
fn count_below(keys: &[AgeKey], code: u64) -> usize
    requires { IsRising keys.now }
    ensures within { result ≤ length keys.now }
    ensures parted { IsPartitionPoint (λ k. nat_lt k.code code ≡ true) (λ k. nat_lt k.code code ≡ false) keys.now result }
{
    count_front(keys, |key| key.code < code)
}

// How many keys have this code or a lower one.
fn count_to(keys: &[AgeKey], code: u64) -> usize
    requires { IsRising keys.now }
    ensures within { result ≤ length keys.now }
    ensures parted { IsPartitionPoint (λ k. nat_le k.code code ≡ true) (λ k. nat_le k.code code ≡ false) keys.now result }
{
    count_front(keys, |key| key.code <= code)
}

fn part(keys: &[AgeKey], start: usize, end: usize) -> &[AgeKey]
    requires start { start ≤ end }
    requires end { end ≤ length keys.now }
    ensures { result.now ≡ slice_range keys.now start end }
{
    &keys[start..end]
}

/// The keys of a code.
pub(crate) fn of_code(keys: &[AgeKey], code: u64) -> &[AgeKey]
    requires { IsRising keys.now }
    ensures { result.now ≡ of_code code keys.now }
{
    let start = count_below(keys, code);
    let end = count_to(keys, code);
    part(keys, start, end)
}
