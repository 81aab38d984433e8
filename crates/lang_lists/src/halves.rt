// The search by halves.
ghost use Rattle.std.specs.Prelude.{ℕ, ◌≡◌, ◌<◌, ◌≤◌, Bool, true, false, length};
ghost use Rattle.std.specs.List.{Contains};
ghost use Rattle.std.specs.List.Sorted.{IsPartitionedBy, IsPartitionPoint};

// Where to look next: at the last of all first, as most of what is sought belongs behind it, then by halves.
fn probe(low: usize, high: usize, len: usize) -> usize
    requires { low < high }
    ensures low { low ≤ result }
    ensures high { result < high }
{
    if high == len {
        high - 1
    } else {
        low + (high - low) / 2
    }
}

/// How many items stand at the front of a list, where a test holds of these and of none behind them. Found by halves, and
/// in one step where it holds of all.
pub fn count_front<T, F: Fn(&T) -> bool>(items: &[T], is_front: F) -> usize
    requires { (x : _) → Contains items.now x.now → F.pre is_front x }
    ensures within { result ≤ length items.now }
    ensures parted { (p : T → Bool) → ((x : _) (r : Bool) → Contains items.now x.now → F.post is_front x r → r ≡ p x.now)
        → IsPartitionedBy p items.now → IsPartitionPoint (λ y. p y ≡ true) (λ y. p y ≡ false) items.now result }
{
    let mut low = 0;
    let mut high = items.len();
    while low < high {
        let middle = probe(low, high, items.len());
        if is_front(&items[middle]) {
            low = middle + 1;
        } else {
            high = middle;
        }
    }
    low
}
