// Lists searched by an index of their items' keys.
ghost use Rattle.std.specs.Prelude.{ℕ, ◌≡◌, Bool, false, nat_eq, length, map};
ghost use Rattle.std.specs.List.{Contains};
ghost use Rattle.std.specs.Option.{option_copied};
ghost use Rattle.dump_tables.specs.Found.{IsOneOf};

use lang_lists::HashIndex;

/// One of the items of which a test holds, if it holds of any, by an index of their keys. It may hold of items of this key
/// alone.
pub(crate) fn one_of<'a, T, F: Fn(&T) -> bool>(
    items: &'a [T],
    index: &HashIndex,
    key: u64,
    test: F,
) -> Option<&'a T>
    requires len { length index.now.keys ≡ length items.now }
    requires takes { (x : _) → Contains items.now x.now → F.pre test x }
    ensures { (key_of : T → ℕ) (p : T → Bool) → index.now.keys ≡ map key_of items.now
        → ((x : _) (r : Bool) → Contains items.now x.now → F.post test x r → r ≡ p x.now)
        → ((x : T) → nat_eq key (key_of x) ≡ false → p x ≡ false) → IsOneOf p items.now (option_copied result) }
{
    let mut end = index.end_of(key);
    while end > 0 {
        let item = &items[end - 1];
        if test(item) {
            return Some(item);
        }
        end = index.end_before(end - 1);
    }
    None
}
