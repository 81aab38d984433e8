// One key more or less in a rising list.
ghost use Rattle.std.specs.Prelude.{ℕ, ◌≡◌, ◌+◌, ◌<◌, ◌≤◌, IfSome, vec_len, vec_capacity};
ghost use Rattle.std.specs.List.{Contains, sum_by};
ghost use Rattle.lang_lists.specs.Ages.{weigh, each_once, IsRising};
ghost use Rattle.lang_lists.specs.declared.age_keys.AgeKey.{AgeKey as Key};

use crate::age_keys::{AgeKey, count_before};

fn put_key(keys: &mut Vec<AgeKey>, key: AgeKey)
    requires rising { IsRising keys.old.items }
    requires room { vec_len keys.old < vec_capacity keys.old }
    ensures rising { IsRising keys.new.items }
    ensures keys { (f : Key → ℕ) → sum_by f keys.new.items ≡ sum_by f keys.old.items + f key }
    ensures capacity { vec_capacity keys.old ≤ vec_capacity keys.new }
{
    let at = count_before(keys, key);
    let _ = keys.insert(at, key);
}

fn take_key(keys: &mut Vec<AgeKey>, key: AgeKey)
    requires rising { IsRising keys.old.items }
    requires there { Contains keys.old.items key }
    ensures rising { IsRising keys.new.items }
    ensures keys { (f : Key → ℕ) → sum_by f keys.new.items + f key ≡ sum_by f keys.old.items }
    ensures len { vec_len keys.new + 1 ≡ vec_len keys.old }
    ensures capacity { vec_capacity keys.old ≤ vec_capacity keys.new }
{
    let at = count_before(keys, key);
    let _ = keys.remove(at);
}

/// Puts a key, where there is one, in its place, for which there has to be room.
pub(crate) fn put_in(keys: &mut Vec<AgeKey>, key: Option<AgeKey>)
    requires rising { IsRising keys.old.items }
    requires room { vec_len keys.old + weigh each_once key ≤ vec_capacity keys.old }
    ensures rising { IsRising keys.new.items }
    ensures keys { (f : Key → ℕ) → sum_by f keys.new.items ≡ sum_by f keys.old.items + weigh f key }
    ensures capacity { vec_capacity keys.old ≤ vec_capacity keys.new }
{
    match key {
        None => {}
        Some(key) => put_key(keys, key),
    }
}

/// Takes a key out, where there is one, which has to be there.
pub(crate) fn take_out(keys: &mut Vec<AgeKey>, key: Option<AgeKey>)
    requires rising { IsRising keys.old.items }
    requires there { IfSome key (Contains keys.old.items) }
    ensures rising { IsRising keys.new.items }
    ensures keys { (f : Key → ℕ) → sum_by f keys.new.items + weigh f key ≡ sum_by f keys.old.items }
    ensures len { vec_len keys.new + weigh each_once key ≡ vec_len keys.old }
    ensures capacity { vec_capacity keys.old ≤ vec_capacity keys.new }
{
    match key {
        None => {}
        Some(key) => take_key(keys, key),
    }
}
