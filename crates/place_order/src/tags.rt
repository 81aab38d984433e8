// Tags of labels, which rise along the list and so tell places.
ghost use Rattle.std.specs.Prelude.{ℕ, ◌≡◌, ◌+◌, ◌*◌, ◌≤◌, ◌<◌, length, IfSome, vec_len, vec_capacity};
ghost use Rattle.std.specs.List.{Contains};
ghost use Rattle.place_order.specs.Labels.{place_in};
ghost use Rattle.place_order.specs.Tags.{tag_of, tag_at, even_tag, IsTagged, IsBetween};

use lang_lists::count_front;

// The first tag of all, and the lowest of those that are given afresh.
const FIRST: u64 = 1 << 62;

// From a tag to the next where they are given afresh, and at both ends. It is halved 45 times before no tag fits.
const STRIDE: u64 = 1 << 45;

/// The tag of a label that stands in the list.
pub(crate) fn tag_of(labels: &[u64], tags: &[u64], label: u64) -> u64
    requires tagged { IsTagged labels.now tags.now }
    requires there { Contains labels.now label }
    ensures { result ≡ tag_of tags.now label }
{
    tags[label as usize]
}

/// Where a label stands that is in the list, found by halves.
pub(crate) fn place_of(labels: &[u64], tags: &[u64], label: u64) -> usize
    requires tagged { IsTagged labels.now tags.now }
    requires there { Contains labels.now label }
    ensures place { result ≡ place_in labels.now label }
    ensures within { result < length labels.now }
    ensures few { length labels.now ≤ 100000 }
{
    let tag = tag_of(labels, tags, label);
    count_front(labels, |other| tags[*other as usize] < tag)
}

fn even_tag(gap: usize, place: usize) -> u64
    requires gap { gap ≤ 100000 }
    requires place { place ≤ 100000 }
    ensures { result ≡ even_tag gap place }
{
    if place < gap {
        FIRST + STRIDE * place as u64
    } else {
        FIRST + STRIDE * (place as u64 + 1)
    }
}

// Gives all labels tags afresh, and leaves one out for a label to come.
fn spread(labels: &[u64], tags: &mut Vec<u64>, gap: usize)
    requires tagged { IsTagged labels.now tags.old.items }
    requires gap { gap ≤ length labels.now }
    ensures len { vec_len tags.new ≡ vec_len tags.old }
    ensures capacity { vec_capacity tags.new ≡ vec_capacity tags.old }
    ensures each { (i : ℕ) → i < length labels.now → tag_at labels.now tags.new.items i ≡ even_tag gap i }
{
    for (place, label) in labels.iter().enumerate() {
        tags[*label as usize] = even_tag(gap, place);
    }
}

// A tag between the labels on both sides of a gap; None where none fits.
fn tag_between(labels: &[u64], tags: &[u64], gap: usize) -> Option<u64>
    requires tagged { IsTagged labels.now tags.now }
    requires gap { gap ≤ length labels.now }
    ensures { IfSome result (IsBetween labels.now tags.now gap) }
{
    if labels.len() == 0 {
        return Some(FIRST);
    }
    if gap == 0 {
        return tags[labels[0] as usize].checked_sub(STRIDE);
    }
    let below = tags[labels[gap - 1] as usize];
    if gap == labels.len() {
        return below.checked_add(STRIDE);
    }
    let half = (tags[labels[gap] as usize] - below) / 2;
    if half == 0 { None } else { Some(below + half) }
}

/// A tag for a label to come at this place. Where none fits between its neighbours', all labels get tags afresh.
pub(crate) fn tag_for(labels: &[u64], tags: &mut Vec<u64>, gap: usize) -> u64
    requires tagged { IsTagged labels.now tags.old.items }
    requires gap { gap ≤ length labels.now }
    ensures tagged { IsTagged labels.now tags.new.items }
    ensures between { IsBetween labels.now tags.new.items gap result }
    ensures len { vec_len tags.new ≡ vec_len tags.old }
    ensures capacity { vec_capacity tags.new ≡ vec_capacity tags.old }
{
    match tag_between(labels, tags, gap) {
        Some(tag) => tag,
        None => {
            spread(labels, tags, gap);
            FIRST + STRIDE * gap as u64
        }
    }
}
