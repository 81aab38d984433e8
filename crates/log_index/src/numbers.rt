// Marks, which are numbers that rise.
ghost use Rattle.std.specs.Prelude.{ℕ, ◌≡◌, ◌+◌, ◌-◌, ◌<◌, ◌≤◌, ◌&&◌, not, nat_lt, [], ◌∷◌, ◌++◌, drop, take, length, map, IfOk, OnOk, vec_capacity};
ghost use Rattle.dependency_index.specs.Numbers.{Rises, with_number};
ghost use Rattle.log_index.specs.Marks.{is_marked, lowered, shifted, AreMarks};

use dependency_index::seek_number;
use lang_core::NoMemory;
use std::alloc::Global;
use std::marker::Model;

/// Marks go from the front, one after the other. One that goes stays in memory, passed over, until as many are gone as are left
/// or its place is needed, since taking it out at once would move all others.
pub(crate) struct Marks {
    numbers: Vec<u64>,
    // So many of the front are gone.
    gone: usize,
}

impl Drop for Marks {
    fn drop(self) {
        let Self {
            numbers: _,
            gone: _,
        } = self;
    }
}

impl Model for Marks {
    ghost use Rattle.std.specs.Prelude.{◌≤◌, drop, vec_len, vec_capacity};
    ghost use Rattle.log_index.specs.Marks.{Marked};

    ghost Value = { Marked };

    ghost view = { λ m. record { items = drop m.gone m.numbers.items; spots = vec_capacity m.numbers } };

    ghost invariant = { λ m. m.gone ≤ vec_len m.numbers };
}

// Those that aren't gone.
fn left(numbers: &[u64], gone: usize) -> &[u64]
    requires { gone ≤ length numbers.now }
    ensures { result.now ≡ drop gone numbers.now }
{
    &numbers[gone..]
}

/// Takes so many out of the front.
pub(crate) fn drop_front(numbers: &mut Vec<u64>, count: usize)
    requires { count ≤ length numbers.old.items }
    ensures items { numbers.new.items ≡ drop count numbers.old.items }
    ensures capacity { vec_capacity numbers.old ≤ vec_capacity numbers.new }
{
    let _ = numbers.drain(..count);
}

// Takes out those that are gone, where they are as many as the others. Answers how many are gone then.
fn close_up(numbers: &mut Vec<u64>, gone: usize) -> usize
    requires { gone ≤ length numbers.old.items }
    ensures items { drop result numbers.new.items ≡ drop gone numbers.old.items }
    ensures within { result ≤ length numbers.new.items }
    ensures capacity { vec_capacity numbers.old ≤ vec_capacity numbers.new }
{
    if gone < numbers.len() - gone {
        return gone;
    }
    drop_front(numbers, gone);
    0
}

// Takes out those that are gone, where there is no place left. Answers how many are gone then.
fn make_place(numbers: &mut Vec<u64>, gone: usize) -> usize
    requires within { gone ≤ length numbers.old.items }
    requires fits { length (drop gone numbers.old.items) < vec_capacity numbers.old }
    ensures items { drop result numbers.new.items ≡ drop gone numbers.old.items }
    ensures within { result ≤ length numbers.new.items }
    ensures place { length numbers.new.items < vec_capacity numbers.new }
    ensures capacity { vec_capacity numbers.old ≤ vec_capacity numbers.new }
{
    if numbers.len() < numbers.capacity() {
        return gone;
    }
    drop_front(numbers, gone);
    0
}

// Puts a number in at a place of those that aren't gone.
fn put_at(numbers: &mut Vec<u64>, gone: usize, at: usize, number: u64)
    requires within { gone + at ≤ length numbers.old.items }
    requires place { length numbers.old.items < vec_capacity numbers.old }
    ensures items { drop gone numbers.new.items ≡ take at (drop gone numbers.old.items) ++ number ∷ drop at (drop gone numbers.old.items) }
    ensures within { gone ≤ length numbers.new.items }
    ensures capacity { vec_capacity numbers.old ≤ vec_capacity numbers.new }
{
    let _ = numbers.insert(gone + at, number);
}

// Puts a number in among those that aren't gone, if it isn't there yet. Answers how many are gone then.
fn put_among(numbers: &mut Vec<u64>, gone: usize, number: u64) -> usize
    requires within { gone ≤ length numbers.old.items }
    requires rising { Rises (drop gone numbers.old.items) }
    requires fits { length (with_number number (drop gone numbers.old.items)) ≤ vec_capacity numbers.old }
    ensures items { drop result numbers.new.items ≡ with_number number (drop gone numbers.old.items) }
    ensures within { result ≤ length numbers.new.items }
    ensures capacity { vec_capacity numbers.old ≤ vec_capacity numbers.new }
{
    let (at, taken) = seek_number(left(numbers, gone), number);
    if taken {
        return gone;
    }
    let gone = make_place(numbers, gone);
    put_at(numbers, gone, at, number);
    gone
}

fn shifted(place: u64, mark: u64) -> u64
    requires { mark < 100000 }
    ensures { result ≡ shifted place mark }
{
    if mark < place { mark } else { mark + 1 }
}

// Moves the marks from a place on by one.
fn shift_all(marks: &mut [u64], place: u64)
    requires { AreMarks 100000 marks.old }
    ensures { marks.new ≡ map (shifted place) marks.old }
{
    for mark in marks.iter_mut() {
        *mark = shifted(place, *mark);
    }
}

fn shift_marks(marks: &mut Vec<u64>, place: u64)
    requires { AreMarks 100000 marks.old.items }
    ensures items { marks.new.items ≡ map (shifted place) marks.old.items }
    ensures capacity { vec_capacity marks.old ≤ vec_capacity marks.new }
{
    shift_all(marks, place);
}

fn lowered(n: u64, mark: u64) -> u64
    ensures { result ≡ lowered n mark }
{
    mark.saturating_sub(n)
}

// Moves all marks down by so many.
fn lower_all(marks: &mut [u64], n: u64)
    ensures { marks.new ≡ map (lowered n) marks.old }
{
    for mark in marks.iter_mut() {
        *mark = lowered(n, *mark);
    }
}

fn lower_marks(marks: &mut Vec<u64>, n: u64)
    ensures items { marks.new.items ≡ map (lowered n) marks.old.items }
    ensures capacity { vec_capacity marks.old ≤ vec_capacity marks.new }
{
    lower_all(marks, n);
}

impl Marks {
    /// No marks.
    pub fn new(alloc: Global) -> Marks
        ensures { result.items ≡ [] }
    {
        Marks {
            numbers: Vec::new(alloc),
            gone: 0,
        }
    }

    /// A copy, with a place for the mark of each of so many entries.
    pub fn copied(&self, alloc: Global, count: usize) -> Result<Marks, NoMemory>
        requires { length self.now.items ≤ count }
        ensures items { IfOk result (λ copy. copy.items ≡ self.now.items) }
        ensures spots { IfOk result (λ copy. count ≤ copy.spots) }
    {
        let mut numbers = Vec::from_slice(alloc, self.as_slice())?;
        numbers.reserve(count - numbers.len())?;
        Ok(Marks { numbers, gone: 0 })
    }

    /// The marks, rising.
    pub fn as_slice(&self) -> &[u64]
        ensures { result.now ≡ self.now.items }
    {
        left(&self.numbers, self.gone)
    }

    /// How many there are.
    pub fn len(&self) -> usize
        ensures { result ≡ length self.now.items }
    {
        self.numbers.len() - self.gone
    }

    /// Makes places for one more than so many, for which there are places already.
    pub fn reserve(&mut self, count: usize) -> Result<(), NoMemory>
        requires few { length self.old.items ≤ count }
        requires within { count ≤ self.old.spots }
        ensures items { self.new.items ≡ self.old.items }
        ensures spots { self.old.spots ≤ self.new.spots }
        ensures ok { OnOk result (count < self.new.spots) }
    {
        let more = count - self.len() + 1;
        self.numbers.reserve(more)?;
        Ok(())
    }

    /// Puts a mark in, if it isn't there yet, where there is a place for it.
    pub fn put(&mut self, number: u64)
        requires rising { Rises self.old.items }
        requires fits { length (with_number number self.old.items) ≤ self.old.spots }
        ensures items { self.new.items ≡ with_number number self.old.items }
        ensures spots { self.old.spots ≤ self.new.spots }
    {
        self.gone = put_among(&mut self.numbers, self.gone, number);
    }

    /// Takes out the marks below this one.
    pub fn drop_below(&mut self, place: u64)
        requires { Rises self.old.items }
        ensures each { (q : ℕ) → is_marked q self.new.items ≡ (not (nat_lt q place) && is_marked q self.old.items) }
        ensures marks { (count : ℕ) → AreMarks count self.old.items → AreMarks count self.new.items }
        ensures spots { self.old.spots ≤ self.new.spots }
    {
        let (below, _) = seek_number(self.as_slice(), place);
        let gone = close_up(&mut self.numbers, self.gone + below);
        self.gone = gone;
    }

    // Moves the marks from a place on by one.
    fn shift(&mut self, place: u64)
        requires { AreMarks 100000 self.old.items }
        ensures items { self.new.items ≡ map (shifted place) self.old.items }
        ensures spots { self.old.spots ≤ self.new.spots }
    {
        drop_front(&mut self.numbers, self.gone);
        self.gone = 0;
        shift_marks(&mut self.numbers, place);
    }

    /// Moves the marks from a place on by one, for something that comes to stand there, marked or not, among so many.
    pub fn insert(&mut self, place: u64, marked: bool, count: usize)
        requires marks { AreMarks count self.old.items }
        requires within { place ≤ count }
        requires few { count < 100000 }
        requires room { count < self.old.spots }
        ensures marks { AreMarks (count + 1) self.new.items }
        ensures here { is_marked place self.new.items ≡ marked }
        ensures before { (q : ℕ) → q < place → is_marked q self.new.items ≡ is_marked q self.old.items }
        ensures behind { (q : ℕ) → place ≤ q → is_marked (q + 1) self.new.items ≡ is_marked q self.old.items }
        ensures spots { self.old.spots ≤ self.new.spots }
    {
        self.shift(place);
        if marked {
            self.put(place);
        }
    }

    // Moves all marks down by so many.
    fn lower(&mut self, n: u64)
        ensures items { self.new.items ≡ map (lowered n) self.old.items }
        ensures spots { self.old.spots ≤ self.new.spots }
    {
        drop_front(&mut self.numbers, self.gone);
        self.gone = 0;
        lower_marks(&mut self.numbers, n);
    }

    /// Takes out the marks of the `n` first places, of `count` in all, and moves the others down by `n`.
    pub fn fold(&mut self, n: u64, count: usize)
        requires marks { AreMarks count self.old.items }
        requires within { n ≤ count }
        ensures marks { AreMarks (count - n) self.new.items }
        ensures each { (q : ℕ) → is_marked q self.new.items ≡ is_marked (n + q) self.old.items }
        ensures spots { self.old.spots ≤ self.new.spots }
    {
        self.drop_below(n);
        self.lower(n);
    }
}
