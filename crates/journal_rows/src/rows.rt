// The rows of a journal, in order.
ghost use Rattle.std.specs.Prelude.{◌≡◌, ◌+◌, ◌<◌, ◌≤◌, ◌^◌, [], ◌∷◌, ◌++◌, length, map, nat_eq, slice_get, slice_index, take, OnOk, OnErr, IfOk, IsOk};
ghost use Rattle.std.specs.Option.{option_copied};
ghost use Rattle.lang_lists.specs.Ends.{last_end};
ghost use Rattle.journal_rows.specs.Keys.{row_key};
ghost use Rattle.journal_rows.specs.Programs.{program_count};
ghost use Rattle.journal_rows.specs.Weights.{journal_weight};
ghost use Rattle.journal_rows.specs.Words.{given_at, last_taken, noted_at, ordered};

use crate::callee::{AnsweredRow, TookRow};
use crate::caller::NotedRow;
use crate::keys::row_key;
use crate::orders::OrderedRow;
use crate::programs::programs_after;
use crate::row::Row;
use crate::weights::weight;
use crate::{versions, words};
use lang_base::{both, copied_items};
use lang_core::{Name, NoMemory, Text};
use lang_lists::HashIndex;
use std::alloc::Global;
use std::marker::Model;

/// The rows of a journal in order, with spare room. They only grow. Its type tells that the rows there are and those that
/// still go in can be counted in 64 bits.
pub struct Rows {
    rows: Vec<Row>,
    // Of their keys.
    index: HashIndex,
    weight: u64,
    // How many there are.
    programs: u64,
}

impl Drop for Rows {
    fn drop(self) {
        let Self {
            rows: _,
            index: _,
            weight: _,
            programs: _,
        } = self;
    }
}

impl Model for Rows {
    ghost use Rattle.std.specs.Prelude.{◌≡◌};
    ghost use Rattle.journal_rows.specs.Journals.{Journal, journal_of};
    ghost use Rattle.journal_rows.specs.Keys.{AreKeys};
    ghost use Rattle.journal_rows.specs.Programs.{program_count};
    ghost use Rattle.journal_rows.specs.Weights.{journal_weight};
    ghost use Rattle.std.specs.Coded.{codes};
    ghost use Rattle.journal_rows.specs.contracts.row.Row as row;

    ghost Value = { Journal };

    ghost coded = { Prim.hlevel (codes, row.the_row.coded) };

    ghost view = { λ j. journal_of j.rows j.index.spare };

    ghost invariant = { λ j. (j.weight ≡ journal_weight j.rows.items) × AreKeys j.index.keys j.rows.items × (j.programs ≡ program_count j.rows.items) };
}

impl Rows {
    /// No rows.
    pub fn new(alloc: Global) -> Rows
        ensures { result.rows ≡ [] }
    {
        Rows {
            rows: Vec::new(alloc),
            index: HashIndex::new(alloc),
            weight: 0,
            programs: 1,
        }
    }

    /// The rows, in order.
    pub fn as_slice(&self) -> &[Row]
        ensures { result.now ≡ self.now.rows }
    {
        self.rows.as_slice()
    }

    /// How many rows there are.
    pub fn len(&self) -> u64
        ensures { result ≡ length self.now.rows }
    {
        self.rows.len() as u64
    }

    /// The row at a place, counted from 0; None exactly past the end.
    pub fn at(&self, place: u64) -> Option<&Row>
        ensures { option_copied result ≡ slice_get self.now.rows place }
    {
        self.rows.get(place as usize)
    }

    /// What the rows weigh together; the greatest number of 64 bits where none holds it.
    pub fn weight(&self) -> u64
        ensures { result ≡ journal_weight self.now.rows }
    {
        self.weight
    }

    /// How many programs there are: the one that the service began with, and one for each order that brought one.
    pub fn programs(&self) -> u64
        ensures exact { result ≡ program_count self.now.rows }
        // One more can be counted.
        ensures few { result + 1 < 2 ^ 64 }
    {
        self.programs
    }

    /// The last version of a caller's call that was taken; None exactly where none was. It costs with the rows of the
    /// call's key.
    pub fn last_taken(&self, caller: &Name, number: u64) -> Option<&TookRow>
        ensures { option_copied result ≡ last_taken caller.now number self.now.rows }
    {
        words::last_taken(&self.rows, &self.index, caller, number)
    }

    /// The order with a token; None exactly where none was accepted. It costs with the rows of the token's key.
    pub fn ordered(&self, token: &Text) -> Option<&OrderedRow>
        ensures { option_copied result ≡ ordered token.now self.now.rows }
    {
        words::ordered(&self.rows, &self.index, token)
    }

    /// The token that announced the answer of this version to an own call; None exactly where none was noted. It costs with
    /// the rows of the call's number.
    pub fn noted_at(&self, number: u64, answer_version: u64) -> Option<&NotedRow>
        ensures { option_copied result ≡ noted_at number answer_version self.now.rows }
    {
        versions::noted_at(&self.rows, &self.index, number, answer_version)
    }

    /// The answer of this version to a caller's call; None exactly where none was given. It costs with the rows of the call's
    /// key.
    pub fn given_at(&self, caller: &Name, number: u64, answer_version: u64) -> Option<&AnsweredRow>
        ensures { option_copied result ≡ given_at caller.now number answer_version self.now.rows }
    {
        versions::given_at(&self.rows, &self.index, caller, number, answer_version)
    }

    /// One past the place of the last row of a key; 0 where none has it.
    pub fn end_of(&self, key: u64) -> usize
        ensures { result ≡ last_end (nat_eq key) (map row_key self.now.rows) }
    {
        self.index.end_of(key)
    }

    /// One past the place of the last row before a place, counted from 0, that has the key of the row there; 0 where none
    /// has it.
    pub fn end_before(&self, place: usize) -> usize
        requires { place < length self.now.rows }
        ensures { result ≡ last_end (nat_eq (slice_index (map row_key self.now.rows) place)) (take place (map row_key self.now.rows)) }
    {
        self.index.end_before(place)
    }

    /// Makes room for so many rows more. Refused, there is as much as before, and the rows stay.
    pub fn reserve(&mut self, more: u64) -> Result<(), NoMemory>
        ensures rows { self.new.rows ≡ self.old.rows }
        ensures ok { OnOk result (more ≤ self.new.spare) }
        ensures spare { self.old.spare ≤ self.new.spare }
    {
        self.rows.reserve(more as usize)?;
        self.index.reserve(more as usize)
    }

    /// Puts a row last, which takes no memory where there is room. Refused, it is dropped and the rows stay.
    pub fn push(&mut self, row: Row) -> Result<(), NoMemory>
        ensures ok { OnOk result (self.new.rows ≡ self.old.rows ++ row ∷ []) }
        ensures err { OnErr result (self.new.rows ≡ self.old.rows) }
        ensures ready { 0 < self.old.spare → IsOk result }
        ensures spare { self.old.spare ≤ self.new.spare + 1 }
    {
        let more = weight(&row);
        let key = row_key(&row);
        let programs = programs_after(self.programs, &row);
        self.index.reserve(1)?;
        self.rows.push(row)?;
        self.index.push(key);
        self.weight = self.weight.saturating_add(more);
        self.programs = programs;
        Ok(())
    }

    /// Equal rows; nothing is said of their room.
    pub fn copied(&self, alloc: Global) -> Result<Rows, NoMemory>
        ensures { IfOk result (λ copy. copy.rows ≡ self.now.rows) }
    {
        let (rows, index) = both(copied_items(alloc, &self.rows), self.index.copied(alloc))?;
        Ok(Rows {
            rows,
            index,
            weight: self.weight,
            programs: self.programs,
        })
    }
}
