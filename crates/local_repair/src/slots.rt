// What a repair needs of a service's registers.
ghost use Rattle.std.specs.Prelude.{◌≡◌, ◌≤◌, ℕ, Bool, List, Contains, map, length, IfOk, OnErr};
ghost use Rattle.std.specs.Option.{option_copied};
ghost use Rattle.lang_core.specs.declared.request.Response.{Response};
ghost use Rattle.lang_core.specs.declared.trace.Trace.{Trace};
ghost use Rattle.request_log.specs.declared.entry.Entry.{Entry};
ghost use Rattle.local_repair.specs.Settling.{HasItsSlots, HasSlotsOnce, CallsNone};
ghost use Rattle.local_repair.specs.Steps.{tentative, answer_or_tentative, answers_for, calls_of_made, IsFreshOr, StandOnce};

use lang_core::{NoMemory, Response, Seq, Trace};
use request_log::{Entry, Numbers};
use std::alloc::Global;

/// The registers of a service, each of which holds the answer of one call under a number.
pub trait Slots {
    /// The answer that each number consumes now.
    ghost consumed_of: { Self → ℕ → Response };

    /// The last number that was given.
    ghost last_of: { Self → ℕ };

    /// What a run of an entry may come to, so that its calls can be settled.
    ghost can_settle: { Self → Entry → Trace → Type 0 };

    /// No answer is held for a later request than its register's.
    ghost is_timely: { Self → Type 0 };

    /// How calls are settled: the registers before and after, the entry as it was, its new trace, whether its answer is
    /// new, and the numbers of its calls.
    ghost settles: { Self → Self → Entry → Trace → Bool → List ℕ → Type 0 };

    /// The answer of a number; None where it has none yet, so that a call under it gets the tentative one.
    fn consumed(&self, number: u64) -> Option<&Response>
        ensures { answer_or_tentative (option_copied result) ≡ consumed_of self.now number };

    /// Settles the calls of an entry's new trace, whose answers are those of its old calls, and gives a number for
    /// each, in order. `answered` tells whether the entry has a new answer. In timely registers these numbers then consume
    /// the trace's answers; in others an answer may be held that now counts. Refused, nothing changes.
    fn settle(
        &mut self,
        alloc: Global,
        entry: &Entry,
        trace: &Trace,
        answered: bool,
    ) -> Result<Numbers, NoMemory>
        requires answers { trace.now.answers ≡ answers_for (consumed_of self.old) (calls_of_made entry.now.made) entry.now.slots trace.now.calls }
        requires own { HasItsSlots entry.now }
        requires once { HasSlotsOnce entry.now }
        requires can { can_settle self.old entry.now trace.now }
        ensures how { IfOk result (λ slots. settles self.old self.new entry.now trace.now answered slots) }
        ensures count { IfOk result (λ slots. length slots ≡ length trace.now.answers) }
        ensures slots { is_timely self.old → IfOk result (λ slots. map (consumed_of self.new) slots ≡ trace.now.answers) }
        ensures timely { is_timely self.old → is_timely self.new }
        ensures others { (n : ℕ) → n ≤ last_of self.old → (Contains entry.now.slots n → ⊥) → consumed_of self.new n ≡ consumed_of self.old n }
        ensures fresh { IfOk result (λ slots. (n : ℕ) → Contains slots n → IsFreshOr entry.now.slots (last_of self.old) (last_of self.new) n) }
        ensures once { IfOk result (λ slots. StandOnce slots) }
        ensures last { last_of self.old ≤ last_of self.new }
        ensures err { OnErr result (self.new ≡ self.old) };
}
