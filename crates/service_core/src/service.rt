// A service, and its events.
ghost use Rattle.std.specs.Prelude.{◌≡◌, false, IfOk, MatchOption, Ok, OnOk, Some, IfSome, IsSome, IsSomeAnd, length, map};
ghost use Rattle.call_registers.specs.Registers.{IsTimely};
ghost use Rattle.request_log.specs.Folded.{as_entry, whole};
ghost use Rattle.local_repair.specs.Current.{AllCurrent, rows_after};
ghost use Rattle.local_repair.specs.Repairs.{IsStaleId};
ghost use Rattle.service_events.specs.State.{after, answers, flight_of, folded, fresh, base, unfolded};
ghost use Rattle.service_events.specs.Arriving.{abandon_event, arrive_event, call_answered_event, call_failed_event, live_answer_rows, new_flight, told};
ghost use Rattle.service_events.specs.Ages.{GoesFirst, HasAges};
ghost use Rattle.service_events.specs.Allowed.{IsAllowed};
ghost use Rattle.service_events.specs.Calls.{noted};
ghost use Rattle.service_events.specs.Causes.{causes, AddsCauses, TellsAnswered, TellsFailed};
ghost use Rattle.service_events.specs.Commits.{live_rows, Commits, CommitsFlight};
ghost use Rattle.service_events.specs.Fits.{Fits};
ghost use Rattle.service_events.specs.Progress.{Counts, GoesFurther, IsLocalStep};
ghost use Rattle.service_events.specs.RunsOn.{Begins, GoesOnTo, IsStep};
ghost use Rattle.service_core.specs.Answers.{Answers};
ghost use Rattle.service_core.specs.Past.{EventKeeps, OrderKeeps};
ghost use Rattle.service_core.specs.Programs.{programs_in_use};
ghost use Rattle.service_core.specs.Readings.{awaited_by, first_stale, AreReplayed, IsReplayedBefore};
ghost use Rattle.service_events.specs.Event.{Happens, IsFailure, MayHappen};
ghost use Rattle.service_events.specs.Doing.{answer_memory, arrive_memory, call_memory, give_memory, order_memory, post_memory, take_memory, Does};
ghost use Rattle.journal_rows.specs.Words.{ordered};
ghost use Rattle.service_events.specs.Messages.{give_event, take_event, take_token_event, posted_event};
ghost use Rattle.service_events.specs.Orders.{order_event};
ghost use Rattle.service_events.specs.Posts.{next_post, write_post};
ghost use Rattle.service_posts.specs.Goes.{GoesTo};
ghost use Rattle.service_repairs.specs.Answers.{answered_by, Steps};

use crate::copying::copied_parts;
use crate::programs::{ProgramInUse, programs_in_use};
use crate::starting::{first_program, first_rules};
use authorise_rules::GivenRules;
use call_registers::{Registers, Replies, Why};
use flights::Flights;
use journal_rows::{Command, Rows};
use lang_core::{
    Cells, Copied, Inputs, Name, NoMemory, Origin, Request, Seq, Setting, Shared, Text,
};
use lang_programs::Deployed;
use local_repair::{Repairer, Stepped};
use repair_messages::{AnswerMessage, Fetch, Post, PostName, SetMessage, TokenMessage};
use request_log::Log;
use service_deliveries::{give, posted, take, take_token};
use service_events::{
    AnswerRefused, ArriveRefused, Arrived, CallRefused, Done, Event, GiveRefused, Heard,
    OrderRefused, Ordered, PostRefused, PostReply, Posted, TakeRefused, Taken,
};
use service_parts::Parts;
use service_posts::{next_post, write_post};
use service_repairs::{first_stale, order, repair_step};
use service_requests::{abandon, arrive, call_answered, call_failed};
use std::alloc::Global;
use std::marker::Model;

/// A service whose requests call other services: its setting, the rules by which it allows repairs, the program under which
/// what comes runs, its log under repair, its flights, its journal, its registers and its replies. Its type keeps that all of
/// them fit the journal, that each repair in the journal was allowed, that there are at most 100,000 flights and entries that
/// aren't folded, and that there is room to abandon each flight.
pub struct Service {
    parts: Parts,
    // Of the first entries that aren't folded so many are known to be current. A repair step doesn't look at them again, and notes how many
    // are it then; every other event may change an answer that one of them consumed, and forgets it.
    checked: usize,
}

impl Drop for Service {
    fn drop(self) {
        let Self {
            parts: _,
            checked: _,
        } = self;
    }
}

impl Model for Service {
    ghost use Rattle.service_events.specs.State.{Kept, kept_code};
    ghost use Rattle.service_parts.specs.Parts.{kept};
    ghost use Rattle.service_parts.specs.Services.{IsService};
    ghost use Rattle.service_repairs.specs.Answers.{IsChecked};

    ghost Value = { Kept };

    ghost coded = { kept_code };

    ghost view = { λ s. kept s.parts };

    ghost invariant = { λ s. IsService s.parts × IsChecked (kept s.parts) s.checked };
}

impl Service {
    /// A service that has answered nothing yet, which allows repairs by these rules. Its setting's program has number 1.
    pub fn new(alloc: Global, setting: Setting, rules: GivenRules) -> Result<Service, NoMemory>
        ensures { IfOk result (λ service. service ≡ fresh setting rules) }
    {
        let newest = first_program(alloc, &setting)?;
        let (began, rules) = first_rules(alloc, rules)?;
        let parts = Parts {
            setting,
            began,
            rules,
            newest,
            repairer: Repairer::new(alloc),
            flights: Flights::new(alloc),
            journal: Rows::new(alloc),
            registers: Registers::new(alloc),
            replies: Replies::new(alloc),
        };
        Ok(Service { parts, checked: 0 })
    }

    /// What it is set to do. The program in it has number 1.
    pub fn setting(&self) -> &Setting
        ensures { result.now ≡ self.now.setting }
    {
        &self.parts.setting
    }

    /// The rules with which it began.
    pub fn began(&self) -> &GivenRules
        ensures { result.now ≡ self.now.began }
    {
        self.parts.began.get()
    }

    /// The rules by which it allows repairs: the last that an order gave, or those with which it began.
    pub fn rules(&self) -> &GivenRules
        ensures { result.now ≡ self.now.rules }
    {
        self.parts.rules.get()
    }

    /// The program under which what comes runs, with its number.
    pub fn newest(&self) -> &Shared<Deployed>
        ensures { result.now ≡ self.now.newest }
    {
        &self.parts.newest
    }

    /// The newest program, and each that an entry has that isn't folded, or a flight: by their numbers, with how many have them.
    pub fn programs(&self, alloc: Global) -> Result<Seq<ProgramInUse>, NoMemory>
        ensures { IfOk result (λ list. list ≡ programs_in_use self.now) }
    {
        programs_in_use(alloc, &self.parts)
    }

    /// Its log: the folded entries, which nothing repairs any more, and behind them the others.
    pub fn entries(&self) -> &Log
        ensures whole { whole result.now.folded result.now.entries ≡ self.now.entries }
        ensures entries { result.now.entries ≡ unfolded self.now }
        ensures folded { map as_entry result.now.folded ≡ folded self.now }
        ensures horizon { length result.now.folded ≡ self.now.horizon }
    {
        self.parts.repairer.log()
    }

    /// Its journal, which all that it keeps fits, and which tells since when each call and reply waits. Each repair in it was
    /// allowed: it carries the number of the rule that allowed it, as things stood before it.
    pub fn journal(&self) -> &Rows
        ensures rows { result.now.rows ≡ self.now.journal }
        ensures fits { Fits self.now }
        ensures allowed { IsAllowed self.now }
        ensures ages { HasAges self.now.journal self.now.registers self.now.replies }
    {
        &self.parts.journal
    }

    /// What it keeps of its own calls.
    pub fn registers(&self) -> &Registers
        ensures { result.now.list ≡ self.now.registers }
    {
        &self.parts.registers
    }

    /// The answers that it owes.
    pub fn replies(&self) -> &Replies
        ensures { result.now.list ≡ self.now.replies }
    {
        &self.parts.replies
    }

    /// Its live requests that wait for calls.
    pub fn flights(&self) -> &Flights
        ensures { result.now.list ≡ self.now.flights }
    {
        &self.parts.flights
    }

    /// The rows at the end of the log.
    pub fn rows(&self, alloc: Global) -> Result<Cells, NoMemory>
        ensures { IfOk result (λ rows. rows ≡ rows_after (base self.now) (unfolded self.now)) }
    {
        self.parts.repairer.rows(alloc)
    }

    /// The number of the call for which a flight waits; None exactly where there is no such flight.
    pub fn awaited(&self, flight: u64) -> Option<u64>
        ensures { result ≡ awaited_by flight self.now }
    {
        let waiting = self.parts.flights.find(flight)?;
        Some(waiting.awaited())
    }

    /// The number of the first stale entry; None exactly where no entry is stale, as a folded one never is. The entries before
    /// it, or all where none is stale, are the replay of their requests from empty rows on, the folded ones first.
    pub fn first_stale(&self) -> Option<u64>
        ensures first { MatchOption result
            (AllCurrent (answers self.now) (base self.now) (unfolded self.now))
            (λ id. IsStaleId (answers self.now) (base self.now) (unfolded self.now) id) }
        ensures test { result ≡ first_stale self.now }
        ensures replay { MatchOption result (AreReplayed self.now (unfolded self.now)) (λ id. IsReplayedBefore self.now id) }
    {
        first_stale(&self.parts, self.checked)
    }

    /// An event happens: the method of its name does it, and answers. `event` of the specification is the one function that
    /// says what is left and answered, and by the event's name its answer says what the method promises. For want of memory
    /// nothing changed. No event changes a folded entry, and one that folds leaves all that is read of the service as it was.
    pub fn event(&mut self, alloc: Global, event: Event) -> Done
        requires may { MayHappen self.old event }
        ensures happens { Happens event self.old result self.new }
        ensures answers { Answers self.old event result self.new }
        ensures past { EventKeeps event self.old self.new }
    {
        // Asked for what it promises alone: all that the service keeps fits the journal.
        let _fits = self.journal();
        self.happen(alloc, event)
    }

    // The method of an event's name does it, and answers.
    fn happen(&mut self, alloc: Global, event: Event) -> Done
        requires may { MayHappen self.old event }
        ensures happens { Happens event self.old result self.new }
        ensures answers { Answers self.old event result self.new }
    {
        match event {
            Event::Arrive {
                origin,
                request,
                inputs,
            } => Done::Arrive(self.arrive(alloc, origin, request, inputs)),
            Event::CallAnswered { flight, answer } => {
                Done::CallAnswered(self.call_answered(alloc, flight, &answer))
            }
            Event::CallFailed {
                flight,
                number,
                why,
            } => Done::CallFailed(self.call_failed(alloc, flight, number, why)),
            Event::Abandon { flight } => Done::Abandon(self.abandon(flight)),
            Event::Take { set, inputs } => Done::Take(self.take(alloc, &set, inputs)),
            Event::TakeToken { token } => Done::TakeToken(self.take_token(alloc, &token)),
            Event::Give { fetch } => Done::Give(self.give(alloc, &fetch)),
            Event::NextPost { dest } => Done::NextPost(self.next_post(&dest)),
            Event::WritePost { name } => Done::WritePost(self.write_post(alloc, name)),
            Event::Posted { post, reply } => Done::Posted(self.posted(alloc, &post, reply)),
            Event::Step => Done::Step(self.repair_step(alloc)),
            Event::Order {
                command,
                token,
                who,
                inputs,
            } => Done::Order(self.order(alloc, command, token, who, inputs)),
        }
    }

    /// A live request arrives. It runs, and is committed or waits for a call; or it is a call that has an entry. It is
    /// refused where it is a call in flight, one that was deleted or one whose entry never ran, and where there is too
    /// much. What is committed is this request, under the newest program, the number and the index that are told.
    pub fn arrive(
        &mut self,
        alloc: Global,
        origin: Origin,
        request: Request,
        inputs: Inputs,
    ) -> Result<Arrived, ArriveRefused>
        ensures does { Does arrive_memory (arrive_event self.old origin request inputs) self.old result self.new }
        ensures commits { Commits origin request inputs self.old.newest self.old result self.new }
        ensures goes { IfOk result (λ arrived. Begins self.old (new_flight self.old origin request inputs) arrived self.new) }
        ensures told { OnOk result (AddsCauses (causes self.old) false self.new) }
    {
        self.checked = 0;
        arrive(alloc, &mut self.parts, origin, request, inputs)
    }

    /// The call for which a flight waits was answered: the flight goes on, and where it is committed it is with the request
    /// and the inputs with which it arrived, under the program that it has. It is refused where the flight isn't there, or
    /// waits for another call or another version of it.
    pub fn call_answered(
        &mut self,
        alloc: Global,
        flight: u64,
        answer: &AnswerMessage,
    ) -> Result<Arrived, CallRefused>
        ensures does { Does call_memory (call_answered_event self.old flight answer.now) self.old result self.new }
        ensures commits { CommitsFlight flight self.old result self.new }
        ensures goes { IfOk result (λ arrived. IsSomeAnd (flight_of flight self.old)
            (λ f. GoesOnTo (noted (live_answer_rows self.old answer.now) self.old) f (after self.new arrived))) }
        ensures told { TellsAnswered flight answer.now self.old result self.new }
    {
        self.checked = 0;
        call_answered(alloc, &mut self.parts, flight, answer)
    }

    /// The call of this number, for which a flight waits, got no answer, as its exchange was lost or refused: the flight goes
    /// on without one. It is refused where the flight isn't there or waits for another call.
    pub fn call_failed(
        &mut self,
        alloc: Global,
        flight: u64,
        number: u64,
        why: Why,
    ) -> Result<Arrived, CallRefused>
        requires { IsFailure why }
        ensures does { Does call_memory (call_failed_event self.old flight number why) self.old result self.new }
        ensures commits { CommitsFlight flight self.old result self.new }
        ensures goes { IfOk result (λ arrived. IsSomeAnd (flight_of flight self.old)
            (λ f. GoesOnTo (told number why self.old) f (after self.new arrived))) }
        ensures told { TellsFailed flight number why self.old result self.new }
    {
        self.checked = 0;
        call_failed(alloc, &mut self.parts, flight, number, why)
    }

    /// The flight of this number is gone, and its calls are to have no effect; false exactly where there is none, and then
    /// nothing changes. It takes no memory: room for its rows was made when its calls were named.
    pub fn abandon(&mut self, flight: u64) -> bool
        ensures does { after self.new result ≡ abandon_event self.old flight }
        ensures silent { live_rows self.new.journal ≡ live_rows self.old.journal }
        ensures told { AddsCauses (causes self.old) false self.new }
    {
        self.checked = 0;
        abandon(&mut self.parts, flight)
    }

    /// Runs the first stale entry again, if there is one, and settles its calls. Where none is stale the answer is Idle, which
    /// takes no memory. Where no answer is held for a later version of a call than its register's, the next stale entry stands
    /// later: as many steps as there are entries that aren't folded, with no event between, leave none stale.
    pub fn repair_step(&mut self, alloc: Global) -> Result<Stepped, NoMemory>
        ensures steps { Steps self.old result self.new }
        ensures again { IfOk result (λ stepped. IsStep self.old stepped self.new) }
        ensures free { AllCurrent (answers self.old) (base self.old) (unfolded self.old) → result ≡ Ok Stepped.Idle }
        ensures local { IfOk result (λ stepped. IsLocalStep self.old stepped self.new) }
        ensures once { IfOk result (λ stepped. Counts self.old stepped self.new) }
        ensures further { OnOk result (IsTimely self.old.registers → GoesFurther self.old self.new) }
        ensures silent { live_rows self.new.journal ≡ live_rows self.old.journal }
        ensures told { AddsCauses (causes self.old) false self.new }
    {
        repair_step(alloc, &mut self.parts, &mut self.checked)
    }

    /// Carries out an order of an operator. An order whose token was accepted before is answered as then, without memory, and
    /// changes nothing. It is refused where it names what isn't there or is folded, replaces a request of another service, retries
    /// a post that isn't held, would fold an entry that is stale, owes its reply or has a call that isn't done with, corrects a
    /// program that isn't there, or where there is too much; and last, with the number of the rule, where the service's rules deny
    /// it. What was folded stays as it is, and a fold leaves all that is read, replayed or audited as it was; a program or rules
    /// from now on leave every entry as it is, and none stale that wasn't. Once a program stands in the place of another one,
    /// exactly those entries are stale whose record's handler isn't that of their program now, and those that another cause makes
    /// stale, as before it.
    pub fn order(
        &mut self,
        alloc: Global,
        command: Command,
        token: Text,
        who: Text,
        inputs: Inputs,
    ) -> Result<Ordered, OrderRefused>
        ensures does { Does order_memory (order_event self.old command token who inputs) self.old result self.new }
        ensures repeated { IfSome (answered_by (ordered token self.old.journal)) (λ answer. result ≡ Ok answer) }
        ensures past { OrderKeeps command self.old self.new }
        ensures silent { live_rows self.new.journal ≡ live_rows self.old.journal }
        ensures told { AddsCauses (causes self.old) false self.new }
    {
        self.checked = 0;
        order(alloc, &mut self.parts, command, token, who, inputs)
    }

    /// A version of another service's call came by a message. It is refused where that call is in flight, and where there is
    /// too much. One that isn't above the version that was taken is acknowledged again. Any other is refused with the entry's
    /// number where its call's entry is folded, and with the number of the rule where the service's rules deny it; else it is
    /// taken, and where its call has no entry and asks something, one is made, which never ran.
    pub fn take(
        &mut self,
        alloc: Global,
        set: &SetMessage,
        inputs: Inputs,
    ) -> Result<Taken, TakeRefused>
        ensures does { Does take_memory (take_event self.old set.now inputs) self.old result self.new }
        ensures silent { live_rows self.new.journal ≡ live_rows self.old.journal }
        ensures told { AddsCauses (causes self.old) false self.new }
    {
        self.checked = 0;
        take(alloc, &mut self.parts, set, inputs)
    }

    /// A token came, which announces an answer to one of its calls. It is refused where no call to that service has its number.
    /// One that isn't above the answer that is held, or the one that was noted, is confirmed again. Any other is refused where its
    /// call is one of a folded entry, and with the number of the rule where the service's rules deny it; else it is noted, so that
    /// the answer is fetched, and confirmed.
    pub fn take_token(
        &mut self,
        alloc: Global,
        token: &TokenMessage,
    ) -> Result<Heard, AnswerRefused>
        ensures does { Does answer_memory (take_token_event self.old token.now) self.old result self.new }
        ensures silent { live_rows self.new.journal ≡ live_rows self.old.journal }
        ensures told { AddsCauses (causes self.old) false self.new }
    {
        self.checked = 0;
        take_token(alloc, &mut self.parts, token)
    }

    /// Another service asks for an answer to one of its calls: it is given as it was made, whatever was answered since. It is
    /// refused where the call has no answer of that version. Nothing changes.
    pub fn give(&self, alloc: Global, fetch: &Fetch) -> Result<AnswerMessage, GiveRefused>
        ensures { Does give_memory (give_event self.now fetch.now) self.now result self.now }
    {
        give(alloc, &self.parts, fetch)
    }

    /// Something came back of a post. It is noted where the post was acknowledged or confirmed, and an answer that was fetched is
    /// held where it is above the one that is held; a refusal that the receiver's rules, its want of knowledge or its horizon
    /// give holds the post, where its version is the current one and it is no fetch; else the post is left as it is. It is
    /// refused where the service never had that post at that version, or the reply is to another one.
    pub fn posted(
        &mut self,
        alloc: Global,
        post: &Post,
        reply: PostReply,
    ) -> Result<Posted, PostRefused>
        ensures does { Does post_memory (posted_event self.old post.now reply) self.old result self.new }
        ensures silent { live_rows self.new.journal ≡ live_rows self.old.journal }
        ensures told { AddsCauses (causes self.old) false self.new }
    {
        self.checked = 0;
        posted(alloc, &mut self.parts, post, reply)
    }

    /// The post that goes to another service next: the oldest that is outstanding; None exactly where none is. It is the one
    /// that waits since the earliest row of the journal: a call since its last version was sent, a reply since it was last
    /// marked, a fetch since the token that announced its answer was noted. It has a message, which goes there.
    pub fn next_post(&self, dest: &Name) -> Option<PostName>
        ensures next { result ≡ next_post dest.now self.now }
        ensures first { IfSome result (λ name. GoesFirst dest.now self.now name) }
        ensures goes { IfSome result (λ name. IsSomeAnd (write_post self.now name) (GoesTo dest.now)) }
    {
        next_post(&self.parts, dest)
    }

    /// The message of a post as it is now, of which there is one: that of a call of this number, the token of the last answer of
    /// an entry of this number that has a reply, or the fetch of the last answer that was announced to a call of this number. A
    /// call of version 1 names its neighbours among the wanted calls to the same service, in logged order.
    pub fn write_post(&self, alloc: Global, name: PostName) -> Result<Post, NoMemory>
        requires { IsSome (write_post self.now name) }
        ensures { IfOk result (λ post. write_post self.now name ≡ Some post) }
    {
        write_post(alloc, &self.parts, name)
    }
}

impl Copied for Service {
    fn copied(&self, alloc: Global) -> Result<Service, NoMemory> {
        let parts = copied_parts(alloc, &self.parts)?;
        // What is known of the entries isn't copied.
        let checked = 0;
        Ok(Service { parts, checked })
    }
}
