ghost use Rattle.std.specs.Prelude.{◌≡◌, ◌↔◌, ◌&&◌, ◌+◌, ◌<◌, ◌≤◌, ◌^◌, ◌∷◌, [], ℕ, All, IfOk, IfSome, IsTrue, Some, map, option_map, true};
ghost use Rattle.std.specs.Option.{ForSome};
ghost use Rattle.writer_state.specs.declared.said.Said.TheVariants.{Lost, Ok as SaidOk};
ghost use Rattle.writer_state.specs.WriterState.{is_ok};
ghost use Rattle.set_agenda.specs.Advance.{are_distinct, by_writer, unspoken};
ghost use Rattle.set_agenda.specs.WriterSet.{writers};
ghost use Rattle.set_agenda.specs.Agenda.{all_say, groups_left, is_asked, is_asking, is_freeze, is_frozen, is_thaw, is_working, next_member, open_place, waits_now, Agenda as AgendaWithLog};
ghost use Rattle.set_agenda.specs.Limits.{running_limits, spent_of, ticks_to_spend};
ghost use Rattle.tick_limits.specs.Time.{answer_limit};
ghost use Rattle.coordinator.specs.RunningAgenda.{NoneAfter, running_since, sooner, spent_since, until_since, Fits, entered, freeze_opened_after, held_after, opened_after, taken_if};

use crate::codes::{
    answer_runs, freeze_runs, hold_runs, is_freeze, is_hold, is_prepare_snapshot, is_same_place,
    is_snapshot, is_thaw,
};
use set_agenda::{Agenda, Kind, Limit, Member, Place, WriterSet};
use std::alloc::Global;
use tick_limits::{ANSWER_LIMIT, HOLD_LIMIT, is_spent, ticks_until};
use vss_names::OutOfMemory;
use writer_state::Said;

/// An agenda that runs.
#[derive(Drop)]
pub struct RunningAgenda {
    pub kind: Kind,
    pub agenda: Agenda,
    /// The writers that have carried Freeze out.
    pub froze: WriterSet,
    /// The writers that have answered Thaw, or were lost at it.
    pub thawed: WriterSet,
    /// When the open group opened.
    pub opened: u64,
    /// When the first Freeze group opened; before that, when the agenda began.
    pub freeze_opened: u64,
    /// When the first Hold step was made.
    pub held: Option<u64>,
}

impl RunningAgenda {
    /// An agenda that begins at the tick `now`.
    pub fn new(
        alloc: Global,
        kind: Kind,
        members: &[Member],
        volumes: &[u32],
        now: u64,
    ) -> Result<RunningAgenda, OutOfMemory>
        requires writers { All (λ m. m.writer < 64) members.now }
        requires no_writer_twice { are_distinct (map (λ m. m.writer) members.now) ≡ true }
        requires no_volume_twice { are_distinct volumes.now ≡ true }
        ensures fits { IfOk result (λ r. Fits r (unspoken kind (by_writer members.now) volumes.now now)) }
        ensures times { IfOk result (λ r. NoneAfter now r) }
    {
        let agenda = Agenda::new(alloc, kind, members, volumes)?;
        Ok(RunningAgenda {
            kind,
            agenda,
            froze: WriterSet::new(),
            thawed: WriterSet::new(),
            opened: now,
            freeze_opened: now,
            held: None,
        })
    }

    /// The writer says this to its open order.
    pub fn hear(&mut self, writer: u32, said: Said, now: u64)
        requires small { writer < 64 }
        requires open { is_asked writer self.old.agenda ≡ true }
        ensures fits { (a : AgendaWithLog) → Fits self.old a → Fits self.new (all_say said now (writer ∷ []) a) }
        ensures times { NoneAfter now self.old → NoneAfter now self.new }
    {
        let place = self.agenda.place();
        let ok = said.is_ok();
        self.agenda.close_writer(writer, !ok);
        self.enter(place, ok, &WriterSet::of(writer));
        self.keep_times(place, now);
    }

    /// All writers with an open order are lost.
    pub fn lose(&mut self, now: u64)
        requires { is_asking self.old.agenda ≡ true }
        ensures fits { (a : AgendaWithLog) → Fits self.old a → Fits self.new (all_say Lost now (waits_now self.old.agenda) a) }
        ensures times { NoneAfter now self.old → NoneAfter now self.new }
    {
        let place = self.agenda.place();
        let writers = self.agenda.waited();
        self.agenda.lose();
        self.enter(place, false, &writers);
        self.keep_times(place, now);
    }

    /// The provider has made its next step.
    pub fn work(&mut self, now: u64)
        requires { is_working self.old.agenda ≡ true }
        ensures fits { (a : AgendaWithLog) → Fits self.old a → Fits self.new (all_say SaidOk now (next_member self.old.agenda ∷ []) a) }
        ensures times { NoneAfter now self.old → NoneAfter now self.new }
    {
        let place = self.agenda.place();
        self.agenda.close_step();
        self.keep_times(place, now);
    }

    /// Whether no time that is kept is after the tick `now`.
    pub fn is_by(&self, now: u64) -> bool
        ensures { IsTrue result ↔ NoneAfter now self.now }
    {
        if self.opened > now || self.freeze_opened > now {
            return false;
        }
        match self.held {
            None => true,
            Some(held) => held <= now,
        }
    }

    /// The writers that stand frozen.
    pub fn frozen(&self) -> WriterSet
        ensures { (a : AgendaWithLog) → Fits self.now a → result ≡ writers (is_frozen (Some a)) }
    {
        if is_snapshot(self.kind) {
            self.froze.minus(&self.thawed)
        } else {
            WriterSet::new()
        }
    }

    /// The limit that is spent at the tick `now`: the first of them in the order hold, freeze, answer. The freeze
    /// limit is the set's, in ticks.
    pub fn spent(&self, freeze_limit: u32, now: u64) -> Option<Limit>
        requires { NoneAfter now self.now }
        ensures { (a : AgendaWithLog) → Fits self.now a → result ≡ option_map (λ l. l.limit) (spent_of now (running_limits freeze_limit (Some a))) }
    {
        if is_spent_since(self.since(Limit::Hold), HOLD_LIMIT, now) {
            Some(Limit::Hold)
        } else if is_spent_since(self.since(Limit::Freeze), u64::from(freeze_limit), now) {
            Some(Limit::Freeze)
        } else if is_spent_since(self.since(Limit::Answer), ANSWER_LIMIT, now) {
            Some(Limit::Answer)
        } else {
            None
        }
    }

    /// The least number of ticks, counted from the tick `now`, after which a limit is spent: 0 where one is spent at
    /// `now`, or where none runs, as of an agenda that is done. The freeze limit is the set's, in ticks.
    pub fn until_limit(&self, freeze_limit: u32, now: u64) -> u64
        requires { NoneAfter now self.now }
        ensures ticks { (a : AgendaWithLog) → Fits self.now a → result ≡ ticks_to_spend now (running_limits freeze_limit (Some a)) }
        ensures most { freeze_limit ≤ answer_limit → result ≤ answer_limit + 1 }
    {
        let hold = until_since(self.since(Limit::Hold), HOLD_LIMIT, now);
        let freeze = until_since(self.since(Limit::Freeze), u64::from(freeze_limit), now);
        let answer = until_since(self.since(Limit::Answer), ANSWER_LIMIT, now);
        sooner(sooner(hold, freeze), answer).unwrap_or(0)
    }

    /// Since when the limit runs, where it runs.
    fn since(&self, limit: Limit) -> Option<u64>
        ensures { result ≡ running_since limit self.now }
    {
        let Some(group) = self.agenda.open_group() else {
            return None;
        };
        let runs = match limit {
            Limit::Hold => hold_runs(group),
            Limit::Freeze => freeze_runs(group),
            Limit::Answer => answer_runs(group),
        };
        if !runs {
            return None;
        }
        match limit {
            Limit::Hold => self.held,
            Limit::Freeze => Some(self.freeze_opened),
            Limit::Answer => Some(self.opened),
        }
    }

    /// These said something at the place, an ok or not.
    fn enter(&mut self, place: Place, ok: bool, writers: &WriterSet)
        ensures froze { self.new.froze ≡ entered (taken_if (is_freeze place.group && ok) writers.now) self.old.froze }
        ensures thawed { self.new.thawed ≡ entered (taken_if (is_thaw place.group) writers.now) self.old.thawed }
        ensures others { self.new ≡ record self.old { froze = self.new.froze; thawed = self.new.thawed } }
    {
        let freezing = is_freeze(place.group) && ok;
        self.froze = self.froze.with(&taken_if(freezing, writers));
        self.thawed = self.thawed.with(&taken_if(is_thaw(place.group), writers));
    }

    /// Something was said at the place.
    fn keep_times(&mut self, place: Place, now: u64)
        ensures opened { self.new.opened ≡ opened_after place (open_place self.old.agenda) self.old.opened now }
        ensures freeze_opened { self.new.freeze_opened ≡ freeze_opened_after place self.old.freeze_opened now }
        ensures held { self.new.held ≡ held_after place self.old.held now }
        ensures others { self.new ≡ record self.old { opened = self.new.opened; freeze_opened = self.new.freeze_opened; held = self.new.held } }
    {
        if !is_same_place(place, self.agenda.place()) {
            self.opened = now;
        }
        if is_prepare_snapshot(place.group) {
            self.freeze_opened = now;
        }
        if is_hold(place.group) && self.held.is_none() {
            self.held = Some(now);
        }
    }
}

/// These writers, where it is so, and else none.
fn taken_if(really: bool, writers: &WriterSet) -> WriterSet
    ensures { result ≡ taken_if really writers.now }
{
    if really {
        writers.copied()
    } else {
        WriterSet::new()
    }
}

/// Whether a limit that runs since then, if it runs, is spent at the tick `now`.
fn is_spent_since(since: Option<u64>, limit: u64, now: u64) -> bool
    requires { ForSome since (λ t. t ≤ now) }
    ensures { result ≡ spent_since now since limit }
{
    match since {
        None => false,
        Some(since) => is_spent(now, since, limit),
    }
}

/// How many ticks from the tick `now` on spend a limit that runs since then, if it runs.
fn until_since(since: Option<u64>, limit: u64, now: u64) -> Option<u64>
    requires begun { ForSome since (λ t. t ≤ now) }
    requires limited { limit < 2 ^ 32 }
    ensures ticks { result ≡ until_since now since limit }
    ensures most { limit ≤ answer_limit → IfSome result (λ t. t ≤ answer_limit + 1) }
{
    match since {
        None => None,
        Some(since) => Some(ticks_until(now, since, limit)),
    }
}

/// The sooner of two, where there are two.
fn sooner(first: Option<u64>, second: Option<u64>) -> Option<u64>
    ensures value { result ≡ sooner first second }
    ensures most { (n : ℕ) → IfSome first (λ t. t ≤ n) → IfSome second (λ t. t ≤ n) → IfSome result (λ t. t ≤ n) }
{
    match (first, second) {
        (None, _) => second,
        (Some(_), None) => first,
        (Some(t), Some(u)) => Some(t.min(u)),
    }
}
