ghost use Rattle.std.specs.Prelude.{◌≡◌, ◌&&◌, ◌+◌, ◌<◌, ◌≤◌, ◌∷◌, [], ℕ, None, Some, length, not, option_map, is_some, true, IfOk, IfSome, OnErr, OnOk};
ghost use Rattle.writer_calls.specs.Mailbox.{answer_to};
ghost use Rattle.writer_state.specs.declared.said.Said.TheVariants.{Lost};
ghost use Rattle.writer_state.specs.WriterState.{is_ok};
ghost use Rattle.set_agenda.specs.Agenda.{Agenda, is_among, is_asked, is_asking, is_working, left, open_place, order_now, waits_now};
ghost use Rattle.set_agenda.specs.Course.{Course, answered_to, course_start, decided, error_of, failed, fails_set, freeze_limit, idle_ticks, is_decisive, is_member, limits_now, lost, lost_decided, members_from, outcome_after, posted, released, settled, stepped_as, told, worked};
ghost use Rattle.set_agenda.specs.Limits.{spent_of};
ghost use Rattle.set_agenda.specs.WriterSet.{writers};
ghost use Rattle.coordinator.specs.RunningAgenda.{Fits, NoneAfter};
ghost use Rattle.coordinator.specs.Beginning.{ready_for};
ghost use Rattle.tick_limits.specs.Time.{answer_limit, default_freeze};
ghost use Rattle.coordinator.specs.Coordinator.{failed_if_running, is_running};
ghost use Rattle.coordinator.specs.KeptCourse.{Follows, IsBy, IsSound, IsTaken, KeepsBoxes, KeepsRun, StandsFor, kind_if_done, least_if, least_limit, left_now, lost_by, ticks_if, treated_by};
ghost use Rattle.coordinator.specs.OpenOrders.{AreFit, AreReady, HasRoom, SentAtMost, refusal, standing_in};

use crate::posting::{close_all, post};
use crate::row_change::RowChange;
use crate::running_agenda::RunningAgenda;
use crate::writer_rows::WriterRows;
use set_agenda::{Kind, Limit, Place, WriterSet};
use std::alloc::Global;
use tick_limits::DEFAULT_FREEZE;
use vss_names::{MOST_WRITERS, Order, OutOfMemory, SetOutcome, VssResult, WriterError};
use writer_calls::{Answer, Mailboxes, StaleAnswer};
use writer_state::Said;

/// What is kept of a course.
#[derive(Drop)]
pub struct KeptCourse {
    pub rows: WriterRows,
    pub mailboxes: Mailboxes,
    /// The participants of the session's set.
    pub members: WriterSet,
    /// The writers that were named to be disabled in this session.
    pub disabled: WriterSet,
    pub running: Option<RunningAgenda>,
    pub outcome: SetOutcome,
}

impl KeptCourse {
    /// The set fails: its agenda stops, and its participants are told.
    pub fn fail_set(&mut self, why: VssResult)
        requires few { length self.old.rows ≤ 64 }
        ensures follows { (c : Course) → Follows self.old c → Follows self.new (failed why c) }
        ensures times { (now : ℕ) → IsBy now self.new.running }
        ensures live { kind_if_done self.new.running ≡ None }
        ensures keeps { KeepsBoxes self.old self.new }
    {
        self.rows.change_each(RowChange::Aborted, &self.members);
        self.running = None;
        self.outcome = SetOutcome::Failed(why);
    }

    /// Where the last group of the agenda is closed, it ends.
    fn settle(&mut self)
        ensures follows { (c : Course) → Follows self.old c → Follows self.new (settled c) }
        ensures times { (now : ℕ) → IsBy now self.old.running → IsBy now self.new.running }
        ensures live { kind_if_done self.new.running ≡ None }
        ensures keeps { KeepsBoxes self.old self.new }
    {
        if let Some(kind) = kind_if_done(&self.running) {
            self.outcome = outcome_after(kind, self.outcome);
            self.running = None;
        }
    }

    /// The writer says this to its open order.
    fn tell(&mut self, order: Order, said: Said, writer: u32, now: u64)
        requires few { length self.old.rows ≤ 64 }
        requires known { writer < length self.old.rows }
        requires open { is_asked writer (left_now self.old.running) ≡ true }
        ensures follows { (c : Course) → Follows self.old c → Follows self.new (told order said now (writer ∷ []) c) }
        ensures times { IsBy now self.old.running → IsBy now self.new.running }
        ensures keeps { KeepsBoxes self.old self.new }
    {
        if let Some(running) = &mut self.running {
            self.rows.change(RowChange::Told(order, said), writer);
            running.hear(writer, said, now);
        }
    }

    /// All writers with an open order are lost.
    fn lose(&mut self, order: Order, now: u64)
        requires few { length self.old.rows ≤ 64 }
        requires open { is_asking (left_now self.old.running) ≡ true }
        ensures follows { (c : Course) → Follows self.old c → Follows self.new (told order Lost now (waits_now (left_now self.old.running)) c) }
        ensures times { IsBy now self.old.running → IsBy now self.new.running }
        ensures keeps { KeepsBoxes self.old self.new }
    {
        if let Some(running) = &mut self.running {
            let writers = running.agenda.waited();
            self.rows
                .change_each(RowChange::Told(order, Said::Lost), &writers);
            running.lose(now);
        }
    }

    /// The provider has made its next step.
    fn work(&mut self, now: u64)
        requires working { is_working (left_now self.old.running) ≡ true }
        ensures follows { (c : Course) → Follows self.old c → Follows self.new (worked now c) }
        ensures times { IsBy now self.old.running → IsBy now self.new.running }
        ensures keeps { KeepsBoxes self.old self.new }
    {
        if let Some(running) = &mut self.running {
            running.work(now);
        }
    }

    /// What a writer said fails the set, or may have closed the last group.
    fn decide(&mut self, fails: bool, said: Said)
        requires few { length self.old.rows ≤ 64 }
        ensures follows { (c : Course) → Follows self.old c → Follows self.new (decided fails said c) }
        ensures times { (now : ℕ) → IsBy now self.old.running → IsBy now self.new.running }
        ensures live { kind_if_done self.new.running ≡ None }
        ensures keeps { KeepsBoxes self.old self.new }
    {
        if fails {
            self.fail_set(VssResult::Writer(error_of(said)));
        } else {
            self.settle();
        }
    }

    /// The writer answers this open order, with what follows.
    pub fn hear(&mut self, order: Order, writer: u32, said: Said, now: u64)
        requires few { length self.old.rows ≤ 64 }
        requires known { writer < length self.old.rows }
        requires open { is_asked writer (left_now self.old.running) ≡ true }
        ensures follows { (c : Course) → Follows self.old c → Follows self.new (answered_to (Some order) writer said now c) }
        ensures times { IsBy now self.old.running → IsBy now self.new.running }
        ensures live { kind_if_done self.new.running ≡ None }
        ensures keeps { KeepsBoxes self.old self.new }
    {
        self.tell(order, said, writer, now);
        self.decide(fails(order, said), said);
    }

    /// The provider makes its next step, or a device fails it.
    pub fn step(&mut self, ok: bool, now: u64)
        requires few { length self.old.rows ≤ 64 }
        requires working { is_working (left_now self.old.running) ≡ true }
        ensures follows { (c : Course) → Follows self.old c → Follows self.new (stepped_as ok now c) }
        ensures times { IsBy now self.old.running → IsBy now self.new.running }
        ensures live { kind_if_done self.new.running ≡ None }
        ensures keeps { KeepsBoxes self.old self.new }
    {
        if ok {
            self.work(now);
            self.settle();
        } else {
            self.fail_set(VssResult::UnexpectedProviderError);
        }
    }

    /// Each writer with an open order is lost, if one has an open order.
    fn lose_open(&mut self, now: u64)
        requires few { length self.old.rows ≤ 64 }
        ensures follows { (c : Course) → Follows self.old c → Follows self.new (lost now c) }
        ensures times { IsBy now self.old.running → IsBy now self.new.running }
        ensures keeps { KeepsBoxes self.old self.new }
    {
        if let Some(order) = open_order(&self.running) {
            self.lose(order, now);
        }
    }

    /// That nobody answered fails the set, or may have closed the last group.
    fn decide_lost(&mut self, fails: bool)
        requires few { length self.old.rows ≤ 64 }
        ensures follows { (c : Course) → Follows self.old c → Follows self.new (lost_decided fails c) }
        ensures times { (now : ℕ) → IsBy now self.old.running → IsBy now self.new.running }
        ensures live { kind_if_done self.new.running ≡ None }
        ensures keeps { KeepsBoxes self.old self.new }
    {
        if fails {
            self.fail_set(VssResult::WriterNotResponding);
        } else {
            self.settle();
        }
    }

    /// Treats a limit that is spent.
    pub fn treat(&mut self, limit: Option<Limit>, now: u64)
        requires few { length self.old.rows ≤ 64 }
        ensures follows { (c : Course) → Follows self.old c → Follows self.new (treated_by limit now c) }
        ensures times { IsBy now self.old.running → IsBy now self.new.running }
        ensures live { kind_if_done self.old.running ≡ None → kind_if_done self.new.running ≡ None }
        ensures keeps { KeepsBoxes self.old self.new }
    {
        match limit {
            None => {}
            Some(Limit::Hold) => self.fail_set(VssResult::HoldWritesTimeout),
            Some(Limit::Freeze) => {
                self.lose_open(now);
                self.fail_set(VssResult::Writer(WriterError::Timeout));
            }
            Some(Limit::Answer) => {
                let fails = fails_set(open_order(&self.running));
                self.lose_open(now);
                self.decide_lost(fails);
            }
        }
    }
}

impl KeptCourse {
    /// No writer is registered yet, and there is a mailbox for each of 64.
    pub fn new(alloc: Global) -> Result<KeptCourse, OutOfMemory>
        ensures stands { IfOk result (λ k. StandsFor k (course_start [])) }
        ensures rows { IfOk result (λ k. k.rows ≡ []) }
        ensures boxes { IfOk result (λ k. length k.mailboxes ≡ 64) }
        ensures rests { IfOk result (λ k. k.running ≡ None) }
        ensures sent { IfOk result (λ k. SentAtMost 0 k.mailboxes) }
    {
        let mailboxes = Mailboxes::new(alloc, MOST_WRITERS)?;
        Ok(KeptCourse {
            rows: WriterRows::new(alloc),
            mailboxes,
            members: WriterSet::new(),
            disabled: WriterSet::new(),
            running: None,
            outcome: SetOutcome::Running,
        })
    }

    /// The session ends, but for its orders.
    pub fn release(&mut self)
        ensures follows { (c : Course) → Follows self.old c → Follows self.new (released c) }
        ensures rests { self.new.running ≡ None }
        ensures keeps { KeepsBoxes self.old self.new }
    {
        self.rows.change_all(RowChange::Ended);
        self.members = WriterSet::new();
        self.disabled = WriterSet::new();
        self.running = None;
        self.outcome = SetOutcome::Running;
    }

    /// The course is made ready for an agenda of this kind that asks these writers.
    pub fn prepare_for(&mut self, kind: Kind, asked: WriterSet)
        ensures follows { (c : Course) → Follows self.old c → asked ≡ writers (is_member (members_from (λ w. is_among w asked) 0 c.rows))
            → Follows self.new (ready_for kind (members_from (λ w. is_among w asked) 0 c.rows) c) }
        ensures keeps { KeepsBoxes self.old self.new }
    {
        match kind {
            Kind::Gather => self.rows.change_all(RowChange::Gathered),
            Kind::Prepare => self.members = asked,
            Kind::Snapshot | Kind::Complete => {}
        }
    }

    /// The agenda begins; where it asks nobody, it ends at once.
    pub fn begin(&mut self, running: RunningAgenda)
        ensures follows { (c : Course) (a : Agenda) → Follows self.old c → Fits running a → Follows self.new (settled (record c { agenda = Some a })) }
        ensures times { (now : ℕ) → NoneAfter now running → IsBy now self.new.running }
        ensures live { kind_if_done self.new.running ≡ None }
        ensures keeps { KeepsBoxes self.old self.new }
    {
        self.running = Some(running);
        self.settle();
    }

    /// Takes the writer's answer to the order of this number, and gives that order.
    pub fn take(&mut self, writer: u32, number: u64, answer: Answer) -> Result<Order, StaleAnswer>
        requires sound { IsSound self.old }
        requires known { writer < length self.old.rows }
        ensures refused { (c : Course) → StandsFor self.old c → refusal result ≡ refusal (answer_to number (standing_in c writer)) }
        ensures unchanged { OnErr result (self.new ≡ self.old) }
        ensures asked { OnOk result (is_asked writer (left_now self.new.running) ≡ true) }
        ensures taken { IfOk result (λ order. (c : Course) → StandsFor self.old c → IsTaken order writer self.new c) }
        ensures keeps { KeepsRun self.old self.new }
        ensures boxes { length self.new.mailboxes ≡ length self.old.mailboxes }
        ensures sent { (n : ℕ) → SentAtMost n self.old.mailboxes → SentAtMost n self.new.mailboxes }
    {
        let standing = self.mailboxes.answer(writer, number, answer)?;
        Ok(standing.order)
    }

    /// Sends and closes orders after an act, before which the agenda stood at this place.
    pub fn post(&mut self, before: Place)
        requires boxes { length self.old.mailboxes ≡ 64 }
        requires room { HasRoom self.old.mailboxes }
        ensures stands { (c d : Course) → before ≡ open_place (left c.agenda) → Follows self.old d → d.opened ≡ c.opened
            → AreReady self.old.mailboxes (left c.agenda) (left d.agenda) c.opened → StandsFor self.new (posted c d) }
        ensures keeps { KeepsRun self.old self.new }
        ensures sent { (n : ℕ) → SentAtMost n self.old.mailboxes → SentAtMost (n + 1) self.new.mailboxes }
        ensures boxes { length self.new.mailboxes ≡ 64 }
    {
        post(&mut self.mailboxes, before, &self.running);
    }

    /// Closes all orders, where no agenda runs any more.
    pub fn close_orders(&mut self)
        requires boxes { length self.old.mailboxes ≡ 64 }
        ensures stands { (c d : Course) → AreFit self.old.mailboxes (left c.agenda) c.opened → left d.agenda ≡ [] → d.opened ≡ c.opened
            → Follows self.old d → StandsFor self.new d }
        ensures keeps { KeepsRun self.old self.new }
        ensures sent { (n : ℕ) → SentAtMost n self.old.mailboxes → SentAtMost n self.new.mailboxes }
        ensures boxes { length self.new.mailboxes ≡ 64 }
    {
        close_all(&mut self.mailboxes);
    }

    /// The set fails, with all its orders closed, if it is in progress.
    pub fn fail_if_running(&mut self, why: VssResult)
        requires sound { IsSound self.old }
        ensures stands { (c : Course) → StandsFor self.old c → StandsFor self.new (failed_if_running c.outcome why c) }
        ensures times { (now : ℕ) → IsBy now self.old.running → IsBy now self.new.running }
        ensures live { kind_if_done self.new.running ≡ None }
        ensures sent { (n : ℕ) → SentAtMost n self.old.mailboxes → SentAtMost n self.new.mailboxes }
        ensures boxes { length self.new.mailboxes ≡ 64 }
        ensures len { length self.new.rows ≡ length self.old.rows }
    {
        if !is_running(self.outcome) {
            return;
        }
        self.fail_set(why);
        self.close_orders();
    }

    /// The freeze limit of the set, in ticks.
    fn freeze_limit(&self) -> u32
        requires few { length self.now.rows ≤ 64 }
        ensures limit { (c : Course) → Follows self.now c → result ≡ freeze_limit c }
        ensures most { result ≤ default_freeze }
    {
        least_limit(&self.rows, &self.members)
    }

    /// The limit that is spent at the tick `now`, the first of them in the order of treatment.
    pub fn spent(&self, now: u64) -> Option<Limit>
        requires few { length self.now.rows ≤ 64 }
        requires times { IsBy now self.now.running }
        ensures { (c : Course) → Follows self.now c → result ≡ option_map (λ l. l.limit) (spent_of now (limits_now c)) }
    {
        match &self.running {
            None => None,
            Some(running) => running.spent(self.freeze_limit(), now),
        }
    }

    /// The least number of ticks, counted from the tick `now`, after which a limit is spent.
    pub fn until_limit(&self, now: u64) -> Option<u64>
        requires few { length self.now.rows ≤ 64 }
        requires times { IsBy now self.now.running }
        ensures ticks { (c : Course) → Follows self.now c → result ≡ ticks_if (is_some c.agenda) (idle_ticks now c) }
        ensures runs { is_some result ≡ is_some self.now.running }
        ensures most { IfSome result (λ ticks. ticks ≤ answer_limit + 1) }
    {
        match &self.running {
            None => None,
            Some(running) => Some(running.until_limit(self.freeze_limit(), now)),
        }
    }

    /// The writers that a limit loses which is spent.
    pub fn lost_by(&self, spent: Option<Limit>) -> WriterSet
        ensures { result ≡ lost_by spent (order_now (left_now self.now.running)) (waits_now (left_now self.now.running)) }
    {
        let Some(running) = &self.running else {
            return WriterSet::new();
        };
        if spent.is_none() || !running.agenda.is_asking() {
            return WriterSet::new();
        }
        running.agenda.waited()
    }
}

/// The least time-out of the members, and the default one where there are none.
fn least_limit(rows: &WriterRows, members: &WriterSet) -> u32
    requires { length rows.now ≤ 64 }
    ensures limit { result ≡ least_limit rows.now (members_from (λ w. is_among w members.now) 0 rows.now) }
    ensures most { result ≤ default_freeze }
{
    let mut limit = DEFAULT_FREEZE;
    let mut number = 0;
    while number < rows.len() {
        let writer = number as u32;
        limit = least_if(members.contains(writer), limit, rows.row(writer).limit);
        number += 1;
    }
    limit
}

fn least_if(really: bool, limit: u32, own: u32) -> u32
    ensures value { result ≡ least_if really limit own }
    ensures most { result ≤ limit }
{
    if really { limit.min(own) } else { limit }
}

/// The kind of the agenda, where its last group is closed.
fn kind_if_done(running: &Option<RunningAgenda>) -> Option<Kind>
    ensures { result ≡ kind_if_done running.now }
{
    match running {
        None => None,
        Some(running) => {
            if running.agenda.is_done() {
                Some(running.kind)
            } else {
                None
            }
        }
    }
}

/// The order of the open group.
pub fn open_order(running: &Option<RunningAgenda>) -> Option<Order>
    ensures { result ≡ order_now (left_now running.now) }
{
    match running {
        None => None,
        Some(running) => match running.agenda.open_group() {
            None => None,
            Some(group) => group.order(),
        },
    }
}

fn is_running(outcome: SetOutcome) -> bool
    ensures { result ≡ is_running outcome }
{
    match outcome {
        SetOutcome::Running => true,
        SetOutcome::Complete | SetOutcome::Failed(_) => false,
    }
}

fn outcome_after(kind: Kind, outcome: SetOutcome) -> SetOutcome
    ensures { result ≡ outcome_after kind outcome }
{
    match kind {
        Kind::Snapshot => SetOutcome::Complete,
        Kind::Gather | Kind::Prepare | Kind::Complete => outcome,
    }
}

/// Whether a veto to the order, or its lost answer, fails the set.
fn is_decisive(order: Order) -> bool
    ensures { result ≡ is_decisive order }
{
    match order {
        Order::PrepareBackup | Order::PrepareSnapshot | Order::Freeze => true,
        Order::Identify | Order::Thaw | Order::PostSnapshot | Order::BackupComplete => false,
    }
}

fn fails(order: Order, said: Said) -> bool
    ensures { result ≡ (is_decisive order && not (is_ok said)) }
{
    is_decisive(order) && !said.is_ok()
}

fn fails_set(order: Option<Order>) -> bool
    ensures { result ≡ fails_set order }
{
    match order {
        None => false,
        Some(order) => is_decisive(order),
    }
}

fn error_of(said: Said) -> WriterError
    ensures { result ≡ error_of said }
{
    match said {
        Said::Veto(error) => error,
        Said::Ok | Said::Lost => WriterError::Timeout,
    }
}
