ghost use Rattle.std.specs.Prelude.{◌≡◌, ◌↔◌, ◌+◌, ◌++◌, ◌<◌, ◌≤◌, ◌∷◌, [], ℕ, None, Some, false, is_some, length, slice_get, true, IfOk, IfSome, IsTrue, OnErr, OnOk};
ghost use Rattle.writer_calls.specs.Mailbox.{answer_to};
ghost use Rattle.writer_calls.specs.Script.{said_of};
ghost use Rattle.set_agenda.specs.Agenda.{is_frozen, is_held, left, next_step, next_volume, open_group, order_now};
ghost use Rattle.set_agenda.specs.Course.{Course, answered, course_start, idle_ticks, lost_writers, released, stepped, timed};
ghost use Rattle.set_agenda.specs.Advance.{are_distinct};
ghost use Rattle.tick_limits.specs.Time.{answer_limit};
ghost use Rattle.coordinator.specs.Beginning.{begun_as};
ghost use Rattle.coordinator.specs.Coordinator.{IsOnTime, KeepsWriters, MayPost, Stands, double_of, is_disabled, named, place_of, failed_if_running, registered_in, runs, works, writer_count};
ghost use Rattle.coordinator.specs.Effects.{Tells, lost_order_if};
ghost use Rattle.coordinator.specs.KeptCourse.{ticks_if};
ghost use Rattle.coordinator.specs.OpenOrders.{refusal, standing_in};

use crate::before::{Before, frozen_now};
use crate::beginning::{asked, members_of, volumes_if};
use crate::effects::Effects;
use crate::kept_course::{KeptCourse, open_order};
use crate::register_fault::RegisterFault;
use crate::running_agenda::RunningAgenda;
use crate::writer_names::{WriterNames, has_class_of};
use component_doc::Selection;
use set_agenda::{Group, Kind, WriterSet};
use std::alloc::Global;
use std::marker::Model;
use vss_names::{Order, OutOfMemory, SetOutcome, Text, VssResult};
use writer_calls::{Answer, StaleAnswer, Standing};
use writer_meta::Metadata;
use writer_state::WriterRow;

/// The coordinator of a session: the registered writers with their rows and open orders, the agenda that runs, and what
/// becomes of the session's set. Contracts say of which course it is what is kept, and what each call makes of that
/// course.
#[derive(Drop)]
pub struct Coordinator {
    names: WriterNames,
    kept: KeptCourse,
    /// How often orders were posted.
    posts: u64,
}

impl Model for Coordinator {
    ghost use Rattle.std.specs.Prelude.{◌≡◌, length};
    ghost use Rattle.coordinator.specs.Coordinator.{CoordinatorState};
    ghost use Rattle.coordinator.specs.KeptCourse.{IsSound};
    ghost use Rattle.coordinator.specs.OpenOrders.{SentAtMost};

    ghost Value = { CoordinatorState };

    ghost view = { λ k. record { writers = k.names; kept = k.kept; posts = k.posts } };

    ghost invariant = { λ k. IsSound k.kept × (length k.names ≡ length k.kept.rows) × SentAtMost k.posts k.kept.mailboxes };
}

impl Coordinator {
    /// A coordinator with no writers, before the first session.
    pub fn new(alloc: Global) -> Result<Coordinator, OutOfMemory>
        ensures stands { IfOk result (λ k. Stands k (course_start [])) }
        ensures writers { IfOk result (λ k. k.writers ≡ []) }
        ensures count { IfOk result (λ k. writer_count k ≡ 0) }
        ensures times { IfOk result (λ k. (now : ℕ) → IsOnTime now k) }
        ensures posts { IfOk result (λ k. k.posts ≡ 0) }
    {
        let kept = KeptCourse::new(alloc)?;
        Ok(Coordinator {
            names: WriterNames::new(alloc),
            kept,
            posts: 0,
        })
    }

    /// Registers a writer, and answers its number. A writer's name is registered once.
    pub fn register(
        &mut self,
        alloc: Global,
        name: &Text,
        meta: Metadata,
    ) -> Result<u32, RegisterFault>
        requires { writer_count self.old < 64 }
        ensures stands { OnOk result ((c : Course) → Stands self.old c → Stands self.new (registered_in meta.level meta.freeze_timeout c)) }
        ensures number { IfOk result (λ writer. writer ≡ writer_count self.old) }
        ensures writers { OnOk result (self.new.writers ≡ self.old.writers ++ record { name = name.now.bytes; class = meta.class } ∷ []) }
        ensures count { OnOk result (writer_count self.new ≡ writer_count self.old + 1) }
        ensures double { double_of result ≡ place_of name.now.bytes self.old.writers }
        ensures unchanged { OnErr result (self.new ≡ self.old) }
        ensures times { (now : ℕ) → IsOnTime now self.old → IsOnTime now self.new }
        ensures posts { self.new.posts ≡ self.old.posts }
    {
        if let Some(at) = self.names.place_of(name.bytes()) {
            return Err(RegisterFault::Double { at: at as u32 });
        }
        let writer = self.kept.rows.len() as u32;
        let row = WriterRow::new(meta.level, meta.freeze_timeout);
        self.names
            .add(alloc, name.bytes(), meta.class, &mut self.kept.rows, row)?;
        Ok(writer)
    }

    /// Disables the writer's class until the session ends: no agenda that begins from now on takes a writer of that
    /// class in. Gather does not ask it, and Prepare does not make it a participant.
    pub fn disable(&mut self, writer: u32)
        requires { writer < writer_count self.old }
        ensures stands { (c : Course) → Stands self.old c → Stands self.new (named writer c) }
        ensures times { (now : ℕ) → IsOnTime now self.old → IsOnTime now self.new }
        ensures writers { KeepsWriters self.old self.new }
        ensures posts { self.new.posts ≡ self.old.posts }
    {
        self.kept.disabled.insert(writer);
    }

    /// Whether the writer's class is disabled.
    pub fn is_disabled(&self, writer: u32) -> bool
        requires { writer < writer_count self.now }
        ensures { (c : Course) → Stands self.now c → result ≡ is_disabled self.now.writers c.disabled writer }
    {
        has_class_of(&self.names, &self.kept.disabled, writer)
    }

    /// How many writers are registered.
    pub fn writers(&self) -> u32
        ensures count { result ≡ writer_count self.now }
        ensures named { length self.now.writers ≡ writer_count self.now }
    {
        self.kept.rows.len() as u32
    }

    /// How often orders were posted, in all sessions so far: once by each call that may post some, and these are
    /// `begin_agenda`, an answer that is taken, `stepped` and `time`.
    pub fn posts(&self) -> u64
        ensures { result ≡ self.now.posts }
    {
        self.posts
    }

    /// Whether the provider has a step to make.
    pub fn is_working(&self) -> bool
        ensures { result ≡ works self.now }
    {
        match &self.kept.running {
            None => false,
            Some(running) => running.agenda.is_working(),
        }
    }

    /// Whether nothing that a limit runs from is after the tick `now`.
    pub fn is_on_time(&self, now: u64) -> bool
        ensures { IsTrue result ↔ IsOnTime now self.now }
    {
        match &self.kept.running {
            None => true,
            Some(running) => running.is_by(now),
        }
    }

    /// The writers' rows, in the order of their numbers.
    pub fn rows(&self) -> &[WriterRow]
        ensures { (c : Course) → Stands self.now c → result.now ≡ c.rows }
    {
        self.kept.rows.items()
    }

    /// Whether the writer stands frozen.
    pub fn is_frozen(&self, writer: u32) -> bool
        requires { writer < writer_count self.now }
        ensures { (c : Course) → Stands self.now c → result ≡ is_frozen c.agenda writer }
    {
        frozen_now(&self.kept.running).contains(writer)
    }

    /// Whether the writes of the volume are held.
    pub fn is_held(&self, volume: u32) -> bool
        ensures { (c : Course) → Stands self.now c → result ≡ is_held c.agenda volume }
    {
        match &self.kept.running {
            None => false,
            Some(running) => running.agenda.is_held(volume),
        }
    }

    /// A writer's row.
    pub fn row(&self, writer: u32) -> WriterRow
        requires { writer < writer_count self.now }
        ensures { (c : Course) → Stands self.now c → Some result ≡ slice_get c.rows writer }
    {
        self.kept.rows.row(writer)
    }

    /// The order that a writer has to answer; none where no order of it is open.
    pub fn poll(&self, writer: u32) -> Option<Standing>
        requires { writer < writer_count self.now }
        ensures { (c : Course) → Stands self.now c → result ≡ standing_in c writer }
    {
        self.kept.mailboxes.poll(writer)
    }

    /// The open group of the agenda; none where no agenda runs.
    pub fn open_group(&self) -> Option<Group>
        ensures group { (c : Course) → Stands self.now c → result ≡ open_group (left c.agenda) }
        ensures runs { is_some result ≡ runs self.now }
    {
        match &self.kept.running {
            None => None,
            Some(running) => running.agenda.open_group(),
        }
    }

    /// The volume of the provider's next step, where the open group has one step for each volume.
    pub fn next_volume(&self) -> Option<u32>
        ensures { (c : Course) → Stands self.now c → result ≡ next_volume (left c.agenda) }
    {
        match &self.kept.running {
            None => None,
            Some(running) => running.agenda.next_volume(),
        }
    }

    /// The provider's next step, with its volume where the open group has one step for each; none where the provider
    /// has no step to make.
    pub fn next_step(&self) -> Option<(Group, Option<u32>)>
        ensures step { (c : Course) → Stands self.now c → result ≡ next_step (left c.agenda) }
        ensures works { is_some result ≡ works self.now }
    {
        match &self.kept.running {
            None => None,
            Some(running) => running.agenda.next_step(),
        }
    }

    /// The least number of ticks, counted from the tick `now`, after which a limit is spent; none where no agenda runs.
    pub fn until_limit(&self, now: u64) -> Option<u64>
        requires { IsOnTime now self.now }
        ensures ticks { (c : Course) → Stands self.now c → result ≡ ticks_if (is_some c.agenda) (idle_ticks now c) }
        ensures runs { is_some result ≡ runs self.now }
        ensures most { IfSome result (λ ticks. ticks ≤ answer_limit + 1) }
    {
        self.kept.until_limit(now)
    }

    /// An agenda begins at the tick `now`. Gather asks every writer that is not disabled. Prepare asks the participants
    /// of the selection that are not disabled, who stay those of the set; Snapshot asks them over these volumes, in the
    /// order in which they were added; Complete asks those of them that have not failed. An agenda that asks nobody ends at once. All the
    /// memory is taken here that the agenda ever needs. (The set's number is the requestor's; no call needs it here.)
    pub fn begin_agenda(
        &mut self,
        alloc: Global,
        kind: Kind,
        _set: u32,
        volumes: &[u32],
        selection: &Selection,
        now: u64,
    ) -> Result<Effects, OutOfMemory>
        requires idle { runs self.old ≡ false }
        requires selection { selection.now.writers ≡ writer_count self.old }
        requires volumes { are_distinct volumes.now ≡ true }
        requires room { MayPost self.old }
        ensures stands { OnOk result ((c : Course) → Stands self.old c → Stands self.new (begun_as kind self.old.writers selection.now volumes.now now c)) }
        ensures tells { IfOk result (λ e. (c : Course) → Stands self.old c → Tells e true [] None c (begun_as kind self.old.writers selection.now volumes.now now c)) }
        ensures unchanged { OnErr result (self.new ≡ self.old) }
        ensures times { OnOk result (IsOnTime now self.new) }
        ensures posts { OnOk result (self.new.posts ≡ self.old.posts + 1) }
        ensures writers { KeepsWriters self.old self.new }
    {
        let asked = asked(kind, &self.names, &self.kept, selection);
        let members = members_of(alloc, &self.kept.rows, &asked)?;
        let volumes = volumes_if(kind, volumes);
        let running = RunningAgenda::new(alloc, kind, &members, volumes, now)?;
        let before = Before::of_beginning(&self.kept);
        self.kept.prepare_for(kind, asked);
        self.kept.begin(running);
        self.kept.post(before.place);
        self.posts += 1;
        Ok(before.effects(&self.kept))
    }

    /// Takes a writer's answer to its order of this number, with all that follows. An answer to an order that is not
    /// open is stale, and changes nothing.
    pub fn answered(
        &mut self,
        writer: u32,
        number: u64,
        answer: Answer,
        now: u64,
    ) -> Result<Effects, StaleAnswer>
        requires known { writer < writer_count self.old }
        requires room { MayPost self.old }
        ensures refused { (c : Course) → Stands self.old c → refusal result ≡ refusal (answer_to number (standing_in c writer)) }
        ensures unchanged { OnErr result (self.new ≡ self.old) }
        ensures stands { OnOk result ((c : Course) → Stands self.old c → Stands self.new (answered writer (said_of answer) now c)) }
        ensures tells { IfOk result (λ e. (c : Course) → Stands self.old c → Tells e (is_some c.agenda) [] None c (answered writer (said_of answer) now c)) }
        ensures times { IsOnTime now self.old → IsOnTime now self.new }
        ensures posts { OnOk result (self.new.posts ≡ self.old.posts + 1) }
        ensures writers { KeepsWriters self.old self.new }
    {
        let before = Before::of(&self.kept);
        let order = self.kept.take(writer, number, answer)?;
        self.kept.hear(order, writer, answer.said(), now);
        self.kept.post(before.place);
        self.posts += 1;
        Ok(before.effects(&self.kept))
    }

    /// The provider has made the next step of the open group, or a device has failed it.
    pub fn stepped(&mut self, ok: bool, now: u64) -> Effects
        requires works { works self.old ≡ true }
        requires room { MayPost self.old }
        ensures stands { (c : Course) → Stands self.old c → Stands self.new (stepped ok now c) }
        ensures tells { (c : Course) → Stands self.old c → Tells result (is_some c.agenda) [] None c (stepped ok now c) }
        ensures times { IsOnTime now self.old → IsOnTime now self.new }
        ensures posts { self.new.posts ≡ self.old.posts + 1 }
        ensures writers { KeepsWriters self.old self.new }
    {
        let before = Before::of(&self.kept);
        self.kept.step(ok, now);
        self.kept.post(before.place);
        self.posts += 1;
        before.effects(&self.kept)
    }

    /// The clock has gone on to the tick `now`: a limit that is spent is treated.
    pub fn time(&mut self, now: u64) -> Effects
        requires times { IsOnTime now self.old }
        requires room { MayPost self.old }
        ensures stands { (c : Course) → Stands self.old c → Stands self.new (timed now c) }
        ensures tells { (c : Course) → Stands self.old c → Tells result (is_some c.agenda) (lost_writers now c) (lost_order_if (lost_writers now c) (order_now (left c.agenda))) c (timed now c) }
        ensures times { IsOnTime now self.new }
        ensures posts { self.new.posts ≡ self.old.posts + 1 }
        ensures writers { KeepsWriters self.old self.new }
    {
        let before = Before::of(&self.kept);
        let spent = self.kept.spent(now);
        let lost = self.kept.lost_by(spent);
        let lost_order = lost_order_if(&lost, open_order(&self.kept.running));
        self.kept.treat(spent, now);
        self.kept.post(before.place);
        self.posts += 1;
        Effects {
            lost: lost.bits(),
            lost_order,
            ..before.effects(&self.kept)
        }
    }

    /// The set fails: the agenda stops with all its orders, and the participants are told. A set that is complete or
    /// has failed already stays so, and nobody is told anything.
    pub fn fail(&mut self, why: VssResult) -> Effects
        ensures stands { (c : Course) → Stands self.old c → Stands self.new (failed_if_running c.outcome why c) }
        ensures tells { (c : Course) → Stands self.old c → Tells result (is_some c.agenda) [] None c (failed_if_running c.outcome why c) }
        ensures times { (now : ℕ) → IsOnTime now self.old → IsOnTime now self.new }
        ensures writers { KeepsWriters self.old self.new }
        ensures posts { self.new.posts ≡ self.old.posts }
    {
        let before = Before::of(&self.kept);
        self.kept.fail_if_running(why);
        before.effects(&self.kept)
    }

    /// The session ends: a running agenda stops with all its orders, and each writer that has neither failed nor is
    /// UNKNOWN is STABLE. No writer is disabled any more.
    pub fn end_session(&mut self)
        ensures stands { (c : Course) → Stands self.old c → Stands self.new (released c) }
        ensures times { (now : ℕ) → IsOnTime now self.new }
        ensures writers { KeepsWriters self.old self.new }
        ensures posts { self.new.posts ≡ self.old.posts }
    {
        self.kept.release();
        self.kept.close_orders();
    }
}

/// The order at which these writers were lost, where there are any.
fn lost_order_if(lost: &WriterSet, order: Option<Order>) -> Option<Order>
    ensures { result ≡ lost_order_if lost.now order }
{
    if lost.is_empty() { None } else { order }
}
