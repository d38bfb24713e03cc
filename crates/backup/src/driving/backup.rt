ghost use Rattle.std.specs.Prelude.{◌≡◌, [], true, Some, None, IfOk};
ghost use Rattle.std.specs.List.{list_any};
ghost use Rattle.backup_ledger.specs.Deeds.{copied, is_kept};
ghost use Rattle.vss_world.specs.Moves.{IsEvent};
ghost use Rattle.backup.specs.Ending.{IsEndedIf};

use crate::driving::events::{abort_of, answer_of, memory, tick_of};
use crate::driving::happened::Happened;
use crate::driving::job::Job;
use crate::driving::next::Next;
use crate::driving::place::number_of;
use crate::driving::recorder::Recorder;
use crate::driving::setting::{BACKUP, Setting, SettingFault};
use crate::driving::why::Why;
use backup_ledger::{Copier, Deed, Ledger, Undone};
use scenario::Op;
use set_agenda::Group;
use std::alloc::Global;
use volume_device::{MemDevice, MemMaker, Store};
use vss_model::{Event, Outcome};
use vss_names::{Order, OutOfMemory, SetOutcome, Text, WriterError, WriterState};
use vss_play::{Service, StepFault};
use vss_world::Reply;
use writer_calls::{Answer, Standing};

/// How long a thaw may take, in milliseconds.
const MOST_THAW: u32 = 60_000;
/// The most ticks of a line.
const MOST_TICKS: u32 = 1_000_000_000;
/// How many moves are made at once at most.
const MOST_AT_ONCE: u32 = 100_000;

/// A backup that goes on: the service over volumes of one block, the deeds with their copier, and the record.
#[derive(Drop)]
pub struct Backup<C: Copier> {
    alloc: Global,
    service: Service<MemDevice>,
    ledger: Ledger<C>,
    recorder: Recorder,
    /// The calls of the lane `backup`, as text.
    lines: Vec<String>,
    names: Vec<String>,
    report: Text,
    /// The next call, counted from 0.
    at: u32,
    /// Milliseconds since the first order to thaw.
    thawing: Option<u32>,
    is_started: bool,
    has_paused: bool,
    why: Option<Why>,
}

/// The text of a call.
fn line_text(lines: &[String], at: u32) -> &str {
    match lines.get(at as usize) {
        Some(line) => line.as_str(),
        None => "end",
    }
}

impl<C: Copier> Backup<C> {
    /// The backup of a job, of which nothing has happened yet.
    pub fn new(
        alloc: Global,
        job: &Job<'_>,
        setting: Setting,
        copier: C,
    ) -> Result<Backup<C>, SettingFault>
        requires { C.done copier ≡ [] }
    {
        let Setting {
            scenario,
            lines,
            members,
        } = setting;
        let mut names = Vec::new(alloc);
        for writer in &job.writers {
            names.push(String::from_str(alloc, writer.name)?)?;
        }
        // an `abort` may come between
        let recorder = Recorder::new(alloc, job, number_of(lines.len()).saturating_add(1))?;
        let report = Text::copy(alloc, b"report 1\n")?;
        let mut maker = MemMaker::new(alloc, Vec::new(alloc));
        let Ok(service) = Service::new(alloc, scenario, &Store::Memory, &mut maker) else {
            return Err(SettingFault::OutOfMemory);
        };
        Ok(Backup {
            alloc,
            service,
            ledger: Ledger::new(alloc, members.writers, members.volumes, copier),
            recorder,
            lines,
            names,
            report,
            at: 0,
            thawing: None,
            is_started: false,
            has_paused: false,
            why: None,
        })
    }

    /// What was done, in order, with the copier that did its part.
    pub fn ledger(&self) -> &Ledger<C>
        ensures { result.now ≡ self.now.ledger }
    {
        &self.ledger
    }

    /// Its copier, once it is over. It did the deeds of the ledger that are its, and no others.
    pub fn into_copier(self) -> C
        ensures { C.done result ≡ copied self.ledger.deeds }
    {
        self.ledger.into_copier()
    }

    /// The report of the moves so far.
    pub fn report(&self) -> &[u8] {
        self.report.bytes()
    }

    /// The scenario whose run this is.
    pub fn scenario(&self) -> Result<Text, OutOfMemory> {
        self.recorder.scenario(self.alloc)
    }

    /// Why nothing is kept; none if something is, or may be.
    pub fn why(&self) -> Option<Why>
        ensures { list_any is_kept self.now.ledger.deeds ≡ true → result ≡ None }
    {
        if self.ledger.is_kept() {
            None
        } else {
            self.why
        }
    }

    /// The order that a writer has to answer.
    fn standing(&self, writer: u32) -> Option<Standing> {
        if writer >= self.service.scenario().writers() {
            return None;
        }
        self.service.poll(writer)
    }

    /// The name of a writer.
    fn name(&self, writer: u32) -> &str {
        match self.names.get(writer as usize) {
            Some(name) => name.as_str(),
            None => "",
        }
    }

    /// Goes to the last call, which ends the session.
    fn go_to_end(&mut self) {
        self.at = number_of(self.lines.len()).saturating_sub(1);
    }

    /// Gives the backup up, for the first cause. What is kept stays.
    fn give_up(&mut self, why: Why) -> Result<(), StepFault> {
        if self.why.is_some() {
            return Ok(());
        }
        self.why = Some(why);
        self.go_to_end();
        if self.is_started && !self.ledger.is_kept() {
            return self.abort();
        }
        Ok(())
    }

    /// Makes the call `abort`, if it may come.
    fn abort(&mut self) -> Result<(), StepFault> {
        let Some(event) = abort_of(&self.service) else {
            return Ok(());
        };
        if !self.service.may(event) {
            return Ok(());
        }
        let number = memory(self.recorder.call(self.alloc, "abort"))?;
        self.step(event, number)
    }

    /// Makes an event, and takes what it came to.
    fn step(&mut self, event: Event, number: u32) -> Result<(), StepFault>
        requires { IsEvent self.old.service.plan event }
    {
        match self
            .service
            .step_into(self.alloc, event, number, &mut self.report)
        {
            Ok(Reply::Moved(outcome)) => self.take_outcome(&outcome),
            Ok(Reply::Blocked) => Ok(()),
            Err(fault) => Err(fault),
        }
    }

    /// Notes which answers a move lost, and whether it failed the set.
    fn take_outcome(&mut self, outcome: &Outcome) -> Result<(), StepFault> {
        if let Some(order) = outcome.lost_order {
            self.record_lost(outcome.lost, order)?;
        }
        if let SetOutcome::Failed(_) = outcome.result {
            if outcome.set > 0 {
                self.why = Some(self.why.unwrap_or(Why::Failed));
                self.go_to_end();
            }
        }
        Ok(())
    }

    /// Records that writers, as bits, never answered an order.
    fn record_lost(&mut self, lost: u64, order: Order) -> Result<(), StepFault> {
        let mut left = lost;
        for writer in 0..number_of(self.names.len()) {
            if left & 1 == 1 {
                let (name, word) = (self.name(writer), order.name());
                let text = memory(format!(in self.alloc; "answer {name} {word} 1 lost"))?;
                memory(self.recorder.answer(self.alloc, text.as_str()))?;
            }
            left >>= 1;
        }
        Ok(())
    }

    /// Time goes by.
    fn pass(&mut self, ms: u32) -> Result<(), StepFault> {
        if ms == 0 {
            return Ok(());
        }
        if let Some(spent) = self.thawing {
            let spent = spent.saturating_add(ms);
            self.thawing = Some(spent);
            if spent > MOST_THAW {
                self.give_up(Why::LongThaw)?;
            }
        }
        let Some(event) = tick_of(&self.service, ms.min(MOST_TICKS)) else {
            return Ok(());
        };
        let number = memory(self.recorder.tick(self.alloc, ms.min(MOST_TICKS)))?;
        self.step(event, number)
    }

    /// Whether a writer was given the order of this number.
    fn was_given(&self, writer: u32, number: u64) -> bool {
        for deed in self.ledger.deeds() {
            if let Deed::Said {
                writer: other,
                number: given,
                ..
            } = *deed
            {
                if other == writer && given == number {
                    return true;
                }
            }
        }
        false
    }

    /// A writer answers. A late answer, and one to an order that was not given, counts for nothing.
    fn hear(&mut self, writer: u32, number: u64, answer: Answer) -> Result<(), StepFault> {
        match self.standing(writer) {
            Some(standing) if standing.number == number && self.was_given(writer, number) => {
                self.take_answer(writer, standing, answer)
            }
            _ => Ok(()),
        }
    }

    /// Takes the answer to an open order. A writer that vetoes its thaw may not have stood frozen to then: the backup is given up before that
    /// is told to the service, which would complete the set without the writer.
    fn take_answer(
        &mut self,
        writer: u32,
        standing: Standing,
        answer: Answer,
    ) -> Result<(), StepFault> {
        match self.ledger.hear(writer, standing.order, answer) {
            Ok(()) | Err(Undone::NotNow | Undone::Failed) => {}
            Err(Undone::OutOfMemory) => return Err(StepFault::OutOfMemory),
        }
        if let Answer::Veto(code) = answer {
            if let Order::Thaw = standing.order {
                return self.give_up(Why::NotFrozen { writer });
            }
            self.record_veto(writer, standing, code)?;
        }
        let Some(event) = answer_of(&self.service, writer, answer) else {
            return Ok(());
        };
        self.step(event, 0)
    }

    /// Records a veto.
    fn record_veto(
        &mut self,
        writer: u32,
        standing: Standing,
        code: WriterError,
    ) -> Result<(), StepFault> {
        let (name, word, nth, code) = (
            self.name(writer),
            standing.order.name(),
            standing.nth,
            code.name(),
        );
        let text = memory(format!(in self.alloc; "answer {name} {word} {nth} veto {code}"))?;
        memory(self.recorder.answer(self.alloc, text.as_str()))
    }

    /// The hook of a writer has ended: what it held is let go.
    fn lose(&mut self, writer: u32) -> Result<(), StepFault> {
        match self.standing(writer) {
            Some(standing) => {
                let veto = Answer::Veto(WriterError::NonRetryable);
                self.take_answer(writer, standing, veto)
            }
            None if self.ledger.is_kept() || !self.ledger.writers().contains(&writer) => Ok(()),
            None => self.give_up(Why::Gone { writer }),
        }
    }

    /// Notes the aborts that were not told yet.
    fn tell_aborts(&mut self) -> Result<(), StepFault> {
        for (place, row) in self.service.rows().iter().enumerate() {
            if row.aborts > 0 && !self.ledger.was_told(number_of(place)) {
                memory(self.ledger.tell_abort(number_of(place)))?;
            }
        }
        Ok(())
    }

    /// Gives the writers the orders that they were not given. Whether something else came of it is answered: an order that tells of a set
    /// comes only once it is kept.
    fn give_orders(&mut self) -> Result<bool, StepFault> {
        self.tell_aborts()?;
        for writer in 0..number_of(self.names.len()) {
            let Some(standing) = self.standing(writer) else {
                continue;
            };
            if self.was_given(writer, standing.number) {
                continue;
            }
            match self.ledger.say(writer, standing) {
                Ok(()) => self.note_thaw(standing.order),
                Err(Undone::OutOfMemory) => return Err(StepFault::OutOfMemory),
                Err(Undone::NotNow | Undone::Failed) => return self.keep(),
            }
        }
        Ok(false)
    }

    /// From the first order to thaw on, the time of the thaw is counted.
    fn note_thaw(&mut self, order: Order) {
        if let Order::Thaw = order {
            self.thawing = Some(self.thawing.unwrap_or(0));
        }
    }

    /// All have said that they stood frozen to their thaw: the set is kept. Whether anything came of it is answered.
    fn keep(&mut self) -> Result<bool, StepFault> {
        if self.why.is_some() {
            return Ok(false);
        }
        self.thawing = None;
        match self.ledger.keep() {
            Ok(_set) => Ok(true),
            Err(Undone::OutOfMemory) => Err(StepFault::OutOfMemory),
            Err(Undone::NotNow) => self.give_up(Why::NotAllowed).map(|()| true),
            Err(Undone::Failed) => self.give_up(Why::NotKept).map(|()| true),
        }
    }

    /// Reads a part of a volume's file; at its last part the provider's step is made.
    fn read(&mut self, volume: u32) -> Result<Option<Next>, StepFault>
        ensures { IfOk result (λ next. IsEndedIf next self.new.ledger) }
    {
        match self.ledger.read(volume) {
            Ok(false) => Ok(Some(Next::GoesOn)),
            Ok(true) => {
                self.step(Event::Provider, 0)?;
                Ok(Some(Next::GoesOn))
            }
            Err(Undone::OutOfMemory) => Err(StepFault::OutOfMemory),
            Err(Undone::NotNow) => {
                self.give_up(Why::NotAllowed)?;
                Ok(None)
            }
            Err(Undone::Failed) => {
                self.fail_step()?;
                Ok(None)
            }
        }
    }

    /// Makes the provider's step as one in which its device failed.
    fn fail_step(&mut self) -> Result<(), StepFault> {
        self.why = Some(self.why.unwrap_or(Why::NotRead));
        match self.service.fail_into(self.alloc, &mut self.report) {
            Ok(Reply::Moved(outcome)) => self.take_outcome(&outcome),
            Ok(Reply::Blocked) => Ok(()),
            Err(fault) => Err(fault),
        }
    }

    /// Makes the provider's next step, with what it is outside.
    fn provide(&mut self) -> Result<Option<Next>, StepFault>
        ensures { IfOk result (λ next. IsEndedIf next self.new.ledger) }
    {
        match self.service.next_step() {
            Some((Group::Flush, Some(volume))) => return self.read(volume),
            Some((Group::PostCommit, _)) if self.ledger.stood_still().is_err() => {
                self.give_up(Why::Changed)?;
                return Ok(None);
            }
            _ => {}
        }
        self.step(Event::Provider, 0)?;
        Ok(None)
    }

    /// A writer that did not say what it has.
    fn unknown(&self) -> Option<u32> {
        for (place, row) in self.service.rows().iter().enumerate() {
            if let WriterState::FailedAtIdentify = row.state {
                return Some(number_of(place));
            }
        }
        None
    }

    /// What stands in the way of a call; none if nothing does.
    fn obstacle(&mut self, op: Op) -> Result<Option<Why>, StepFault>
        ensures { self.new.service ≡ self.old.service }
    {
        match op {
            Op::Start => {
                let Some(writer) = self.unknown() else {
                    self.is_started = true;
                    return Ok(None);
                };
                Ok(Some(Why::Unknown { writer }))
            }
            Op::Snapshot => match self.ledger.bring_near() {
                Ok(()) => Ok(None),
                Err(Undone::OutOfMemory) => Err(StepFault::OutOfMemory),
                Err(Undone::NotNow | Undone::Failed) => Ok(Some(Why::NotNear)),
            },
            _ => Ok(None),
        }
    }

    /// Whether to look at what has happened before this call, once: the volumes are brought near their files before a snapshot, which may take long.
    fn pauses(&mut self, event: Event) -> bool
        ensures { self.new.service ≡ self.old.service }
    {
        let Event::Line {
            op: Op::Snapshot,
            ..
        } = event
        else {
            return false;
        };
        let was_paused = self.has_paused;
        self.has_paused = true;
        !was_paused
    }

    /// Makes a call, for which the record has a line.
    fn make_call(&mut self, event: Event) -> Result<(), StepFault>
        requires { IsEvent self.old.service.plan event }
    {
        let number = memory(
            self.recorder
                .call(self.alloc, line_text(&self.lines, self.at)),
        )?;
        self.at = self.at.saturating_add(1);
        self.step(event, number)
    }

    /// Makes the next call, unless something stands in its way, for which the backup is given up.
    fn call(&mut self, event: Event) -> Result<(), StepFault>
        requires { IsEvent self.old.service.plan event }
    {
        let Event::Line { op, .. } = event else {
            return Ok(());
        };
        match self.obstacle(op)? {
            Some(why) => self.give_up(why),
            None => self.make_call(event),
        }
    }

    /// Takes the next line, which may come now.
    fn take_line(&mut self, event: Event) -> Result<Option<Next>, StepFault>
        requires { IsEvent self.old.service.plan event }
        ensures { IfOk result (λ next. IsEndedIf next self.new.ledger) }
    {
        if self.pauses(event) {
            return Ok(Some(Next::GoesOn));
        }
        self.call(event)?;
        Ok(None)
    }

    /// Makes a move, if one may come now; else what comes next is answered.
    fn make_move(&mut self) -> Result<Option<Next>, StepFault>
        ensures { IfOk result (λ next. IsEndedIf next self.new.ledger) }
    {
        let Some((line, _)) = self.service.line(BACKUP, self.at) else {
            return self.end();
        };
        if self.service.may(line) {
            return self.take_line(line);
        }
        if self.service.may(Event::Provider) {
            return self.provide();
        }
        if self.give_orders()? {
            return Ok(None);
        }
        Ok(Some(Next::Waits))
    }

    /// All calls are made: if nothing is kept, each writer that takes part is told.
    fn end(&mut self) -> Result<Option<Next>, StepFault>
        ensures { IfOk result (λ next. IsEndedIf next self.new.ledger) }
    {
        self.tell_aborts()?;
        match self.ledger.finish() {
            Ok(()) => Ok(Some(Next::Over)),
            Err(_) => Err(StepFault::OutOfMemory),
        }
    }

    /// Makes all moves that may come now.
    fn go_on(&mut self) -> Result<Next, StepFault>
        ensures { IfOk result (λ next. IsEndedIf (Some next) self.new.ledger) }
    {
        for _move in 0..MOST_AT_ONCE {
            if let Some(next) = self.make_move()? {
                return Ok(next);
            }
        }
        Ok(Next::GoesOn)
    }

    /// Takes what happened, so many milliseconds after what happened before, and makes all moves that may come now.
    pub fn take(&mut self, ms: u32, happened: Happened) -> Result<Next, StepFault>
        ensures { IfOk result (λ next. IsEndedIf (Some next) self.new.ledger) }
    {
        self.pass(ms)?;
        match happened {
            Happened::Time => {}
            Happened::Answered {
                writer,
                number,
                answer,
            } => self.hear(writer, number, answer)?,
            Happened::Gone { writer } => self.lose(writer)?,
            Happened::Cancelled => self.give_up(Why::Cancelled)?,
        }
        self.go_on()
    }
}
