//! The record of a run as a scenario.

use crate::driving::job::Job;
use crate::driving::place::number_of;
use std::alloc::Global;
use vss_names::{OutOfMemory, Text};

/// How many answers a writer may give otherwise than ok in a backup: one to each order.
const ORDERS: u32 = 7;

/// The lines of a scenario whose run is the backup: declarations, what writers answered otherwise than ok, the calls that were made, and the time
/// that went by. A report names lines by their numbers. So there are empty lines for answers and calls that may come.
#[derive(Drop)]
pub struct Recorder {
    head: Text,
    answers: Text,
    answers_left: u32,
    calls: Text,
    calls_left: u32,
    ticks: Text,
    /// The number of the next call's line, and that of the next tick's.
    next_call: u32,
    next_tick: u32,
}

/// The lines that declare volumes and writers.
fn declarations(alloc: Global, job: &Job<'_>) -> Result<Text, OutOfMemory> {
    let mut head = Text::copy(alloc, b"scenario 1\n")?;
    for volume in &job.volumes {
        head.add(format!(in alloc; "volume {} 1 0\n", volume.name)?.as_bytes())?;
    }
    for writer in &job.writers {
        head.add(format!(in alloc; "writer {} {}\n", writer.name, writer.document)?.as_bytes())?;
    }
    Ok(head)
}

impl Recorder {
    /// That of a job whose backup makes at most so many calls.
    pub fn new(alloc: Global, job: &Job<'_>, calls: u32) -> Result<Recorder, OutOfMemory> {
        let (volumes, writers) = (number_of(job.volumes.len()), number_of(job.writers.len()));
        let answers = writers.saturating_mul(ORDERS);
        // the first line, the declarations, the answers, and the line `lane backup`
        let next_call = 3u32
            .saturating_add(volumes)
            .saturating_add(writers)
            .saturating_add(answers);
        Ok(Recorder {
            head: declarations(alloc, job)?,
            answers: Text::new(alloc),
            answers_left: answers,
            calls: Text::new(alloc),
            calls_left: calls,
            ticks: Text::new(alloc),
            next_call,
            // the line `lane clock` is between
            next_tick: next_call.saturating_add(calls).saturating_add(1),
        })
    }

    /// Adds a call; its line's number is answered.
    pub fn call(&mut self, alloc: Global, text: &str) -> Result<u32, OutOfMemory> {
        self.calls.add(format!(in alloc; "{text}\n")?.as_bytes())?;
        self.calls_left = self.calls_left.saturating_sub(1);
        let number = self.next_call;
        self.next_call = number.saturating_add(1);
        Ok(number)
    }

    /// Adds so many milliseconds; the line's number is answered.
    pub fn tick(&mut self, alloc: Global, ms: u32) -> Result<u32, OutOfMemory> {
        self.ticks
            .add(format!(in alloc; "tick {ms}\n")?.as_bytes())?;
        let number = self.next_tick;
        self.next_tick = number.saturating_add(1);
        Ok(number)
    }

    /// Adds a line of what a writer answered otherwise than ok.
    pub fn answer(&mut self, alloc: Global, text: &str) -> Result<(), OutOfMemory> {
        self.answers.add(format!(in alloc; "{text}\n")?.as_bytes())?;
        self.answers_left = self.answers_left.saturating_sub(1);
        Ok(())
    }

    /// The scenario.
    pub fn scenario(&self, alloc: Global) -> Result<Text, OutOfMemory> {
        let mut text = Text::copy(alloc, self.head.bytes())?;
        text.add(self.answers.bytes())?;
        for _place in 0..self.answers_left {
            text.add(b"\n")?;
        }
        text.add(b"lane backup\n")?;
        text.add(self.calls.bytes())?;
        for _place in 0..self.calls_left {
            text.add(b"\n")?;
        }
        text.add(b"lane clock\n")?;
        text.add(self.ticks.bytes())?;
        Ok(text)
    }
}
