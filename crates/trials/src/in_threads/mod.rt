//! Trials of what runs in threads, and of the service over streams and devices in memory, of which chosen calls fail.
//!
//! Of a call of the service the standard input is what it reads, sixteen bytes a call. What it wrote comes on the standard output. The standard
//! error has the line that `vss` prints, and then how many devices were given back, how often each side failed, and how often the gate was
//! called before and after a step.
//!
//! FAILING is `fails DEVICE CALL NUMBERS ..`, for each device of which calls fail. CALL is `make`, `read`, `write` or `flush`; NUMBERS are
//! those of the calls that fail, counted from 1, as `1,4` or `3-7`; further pairs of CALL and NUMBERS may follow. In place of a device,
//! `source` has `read`, and `sink` has `write`, and `room 20` where it takes twenty bytes.

mod counting_gate;
mod failing;
mod flag;
mod meeting;
mod one_turn;
mod preparing;
mod service;
mod stepping;
mod trial_error;
mod turns;

use counting_gate::CountingGate;
use failing::Failing;
use io_edge::{InSource, OutSink, ReadError, read_all, write_all};
use one_turn::share_turn;
use preparing::prepare_alone;
use scenario::{Scenario, parse};
use service::{Called, call};
use std::alloc::Global;
use std::env;
use std::process::ExitCode;
use std::sync::Wait;
use std::thread::Threads;
use stepping::show_steps;
pub use trial_error::TrialError;
use volume_device::{MemMaker, Store};
use vss_main::{MOST_BYTES, Status};
use vss_names::Text;
use vss_play::Play;

/// The text of the scenario of the rows.
const TEXT_OF_ROWS: &[u8] =
    b"scenario 1\nvolume C 4 4\nlane a\nbegin 25\nstart\nadd C\nsnapshot\nawait\nwrite C 1 fill 7\nimage 1 C 1\nread C 1\nend\n";

/// The words after the program's name, and those after `--`.
fn given(rt: &HostRuntime) -> Result<(Vec<String>, Vec<String>), TrialError> {
    let mut words = Vec::new(rt.alloc());
    let mut more = Vec::new(rt.alloc());
    let mut is_past = false;
    for word in env::args(rt)?.skip(1) {
        if is_past {
            more.push(word)?;
        } else if word.as_str() == "--" {
            is_past = true;
        } else {
            words.push(word)?;
        }
    }
    Ok((words, more))
}

/// The standard input, with one byte more than the service takes at most.
fn input_of(rt: &HostRuntime) -> Result<Text, TrialError> {
    match read_all(rt.alloc(), &mut InSource::new(rt.stdin()), MOST_BYTES + 1) {
        Ok(text) => Ok(text),
        Err(ReadError::OutOfMemory) => Err(TrialError::OutOfMemory),
        Err(_) => Err(TrialError::Streams),
    }
}

/// Passes on what the service wrote, and says what came of it. The status that the service gave.
fn tell(rt: &HostRuntime, called: Result<Called, TrialError>) -> Result<ExitCode, TrialError> {
    let came = called?;
    if came.status != Status::Done {
        let _ = eprintln!(rt; "vss: {}", came.status);
    }
    let _ = eprintln!(rt; "{came}");
    write_all(&mut OutSink::new(rt.stdout()), came.written())?;
    Ok(ExitCode::from(came.status.code()))
}

/// The scenario of a text.
fn scenario_of(alloc: Global, text: &[u8]) -> Result<Scenario, TrialError> {
    if text.len() > MOST_BYTES {
        return Err(TrialError::Scenario);
    }
    Ok(parse(alloc, text)?)
}

/// Actors come to one turn, over devices in memory. Writes how each left, how often the gate was called, and the report.
fn make_turns<R: Threads + Wait + Sync>(
    rt: &HostRuntime,
    threads: &R,
    scenario: Scenario,
) -> Result<(), TrialError> {
    let mut maker = MemMaker::new(rt.alloc(), Vec::new(rt.alloc()));
    let play = Play::new(rt.alloc(), scenario, &Store::Memory, &mut maker)?;
    let gate = CountingGate::new();
    let played = share_turn(rt, threads, play, &gate)?;
    println!(rt; "{gate}")?;
    let report = played.finish(threads, &mut maker)?;
    Ok(write_all(&mut OutSink::new(rt.stdout()), report.bytes())?)
}

/// Makes the rows of single calls.
fn rows<R: Threads + Wait + Sync>(rt: &HostRuntime, threads: &R) -> Result<ExitCode, TrialError> {
    turns::call_in_order(rt, threads)?;
    turns::look_while_a_step_runs(rt, threads)?;
    turns::call_in_threads(rt, threads)?;
    meeting::meet(rt, threads)?;
    make_turns(rt, threads, scenario_of(rt.alloc(), TEXT_OF_ROWS)?)?;
    show_steps(rt, scenario_of(rt.alloc(), TEXT_OF_ROWS)?)?;
    prepare_alone(rt, &scenario_of(rt.alloc(), TEXT_OF_ROWS)?)?;
    Ok(ExitCode::SUCCESS)
}

/// Calls the service with the words that are given, over the standard input.
fn service_called<R: Threads + Wait + Sync>(
    rt: &HostRuntime,
    threads: &R,
) -> Result<ExitCode, TrialError> {
    let (words, more) = given(rt)?;
    let failing = Failing::of_words(rt.alloc(), &more)?;
    let text = input_of(rt)?;
    tell(rt, call(threads, rt.alloc(), &words, text.bytes(), failing))
}

/// The status of what was made. Why it was not made goes to the standard error.
fn status_of(rt: &HostRuntime, made: Result<ExitCode, TrialError>) -> ExitCode {
    match made {
        Ok(status) => status,
        Err(error) => {
            let _ = eprintln!(rt; "trials: {error}");
            ExitCode::from(70)
        }
    }
}

/// Callers of one turn, two lanes that meet, and single calls of a run over a scenario: its first lane, its provider and the lane again come to
/// one turn, one after another, each until it leaves; a core refuses what may not come; a provider prepares a set whose flush fails.
pub fn make_rows<R: Threads + Wait + Sync>(rt: &HostRuntime, threads: &R) -> ExitCode {
    status_of(rt, rows(rt, threads))
}

/// Calls the service with the words that `vss` takes, up to `--`; behind it is what fails.
pub fn call_service<R: Threads + Wait + Sync>(rt: &HostRuntime, threads: &R) -> ExitCode {
    status_of(rt, service_called(rt, threads))
}
