//! The tool `orders`: runs of a scenario in an order of moves that is given, told by a report, or drawn by a number. What it is
//! given are the names of files.
//!
//!     orders order SCENARIO ORDER     the moves of the order, and then the rest in turn; writes the report
//!     orders again SCENARIO REPORT    replays a report, and compares
//!     orders seed N SCENARIO          in the order that a number draws; writes the report
//!     orders many COUNT SCENARIO      the numbers below a count; writes how the runs came out
//!
//! Before these words, `with DEVICE CALL NUMBERS` lets calls of a device fail, as `with C.vol flush 1` or `with C.area write 3..5`.
//!
//! It reads the files and calls the crate `orders`, whose contracts say what each status means. For a status other than 0 it prints
//! one line to the standard error, with the file and the line that are wrong and what was expected, below it what helps to go on, and ends
//! with the status.

ghost use Rattle.std.specs.Prelude.{◌<◌, ◌≤◌, IfOk, length, vec_len};

mod device_names;
mod drawn;
mod ended;
mod failing;
mod many;
mod outcome;
mod outcomes;
mod request;
mod telling;

use crate::explaining::notes::Notes;
use crate::{reading, words_given};
use device_names::is_device;
use ended::Ended;
use failing::{Failing, plan_of};
use io_edge::OutSink;
use many::outcomes_of;
use orders::{
    MOST_BYTES, Replayed, Status, SureMaker, run_again, run_again_over, run_order, run_seed,
};
use request::{Request, failing_in};
use scenario::{Refused, parse};
use std::thread::Threads;
use telling::{Asked, say_again, say_called};
use volume_device::{Maker, MemMaker};
use vss_play::PlayFault;

/// The most bytes of a scenario, as `vss` takes them.
const MOST_SCENARIO_BYTES: usize = 16_777_216;

/// The bytes of a file, at most so many; none without a name.
fn bytes_of<'a>(rt: &HostRuntime, name: &'a str, most: usize) -> Result<Vec<u8>, Ended<'a>>
    ensures { IfOk result (λ bytes. vec_len bytes ≤ most) }
{
    if name.is_empty() {
        return Ok(Vec::new(rt.alloc()));
    }
    match reading::bytes_of(rt, name, most) {
        Ok(bytes) => Ok(bytes),
        Err(why) => Err(Ended::Unread { name, why }),
    }
}

/// Plays a scenario in the orders of the numbers below a count, and writes how the runs came out.
fn play_many<R: Threads + Sync>(
    rt: &HostRuntime,
    threads: &R,
    text: &[u8],
    failing: &[Failing<'_>],
    count: u32,
    jobs: Option<u32>,
) -> Status
    requires { length text.now < 4294967295 }
{
    match parse(rt.alloc(), text) {
        Ok(_) => {}
        Err(Refused::Line { line, reason }) => return Status::ScenarioRefused { line, reason },
        Err(Refused::OutOfMemory) => return Status::OutOfMemory,
    }
    match outcomes_of(rt, threads, text, failing, count, jobs) {
        Ok(outcomes) => match print!(rt; "{outcomes}") {
            Ok(()) => Status::Done,
            Err(_) => Status::WriteFault,
        },
        Err(PlayFault::Failed) => Status::DeviceFault,
        Err(PlayFault::OutOfMemory) => Status::OutOfMemory,
    }
}

/// Replays a report, and says what helps to go on.
fn play_again<R: Threads + Sync, M: Maker>(
    threads: &R,
    notes: &mut Notes,
    asked: Asked<'_>,
    maker: &mut M,
) -> Replayed
    requires text { length asked.text.now < 4294967295 }
    requires order { length asked.order.now ≤ 1073741824 }
{
    let alloc = notes.alloc();
    let replayed = if asked.failing.is_empty() {
        run_again(threads, alloc, asked.text, asked.order)
    } else {
        run_again_over(threads, alloc, asked.text, asked.order, maker)
    };
    let _ = say_again(notes, asked, &replayed);
    replayed
}

/// Does what is asked for of these texts, over the devices of a maker; many runs have makers of their own.
fn play_texts<'a, R: Threads + Sync, M: Maker>(
    rt: &HostRuntime,
    threads: &R,
    notes: &mut Notes,
    request: Request<'a>,
    asked: Asked<'_>,
    maker: &mut M,
) -> Ended<'a>
    requires text { length asked.text.now < 4294967295 }
    requires order { length asked.order.now ≤ 1073741824 }
{
    let (alloc, text) = (rt.alloc(), asked.text);
    let mut sink = OutSink::new(rt.stdout());
    let status = match request {
        Request::Again { scenario, report } => {
            let replayed = play_again(threads, notes, asked, maker);
            return Ended::Again {
                replayed,
                scenario,
                report,
            };
        }
        Request::Order { .. } => run_order(threads, alloc, text, asked.order, &mut sink, maker),
        Request::Seed { number, .. } => run_seed(threads, alloc, text, number, &mut sink, maker),
        Request::Many { count, jobs, .. } => {
            play_many(rt, threads, text, asked.failing, count, jobs)
        }
    };
    let _ = say_called(notes, asked, status);
    Ended::Called {
        status,
        scenario: request.scenario(),
        order: request.other(),
        is_report: asked.order.starts_with(b"report 1\n"),
    }
}

/// Does what is asked for, over the devices of a maker.
fn play_over<'a, R: Threads + Sync, M: Maker>(
    rt: &HostRuntime,
    threads: &R,
    notes: &mut Notes,
    request: Request<'a>,
    failing: &[Failing<'a>],
    maker: &mut M,
) -> Result<Ended<'a>, Ended<'a>> {
    let text = bytes_of(rt, request.scenario(), MOST_SCENARIO_BYTES)?;
    let order = bytes_of(rt, request.other(), MOST_BYTES)?;
    let asked = Asked {
        text: &text,
        order: &order,
        failing,
    };
    Ok(play_texts(rt, threads, notes, request, asked, maker))
}

/// The first device that is named and that the scenario does not have.
fn unknown_device<'a>(
    rt: &HostRuntime,
    scenario: &'a str,
    failing: &[Failing<'a>],
) -> Result<Option<&'a str>, Ended<'a>> {
    let text = bytes_of(rt, scenario, MOST_SCENARIO_BYTES)?;
    let Ok(read) = parse(rt.alloc(), &text) else {
        return Ok(None);
    };
    for one in failing {
        if !is_device(&read, one.device) {
            return Ok(Some(one.device));
        }
    }
    Ok(None)
}

/// Does what is asked for, over devices of which these calls fail.
fn play_failing<'a, R: Threads + Sync>(
    rt: &HostRuntime,
    threads: &R,
    notes: &mut Notes,
    request: Request<'a>,
    failing: &[Failing<'a>],
) -> Result<Ended<'a>, Ended<'a>> {
    let scenario = request.scenario();
    if let Some(device) = unknown_device(rt, scenario, failing)? {
        return Err(Ended::NoDevice { scenario, device });
    }
    let Ok(plan) = plan_of(rt.alloc(), failing) else {
        return Err(Ended::OutOfMemory);
    };
    let mut maker = MemMaker::new(rt.alloc(), plan);
    play_over(rt, threads, notes, request, failing, &mut maker)
}

/// Does what the words ask for.
fn run<'a, R: Threads + Sync>(
    rt: &HostRuntime,
    threads: &R,
    notes: &mut Notes,
    words: &'a [String],
) -> Ended<'a> {
    let Some((failing, rest)) = failing_in(notes, words) else {
        return Ended::Usage;
    };
    let Some(request) = Request::of(notes, rest) else {
        return Ended::Usage;
    };
    let done = if failing.is_empty() {
        play_over(
            rt,
            threads,
            notes,
            request,
            &[],
            &mut SureMaker::new(rt.alloc()),
        )
    } else {
        play_failing(rt, threads, notes, request, &failing)
    };
    match done {
        Ok(ended) => ended,
        Err(ended) => ended,
    }
}

/// Does what the words of the program ask for, and returns the status.
pub fn play<R: Threads + Sync>(rt: &HostRuntime, threads: &R) -> u8 {
    let words = match words_given(rt) {
        Ok(words) => words,
        Err(_) => Vec::new(rt.alloc()),
    };
    let mut notes = Notes::new(rt.alloc());
    let ended = run(rt, threads, &mut notes, &words);
    if ended.code() != 0 {
        let _ = eprint!(rt; "orders: {ended}\n{}", notes.text());
    }
    ended.code()
}
