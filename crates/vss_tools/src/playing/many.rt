//! Many runs of a scenario side by side, each in the order that a number draws.

ghost use Rattle.std.specs.Prelude.{◌<◌, ◌≤◌, length};

use super::drawn::Drawn;
use super::failing::{Failing, plan_of};
use super::outcome::outcome_of;
use super::outcomes::Outcomes;
use orders::{SureMaker, report_of_seed};
use scenario::{Scenario, parse};
use std::alloc::Global;
use std::io::IsTerminal;
use std::thread;
use std::thread::Threads;
use volume_device::MemMaker;
use vss_names::{OutOfMemory, Text};
use vss_play::PlayFault;

/// How many runs are made before their outcomes are counted.
const ROUND: u32 = 64;

/// The scenario of a text.
fn scenario_of(alloc: Global, text: &[u8]) -> Result<Scenario, PlayFault>
    requires { length text.now < 4294967295 }
{
    match parse(alloc, text) {
        Ok(scenario) => Ok(scenario),
        Err(_) => Err(PlayFault::OutOfMemory),
    }
}

/// The report of the run that a number draws, over devices of which these calls fail.
fn report_of<R: Threads + Sync>(
    rt: &R,
    alloc: Global,
    scenario: Scenario,
    failing: &[Failing<'_>],
    number: u32,
) -> Result<Text, PlayFault> {
    if failing.is_empty() {
        return report_of_seed(rt, alloc, scenario, number, &mut SureMaker::new(alloc));
    }
    let Ok(plan) = plan_of(alloc, failing) else {
        return Err(PlayFault::OutOfMemory);
    };
    report_of_seed(rt, alloc, scenario, number, &mut MemMaker::new(alloc, plan))
}

/// How the run comes out that a number draws.
fn outcome_of_seed<R: Threads + Sync>(
    rt: &R,
    alloc: Global,
    text: &[u8],
    failing: &[Failing<'_>],
    number: u32,
) -> Result<String, PlayFault>
    requires { length text.now < 4294967295 }
{
    let scenario = scenario_of(alloc, text)?;
    let played = scenario_of(alloc, text)?;
    let report = report_of(rt, alloc, played, failing, number)?;
    let report = std::str::from_utf8(report.bytes()).unwrap_or("");
    match outcome_of(alloc, &scenario, report) {
        Ok(outcome) => Ok(outcome),
        Err(_) => Err(PlayFault::OutOfMemory),
    }
}

/// How many threads run at one time: as many as jobs are asked for, or as there are processors.
fn threads_of<R: Threads>(rt: &R, jobs: Option<u32>) -> usize
    ensures { 1 ≤ result }
{
    if let Some(count) = jobs {
        return (count as usize).max(1);
    }
    match thread::available_parallelism(rt) {
        Ok(count) => count.get(),
        Err(_) => 1,
    }
}

/// Makes these runs.
fn make_round<R: Threads + Sync>(
    rt: &R,
    alloc: Global,
    text: &[u8],
    failing: &[Failing<'_>],
    jobs: Option<u32>,
    runs: &mut [Drawn],
)
    requires { length text.now < 4294967295 }
{
    thread::for_each_mut(
        rt,
        runs,
        threads_of(rt, jobs),
        &|_i, run: &mut Drawn|
            requires { length text.now < 4294967295 }
        {
            run.outcome = outcome_of_seed(rt, alloc, text, failing, run.number);
        },
    );
}

/// So many runs to be made, of the numbers from one on.
fn runs_from(alloc: Global, first: u32, count: u32) -> Result<Vec<Drawn>, OutOfMemory> {
    let mut runs = Vec::with_capacity(alloc, count as usize)?;
    for place in 0..count {
        runs.push(Drawn {
            number: first.saturating_add(place),
            outcome: Err(PlayFault::OutOfMemory),
        })?;
    }
    Ok(runs)
}

/// Shows on a terminal how many runs are made, or clears that line.
fn show(host: &HostRuntime, made: u32, count: u32) {
    if host.stderr().is_terminal() {
        let _ = if made < count {
            eprint!(host; "\rorders: {made} of {count} runs ")
        } else {
            eprint!(host; "\r{:40}\r", "")
        };
    }
}

/// The outcomes of the runs that the numbers below a count draw, in so many jobs.
pub fn outcomes_of<R: Threads + Sync>(
    host: &HostRuntime,
    rt: &R,
    text: &[u8],
    failing: &[Failing<'_>],
    count: u32,
    jobs: Option<u32>,
) -> Result<Outcomes, PlayFault>
    requires { length text.now < 4294967295 }
{
    let alloc = host.alloc();
    let mut outcomes = Outcomes::new(alloc);
    let mut first = 0u32;
    for _round in 0..count.div_ceil(ROUND) {
        let some = ROUND.min(count.saturating_sub(first));
        let Ok(mut runs) = runs_from(alloc, first, some) else {
            return Err(PlayFault::OutOfMemory);
        };
        make_round(rt, alloc, text, failing, jobs, runs.as_mut_slice());
        for run in runs {
            if outcomes.add(run.number, run.outcome?).is_err() {
                return Err(PlayFault::OutOfMemory);
            }
        }
        first = first.saturating_add(some);
        show(host, first, count);
    }
    Ok(outcomes)
}
