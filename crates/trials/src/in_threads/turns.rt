//! Callers of one turn: their calls have one order, the front is known while a step runs, and eight threads leave all their calls.

ghost use Rattle.std.specs.Prelude.{◌≡◌, ◌+◌, ◌<◌, length};
ghost use Rattle.std.specs.List.{All};
ghost use Rattle.turn_cell.specs.Callers.{Calls};

use crate::in_threads::flag::seen;
use crate::in_threads::trial_error::TrialError;
use std::alloc::Global;
use std::sync::atomic::AtomicBool;
use std::sync::atomic::Ordering::SeqCst;
use std::sync::{Arc, Wait};
use std::thread;
use std::thread::Threads;
use turn_cell::{Caller, Machine, Turn};
use vss_names::OutOfMemory;

/// A machine that counts its calls and answers the count.
#[derive(Drop)]
struct Counter {
    count: u64,
}

impl Machine for Counter {
    type Call = ();

    type Reply = u64;

    ghost steps = { λ before _ _ reply after. (reply ≡ before.count + 1) × (after.count ≡ reply) };

    fn step(&mut self, _caller: u32, _call: ()) -> Result<u64, OutOfMemory> {
        let next = self.count.checked_add(1).ok_or(OutOfMemory)?;
        self.count = next;
        Ok(next)
    }
}

/// A machine whose step raises one flag, and answers whether it then saw the other.
#[derive(Drop)]
struct Meeting {
    mine: Arc<AtomicBool, Global>,
    other: Arc<AtomicBool, Global>,
}

impl Machine for Meeting {
    type Call = ();

    type Reply = bool;

    ghost steps = { λ _ _ _ _ _. Unit {0} };

    fn step(&mut self, _caller: u32, _call: ()) -> Result<bool, OutOfMemory> {
        self.mine.store(true, SeqCst);
        Ok(seen(&self.other))
    }
}

/// Two callers call one after another, and the first asks for the front.
pub fn call_in_order<R: Wait>(rt: &HostRuntime, handle: &R) -> Result<(), TrialError> {
    let (turn, mut callers) = Turn::new(rt.alloc(), Counter { count: 0 }, 2)?;
    let first = turn.call(handle, &mut callers[0], ())?;
    let second = turn.call(handle, &mut callers[1], ())?;
    let front = turn.front(&mut callers[0]);
    let count = turn.close(callers).count;
    println!(rt;
        "fronts {} {} {front} replies {} {} count {count}",
        first.front, second.front, first.reply, second.reply
    )?;
    Ok(())
}

/// One call, by a caller that comes back.
fn call_once<R: Wait>(
    rt: &R,
    turn: &Turn<Meeting>,
    mut caller: Caller<Meeting>,
) -> (Caller<Meeting>, Option<bool>)
    requires { Calls caller turn.now }
    ensures { Calls result.0 turn.now }
{
    let met = turn
        .call(rt, &mut caller, ())
        .ok()
        .map(|answered| answered.reply);
    (caller, met)
}

/// Waits for the first flag, asks for the front, and raises the second flag.
fn look_meanwhile(
    turn: &Turn<Meeting>,
    mut caller: Caller<Meeting>,
    first: &AtomicBool,
    second: &AtomicBool,
) -> (Caller<Meeting>, bool, u64)
    requires { Calls caller turn.now }
    ensures { Calls result.0 turn.now }
{
    let stepping = seen(first);
    let front = turn.front(&mut caller);
    second.store(true, SeqCst);
    (caller, stepping, front)
}

fn meet<R: Threads + Wait + Sync>(
    rt: &R,
    turn: &Turn<Meeting>,
    stepper: Caller<Meeting>,
    looker: Caller<Meeting>,
    first: &AtomicBool,
    second: &AtomicBool,
) -> (Option<bool>, bool, u64)
    requires { Calls stepper turn.now × Calls looker turn.now }
{
    let ((_, met), (_, stepping, front)) = thread::join(
        rt,
        move || call_once(rt, turn, stepper),
        move || look_meanwhile(turn, looker, first, second),
    );
    (met, stepping, front)
}

/// A caller asks for the front while another caller's step runs.
pub fn look_while_a_step_runs<R: Threads + Wait + Sync>(
    rt: &HostRuntime,
    handle: &R,
) -> Result<(), TrialError> {
    let first = Arc::new(rt.alloc(), AtomicBool::new(false))?;
    let second = Arc::new(rt.alloc(), AtomicBool::new(false))?;
    let machine = Meeting {
        mine: Arc::try_clone(&first)?,
        other: Arc::try_clone(&second)?,
    };
    let (turn, mut callers) = Turn::new(rt.alloc(), machine, 2)?;
    let looker = callers.pop().ok_or(TrialError::Words)?;
    let stepper = callers.pop().ok_or(TrialError::Words)?;
    let (met, stepping, front) = meet(handle, &turn, stepper, looker, &first, &second);
    println!(rt; "stepping {stepping} front {front} met {met:?}")?;
    Ok(())
}

/// Makes so many calls.
fn call_often<R: Wait>(rt: &R, turn: &Turn<Counter>, caller: &mut Caller<Counter>, calls: u32)
    requires { Calls caller.old turn.now }
    ensures { Calls caller.new turn.now }
{
    for _ in 0..calls {
        let _ = turn.call(rt, caller, ());
    }
}

fn all_call<R: Threads + Wait + Sync>(
    rt: &R,
    turn: &Turn<Counter>,
    callers: &mut [Caller<Counter>],
    calls: u32,
)
    requires { (0 < length callers.old) × All (λ caller. Calls caller turn.now) callers.old }
    ensures { All (λ caller. Calls caller turn.now) callers.new }
{
    let count = callers.len();
    thread::for_each_mut(
        rt,
        callers,
        count,
        &|_, caller: &mut Caller<Counter>|
            requires { Calls caller.old turn.now }
            ensures { Calls caller.new turn.entry.now }
        { call_often(rt, turn, caller, calls) },
    );
}

/// Eight threads make a thousand calls each.
pub fn call_in_threads<R: Threads + Wait + Sync>(
    rt: &HostRuntime,
    handle: &R,
) -> Result<(), TrialError> {
    let (turn, mut callers) = Turn::new(rt.alloc(), Counter { count: 0 }, 8)?;
    all_call(handle, &turn, callers.as_mut_slice(), 1_000);
    let front = turn.front(&mut callers[0]);
    let count = turn.close(callers).count;
    println!(rt; "front {front} count {count}")?;
    Ok(())
}
