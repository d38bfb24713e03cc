ghost use Rattle.std.specs.Prelude.{ℕ, ◌≡◌, ◌<◌, ◌≤◌, ◌↔◌, List, Option, None, Some, option_map};
ghost use Rattle.io_edge.specs.Streams.{IfGave};
ghost use Rattle.vss_main.specs.Command.{asked_by, most_for_task, most_bytes_for};
ghost use Rattle.vss_main.specs.Outside.{around};
ghost use Rattle.vss_main.specs.declared.task.Task.TheVariants.{Run};
ghost use Rattle.vss_main.specs.TopCall.{IsDone};
ghost use Rattle.vss_main.specs.Tasks.{IsTask, IsTaskWhereItCan, IsAnswer, IsAnsweredWhereItCan};

use crate::command::Command;
use crate::generating::run_generated;
use crate::inspecting::{inspect, status_of};
use crate::reading::command_of;
use crate::reporting::run_input;
use crate::status::Status;
use crate::task::Task;
use io_edge::{Sink, Source};
use std::alloc::Global;
use std::sync::Wait;
use std::thread::Threads;
use volume_device::Maker;
use vss_names::OutOfMemory;
use vss_play::Gate;

/// Does what a command asks for.
fn run_task<R: Threads + Wait + Sync, S: Source, K: Sink, M: Maker, G: Gate>(
    rt: &R,
    alloc: Global,
    command: Command<'_>,
    source: &mut S,
    sink: &mut K,
    maker: &mut M,
    gate: &G,
) -> Status
    ensures too_long { IfGave (S.left source.old) (S.left source.new) (λ n. (result ≡ Status.TooLong) ↔ (most_for_task command.entry.task < n)) }
    ensures task { IsTask M.Made.Device (λ store. M.tells maker.old store) (option_map (λ s. s.now) command.entry.folder) command.entry.task (around S.Source K.Sink M.Maker source.old source.new sink.old sink.new maker.old maker.new) result }
    ensures answered { IsTaskWhereItCan command.entry.task (around S.Source K.Sink M.Maker source.old source.new sink.old sink.new maker.old maker.new) result }
{
    match command.task {
        Task::Run => run_input(rt, alloc, command.folder, source, sink, maker, gate),
        Task::Generate { number } => {
            run_generated(rt, alloc, number, command.folder, sink, maker, gate)
        }
        Task::Inspect => status_of(inspect(alloc, source, sink)),
    }
}

/// Does what the words ask for. In order: the words, reading, the scenario, the devices, the run, the closing lines, giving the devices
/// back, writing.
///
/// For `run`, at `Done` the bytes written are the report of the run's own legal and complete trail; each kept image of it reads as its
/// volume at its set's one cut, when every writer that took part stood frozen and every volume was held; and of a set that
/// failed nothing is kept. For `gen` they are the summary of the number, and for `inspect` the listing of the area that was read. Every
/// other status has its cause in the words, the input, or a count of faults that rose; want of memory alone has none.
///
/// Each lane, each writer and the provider moves in a thread of its own, and the gate is told before and after each of its turns. The
/// order of the moves is whichever the threads took.
pub fn run<R: Threads + Wait + Sync, S: Source, K: Sink, M: Maker, G: Gate>(
    rt: &R,
    alloc: Global,
    words: &[String],
    source: &mut S,
    sink: &mut K,
    maker: &mut M,
    gate: &G,
) -> Status
    ensures words { (result ≡ Status.Usage) ↔ (asked_by words.now ≡ None) }
    ensures too_long { IfGave (S.left source.old) (S.left source.new) (λ n. (result ≡ Status.TooLong) ↔ (most_bytes_for (asked_by words.now) < n)) }
    ensures done { (folder : Option (List ℕ)) → asked_by words.now ≡ Some (record { task = Run; folder = folder }) → result ≡ Status.Done
        → IsDone M.Made.Device (λ store. M.tells maker.old store) folder
        (around S.Source K.Sink M.Maker source.old source.new sink.old sink.new maker.old maker.new) }
    ensures otherwise { IsAnswer M.Made.Device (λ store. M.tells maker.old store) (asked_by words.now) (around S.Source K.Sink M.Maker source.old source.new sink.old sink.new maker.old maker.new) result }
    ensures completes { IsAnsweredWhereItCan (asked_by words.now) (around S.Source K.Sink M.Maker source.old source.new sink.old sink.new maker.old maker.new) result }
{
    match command_of(alloc, words) {
        Err(OutOfMemory) => Status::OutOfMemory,
        Ok(None) => Status::Usage,
        Ok(Some(command)) => run_task(rt, alloc, command, source, sink, maker, gate),
    }
}
