//! The program: `vss run` reads a scenario from the standard input and writes the report of its run to the standard output, `vss gen N`
//! runs the generated scenario of a number and writes its summary, and `vss inspect` reads a diff area and writes its listing. Behind
//! `run` and `gen N` a folder may stand, in which the devices are files.
//!
//! It makes the real things and calls `vss_main::run` over them, whose contract says what each status means. For a status other
//! than 0 it prints one line to the standard error, and it ends with the status. At status 6 a further line of each file on which a call failed
//! names the file, the last failed call, and the system's reason. At 6 and 7 the files that the run made are removed. At status 0 the last line
//! on the standard error names the sets that failed, where there are any. On a terminal a line shows how far a run is.
#![tactic(auto)]

mod counted_device;
mod counting_maker;
mod failed_sets;
mod noting_sink;
mod progress;
mod showing;

use counting_maker::CountingMaker;
use failed_sets::FailedSets;
use io_edge::{InSource, OutSink};
use noting_sink::NotingSink;
use progress::Progress;
use showing::begin_to_show;
use std::alloc::Global;
use std::io::{Eprint, IsTerminal};
use std::process::ExitCode;
use std::sync::{Arc, Wait};
use std::thread::Threads;
use std::time::Clock;
use std::{env, io};
use volume_device::HostMaker;
use vss_main::{Status, run};

/// The words after the program's name, the counts of how far a run is, and the maker of its devices.
fn given(rt: &HostRuntime) -> io::Result<(Vec<String>, Arc<Progress, Global>, CountingMaker)> {
    let mut words = Vec::new(rt.alloc());
    for word in env::args(rt)?.skip(1) {
        words.push(word)?;
    }
    let progress = Arc::new(rt.alloc(), Progress::new())?;
    let own = Arc::try_clone(&progress)?;
    let maker = CountingMaker {
        maker: HostMaker::new(rt.clone()?),
        progress: own,
    };
    Ok((words, progress, maker))
}

/// The status where the words, or the maker, could not be had. A word that is no text is no command.
fn refused(error: &io::Error) -> Status {
    match error.kind() {
        io::ErrorKind::InvalidData => Status::Usage,
        _ => Status::OutOfMemory,
    }
}

/// Does what the words ask for. Where that is shown, a line says on the standard error how far it is.
fn done<R: Threads + Wait + Clock + Eprint + Copy + Send + Sync + 'static>(
    rt: R,
    alloc: Global,
    words: &[String],
    streams: (&mut InSource, &mut NotingSink),
    maker: &mut CountingMaker,
    progress: &Arc<Progress, Global>,
    shown: bool,
) -> Status {
    let (source, sink) = streams;
    let line = if shown {
        begin_to_show(rt, progress)
    } else {
        None
    };
    let status = run(&rt, alloc, words, source, sink, maker, &**progress);
    progress.end();
    if let Some(thread) = line {
        thread.join(&rt);
    }
    status
}

/// Says of a device fault which calls failed. Where no run came to its end, removes the files that it made.
fn close(rt: &HostRuntime, maker: &HostMaker, status: Status) {
    if status == Status::DeviceFault {
        for fault in maker.failed_calls().iter() {
            let _ = eprintln!(rt; "     {fault}");
        }
    }
    if let Status::DeviceFault | Status::OutOfMemory = status {
        maker.remove_files();
    }
}

fn main(rt: HostRuntime) -> ExitCode {
    let mut source = InSource::new(rt.stdin());
    let mut sink = NotingSink {
        sink: OutSink::new(rt.stdout()),
        failed: FailedSets::new(rt.alloc()),
    };
    let shown = rt.stderr().is_terminal();
    let (status, maker) = match given(&rt) {
        Ok((words, progress, mut maker)) => {
            let streams = (&mut source, &mut sink);
            let status = done(
                rt,
                rt.alloc(),
                &words,
                streams,
                &mut maker,
                &progress,
                shown,
            );
            (status, Some(maker))
        }
        Err(error) => (refused(&error), None),
    };
    if status != Status::Done {
        let _ = eprintln!(rt; "vss: {status}");
    } else if !sink.failed.names().is_empty() {
        let _ = eprintln!(rt; "vss: {}", sink.failed.names());
    }
    if let Some(counting) = maker {
        close(&rt, &counting.maker, status);
    }
    ExitCode::from(status.code())
}
