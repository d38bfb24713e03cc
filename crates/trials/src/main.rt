//! Trials of single crates, and of the service in threads.
//!
//!     trials SUBJECT                    makes the call that each line of the standard input names, and writes what it answered
//!     trials                            likewise, from single calls on; and then the rows of what runs in threads
//!     trials WORDS.. [-- FAILING..]     calls the service with other words, those that `vss` takes: `src/in_threads/mod.rt` has more
//!
//! It is a program for the checks, and promises nothing of its own. Lines of each subject:
//!
//!     # ..                       is passed over, as an empty line is
//!     subject SUBJECT            another subject: `calls`, `cow`, `mirror`, `recover` or `shards`
//!     fails DEVICE CALL NUMBERS ..    calls fail of a device that is made next: `read`, `write` or `flush`, with the numbers of `1,4-7`
//!
//! Whatever a line makes, as `group`, is of zeros. Of a block that is read the byte in each place is shown, or None where they differ; with
//! `recover` and `shards` a number too that it has as eight bytes, the lowest first, again and again.
//!
//! calls: each call that may be out of memory, once with memory at hand; names and digests against outside vectors; devices and streams that fail
//! in mid-stream. `src/calls.rt` has the words. The lines of `stdout` were worked out by hand, or by a script that knows nothing of the program.
//!
//! cow: copy-on-write volumes over the devices `volume0`, `volume1` .. and `area`.
//!
//!     group SLOTS BLOCKS ..     volumes with these numbers of blocks
//!     cut V SET · write V BLOCK BYTE · read V BLOCK · image V SET BLOCK · lend V BLOCK · lend-image V SET BLOCK · drop V SET · revert V SET
//!     flush V · up_to V BLOCK · used_by V SET · used V · images V · used_all · slots · sync
//!     again · again BYTES       takes the group apart, shows the bytes of its catalog, two digits each, in which the volumes are C, D and so on,
//!                               and takes it up again with the lists of this catalog, or of the one of the bytes that are given
//!
//! mirror: a volume with mirrors over the devices `primary`, `mirror0` .. `mirror7`.
//!
//!     volume BLOCKS MIRRORS
//!     write BLOCK BYTE · read BLOCK · cut SET · image SET BLOCK · drop SET
//!     step MIRROR · stale MIRROR · ready · blocks · mirrors · images · flush · flush MIRROR · sync
//!     again                     takes the volume apart, and its primary up again with as many new mirrors
//!     fill BYTE                 writes every block; shows how many writes were Ok
//!     steps MIRROR COUNT        makes so many steps; shows how many copied a block
//!
//! recover: a volume whose newest image writers mend, over the devices `volume`, `area` and `overlay`. A call whose condition is not met is
//! answered `unmet`.
//!
//!     volume BLOCKS SLOTS OVERLAY
//!     write BLOCK PAYLOAD · recover SET WRITER BLOCK PAYLOAD     PAYLOAD is `fill 7` or `stamp 7`
//!     read BLOCK · image SET BLOCK
//!     pre_final SET WRITER FIRST COUNT ..                        with a claim for each three numbers
//!     cut SET · drop SET · revert SET · post_final · window · images · used · overlay_used · flush · sync
//!     again SET ..              takes the volume apart, and up again with these final sets
//!
//! shards: volumes behind locks of their own, each over the devices `volume` and `area`.
//!
//!     volume BLOCKS SLOTS · shards   one volume more, and shards of those since the last such line, all of the size of the last one
//!     draft                      a draft of no parts; the calls are for the last one
//!     fill V BLOCK BYTE [TIMES] · stamp V BLOCK NUMBER [TIMES] · read V BLOCK · image V IMAGE BLOCK · is_held V · number V · cuts · cut NUMBER
//!     collect V · give_back V · has V · record · recorded
//!     gather                     takes the shards out of their locks, and compares them with the journal
//!     threads WRITES CUTS        a writer of each shard, and one who makes cuts of all, in threads; shows each writer's entries
#![tactic(auto)]

mod agendas;
mod blocks;
mod call;
mod calls;
mod content;
mod coordinators;
mod devices;
mod documents;
mod generating;
mod grouped;
mod groups;
mod in_threads;
mod lists;
mod machines;
mod making;
mod mirrored;
mod names;
mod page;
mod plan;
mod recovering;
mod selections;
mod sharded;
mod small_area;
mod stopped;
mod streams;
mod trial;
mod writing;

use in_threads::{call_service, make_rows};
use page::Page;
use std::env;
use std::process::ExitCode;
use std::sync::Wait;
use std::thread::Threads;
use stopped::{Done, Stopped};
use trial::{Subject, Trial};

/// Takes all lines of a text in order.
fn take_lines<R: Threads + Wait + Sync>(
    handle: &R,
    page: &mut Page,
    trial: &mut Trial,
    text: &str,
) -> Done {
    for line in text.lines() {
        trial.take(handle, page, line)?;
    }
    Ok(())
}

/// Takes all lines of the standard input.
fn take_input<R: Threads + Wait + Sync>(
    rt: &HostRuntime,
    handle: &R,
    page: &mut Page,
    subject: Subject,
) -> Done {
    let input = Page::input(rt)?;
    let Ok(text) = str::from_utf8(input.bytes()) else {
        return Err(Stopped);
    };
    let mut trial = Trial::new(rt.alloc(), subject);
    take_lines(handle, page, &mut trial, text)
}

/// Takes all lines, and writes what they made.
fn make_lines<R: Threads + Wait + Sync>(rt: &HostRuntime, handle: &R, subject: Subject) -> Done {
    let mut page = Page::new(rt.alloc());
    let made = take_input(rt, handle, &mut page, subject);
    page.end(rt, made)
}

/// Makes what the words ask for.
fn make<R: Threads + Wait + Sync>(rt: &HostRuntime, handle: &R) -> Result<ExitCode, Stopped> {
    let Some(word) = env::args(rt)?.nth(1) else {
        make_lines(rt, handle, Subject::Calls)?;
        return Ok(make_rows(rt, handle));
    };
    let Some(subject) = Subject::of(word.as_str()) else {
        return Ok(call_service(rt, handle));
    };
    make_lines(rt, handle, subject)?;
    Ok(ExitCode::SUCCESS)
}

fn main(rt: HostRuntime) -> ExitCode {
    match make(&rt, &rt) {
        Ok(status) => status,
        Err(Stopped) => ExitCode::from(70),
    }
}
