//! The line that shows on a terminal how far a run is.

use crate::progress::Progress;
use std::alloc::Global;
use std::io::Eprint;
use std::sync::{Arc, Wait};
use std::thread;
use std::thread::{JoinHandle, Threads};
use std::time::{Clock, Duration, Instant};

/// The least time between two lines, in milliseconds.
const PAUSE: u64 = 250;

/// Shows the line again and again, from the first move until the run is over, and then clears it.
fn show<R: Wait + Clock + Eprint>(rt: &R, progress: &Progress) {
    let Ok(mut began) = Instant::now(rt) else {
        return
    };
    let pause = Duration::from_millis(PAUSE);
    let mut shown = began;
    for _ in rt.forever() {
        progress.watcher.park_timeout(rt, pause);
        if progress.is_over() {
            break;
        }
        let Ok(now) = Instant::now(rt) else { continue };
        if !progress.has_begun() {
            began = now;
            shown = now;
        }
        if now.duration_since(shown) >= pause {
            shown = now;
            let seconds = now.duration_since(began).as_secs();
            let _ = eprint!(rt; "\r{progress}, {seconds} s\x1b[K");
        }
    }
    if shown > began {
        let _ = eprint!(rt; "\r\x1b[K");
    }
}

/// Begins to show the line, by a thread of its own.
pub fn begin_to_show<R: Threads + Wait + Clock + Eprint + Copy + Send + 'static>(
    rt: R,
    progress: &Arc<Progress, Global>,
) -> Option<JoinHandle<()>> {
    let shown = Arc::try_clone(progress).ok()?;
    thread::spawn(&rt, move || show(&rt, &shown)).ok()
}
