//! The moves that a report tells, without their marks, and how long it may be.

ghost use Rattle.std.specs.Prelude.{◌≡◌, IfOk};
ghost use Rattle.orders.specs.Again.{without_marks};

use std::alloc::Global;
use vss_names::OutOfMemory;
use write_history::{Mark, Move};

/// The most bytes of an order, and of a report that is replayed.
pub const MOST_BYTES: usize = 1_073_741_824;

/// These moves without their marks.
pub fn unmarked(alloc: Global, moves: &[Move]) -> Result<Vec<Move>, OutOfMemory>
    ensures { IfOk result (λ clean. clean.items ≡ without_marks moves.now) }
{
    let mut clean = Vec::new(alloc);
    for item in moves {
        let item = Move {
            actor: item.actor,
            mark: Mark::Clean,
        };
        match clean.push(item) {
            Ok(()) => {}
            Err(_) => return Err(OutOfMemory),
        }
    }
    Ok(clean)
}
