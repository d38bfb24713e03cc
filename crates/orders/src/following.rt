//! The moves of an order or of a report, made one after another.

ghost use Rattle.std.specs.Prelude.{OnOk};
ghost use Rattle.orders.specs.Again.{IsFollowedFar, IsMade};
ghost use Rattle.orders.specs.Followed.{IsFollowed};

use crate::entry::Entry;
use crate::halted::Halted;
use crate::why::Why;
use std::alloc::Global;
use volume_device::Device;
use vss_names::OutOfMemory;
use vss_play::{Moved, Play};
use write_history::Move;

/// Makes the moves that are asked for, in order, up to the first that may not come. Want of memory leaves the moves that were made.
pub fn follow<D: Device>(alloc: Global, play: &mut Play<D>, entries: &[Entry]) -> Result<(), Halted>
    ensures { IsFollowed D.Device play.old play.new entries.now result }
{
    for entry in entries {
        match play.step(alloc, entry.actor) {
            Ok(Moved::Moved) => {}
            Ok(Moved::Blocked) => {
                return Err(Halted::At {
                    entry: *entry,
                    why: Why::Blocked,
                });
            }
            Ok(Moved::Finished) => {
                return Err(Halted::At {
                    entry: *entry,
                    why: Why::Finished,
                });
            }
            Err(_) => return Err(Halted::OutOfMemory),
        }
    }
    Ok(())
}

/// Makes a move with its mark, or answers false where it may not come.
fn make<D: Device>(alloc: Global, play: &mut Play<D>, item: Move) -> Result<bool, OutOfMemory>
    ensures { IsMade D.Device play.old play.new item result }
{
    match play.step_marked(alloc, item) {
        Ok(Moved::Moved) => Ok(true),
        Ok(Moved::Blocked) => Ok(false),
        Ok(Moved::Finished) => Ok(false),
        Err(_) => Err(OutOfMemory),
    }
}

/// Makes these moves, in order, with their marks, as far as they may come.
pub fn follow_far<D: Device>(
    alloc: Global,
    play: &mut Play<D>,
    moves: &[Move],
) -> Result<(), OutOfMemory>
    ensures { OnOk result (IsFollowedFar D.Device play.old play.new moves.now) }
{
    for item in moves {
        let has_moved = make(alloc, play, *item)?;
        if !has_moved {
            let _facts = play.lanes();
            return Ok(());
        }
    }
    Ok(())
}
