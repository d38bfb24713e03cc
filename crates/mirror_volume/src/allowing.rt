//! Which commands may be given.

ghost use Rattle.std.specs.Prelude.{◌≡◌, ◌<◌, ◌≤◌, ◌-◌, ◌∷◌, ◌↔◌, List, All, length, IfSome, IsSome, IsNone, IsTrue};
ghost use Rattle.mirror_volume.specs.declared.command.Command.{Command as Given};
ghost use Rattle.mirror_volume.specs.Replies.{AreAllowed, MayBeGiven};

use crate::command::Command;
use vss_names::MOST_IMAGES;

/// What is left as it is, where the block is one of so many.
fn within(blocks: u32, newest: u32, room: u32, block: u32) -> Option<(u32, u32)>
    ensures left { IfSome result (λ left. (left.0 ≡ newest) × (left.1 ≡ room)) }
    ensures low { IsSome result ↔ (block < blocks) }
{
    if block >= blocks {
        return None;
    }
    Some((newest, room))
}

/// What is left for further commands after one: the greatest set, and for how many cuts there is room. None where the command may
/// not be given to a volume of so many blocks.
fn after_command(blocks: u32, newest: u32, room: u32, command: Command) -> Option<(u32, u32)>
    ensures allows { IfSome result (λ left. (rest : List Given) → AreAllowed blocks left.0 left.1 rest → AreAllowed blocks newest room (command ∷ rest)) }
    ensures leaves { IfSome result (λ left. (rest : List Given) → AreAllowed blocks newest room (command ∷ rest) → AreAllowed blocks left.0 left.1 rest) }
    ensures refuses { IsNone result → (rest : List Given) → ¬ AreAllowed blocks newest room (command ∷ rest) }
{
    match command {
        Command::Write { block, .. } => within(blocks, newest, room, block),
        Command::Read { block } => within(blocks, newest, room, block),
        Command::Image { block, .. } => within(blocks, newest, room, block),
        Command::Drop { .. } => Some((newest, room)),
        Command::Cut { set } => {
            if set <= newest {
                return None;
            }
            if room == 0 {
                return None;
            }
            Some((set, room - 1))
        }
    }
}

/// Whether these commands may be given to a volume of so many blocks that has images of these sets, none of them past `newest`.
pub fn may_be_given(blocks: u32, sets: &[u32], newest: u32, commands: &[Command]) -> bool
    ensures may { IsTrue result → MayBeGiven blocks sets.now commands.now }
    ensures exact { length sets.now ≤ MOST_IMAGES → All (λ s. s ≤ newest) sets.now → AreAllowed blocks newest (MOST_IMAGES - length sets.now) commands.now → IsTrue result }
{
    if sets.len() > MOST_IMAGES {
        return false;
    }
    if !sets.iter().all(|set| *set <= newest) {
        return false;
    }
    let mut greatest = newest;
    let mut room = (MOST_IMAGES - sets.len()) as u32;
    for command in commands {
        let Some(left) = after_command(blocks, greatest, room, *command) else {
            return false;
        };
        greatest = left.0;
        room = left.1;
    }
    true
}
