//! What the calls of one update make together.

ghost use Rattle.std.specs.Prelude.{OnOk};
ghost use Rattle.image_order.specs.Order.{AreBrought, IsNamedOrGone, KeepsImages};

use crate::ordering::{end_in_order, overwrite_in_order};
use crate::passes::Passes;
use crate::state_folder::StateFolder;
use vss_names::Failed;

/// A whole update. At every moment each state that may be found opens to the images from before it, but for those that were evicted. Each marker that
/// may be found has these lines, unless no block was written yet, or all volumes last and there is none. If it is accepted, they have what the jobs
/// ask for.
pub fn an_update_is_whole<E: From<Failed> + Drop, F: StateFolder<E>, J: Drop, P: Passes<E, J>>(
    folder: &mut F,
    passes: &mut P,
    jobs: &mut J,
    lines: &str,
    was_torn: bool,
) -> Result<(), E>
    ensures images { KeepsImages F.StateFolder P.Passes
        jobs.old folder.old passes.old folder.new passes.new }
    ensures transit { IsNamedOrGone F.StateFolder P.Passes
        lines.now was_torn jobs.new folder.old passes.old folder.new passes.new }
    ensures brought { OnOk result (AreBrought P.Passes jobs.old passes.old passes.new) }
{
    overwrite_in_order(folder, passes, jobs, lines, was_torn)?;
    end_in_order(folder, passes, jobs)
}
