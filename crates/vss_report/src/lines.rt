//! The lines of a report, in the order in which a run writes them: the first line, those of each move, the closing lines.

ghost use Rattle.std.specs.Prelude.{◌≡◌, ◌+◌, ◌≤◌, ◌<◌, ◌++◌, length, OnOk, OnErr, IsOk};
ghost use Rattle.std.specs.Fmt.{decimal};
ghost use Rattle.vss_report.specs.Words.{spaced, as_line};
ghost use Rattle.vss_report.specs.Report.{first_line};
ghost use Rattle.vss_report.specs.Legible.{IsLegibleAs};
ghost use Rattle.vss_report.specs.ToldLines.{told_actor, told_text, told_lines, most_bytes, AreLinesOf, AreInRange, HasRowsIfTold, IsActor, IsTold, closing_text, IsClosingRow};

use crate::closing::add_closing;
use crate::effects::{add_all_evicted, add_end, add_losses};
use crate::names::{lane_name, writer_name};
use crate::replies::add_told;
use crate::short::is_short;
use crate::words::{add, add_number, add_spaced_number};
use scenario::Scenario;
use vss_model::{ClosingRow, Lists, Outcome, Told};
use vss_names::{OutOfMemory, Text};
use write_history::{Actor, Move};

/// The most bytes that the lines of a move take that evicts so many images. The first line of a report and a closing line
/// take no more than those of a move that evicts none.
pub fn most_bytes(evicted: usize) -> usize
    requires { evicted ≤ 65536 }
    ensures { result ≡ most_bytes evicted }
{
    16384 + 54 * evicted
}

/// The most bytes that a closing line takes.
const CLOSING_BYTES: usize = 160;

/// Appends who moves; a lane with the number of its line.
fn add_actor(scenario: &Scenario, line: u32, actor: Actor, out: &mut Text)
    requires range { IsActor scenario.now actor }
    requires room { 64 ≤ out.old.spare }
    ensures bytes { out.new.bytes ≡ out.old.bytes ++ told_actor scenario.now line actor }
    ensures spare { out.old.spare ≤ out.new.spare + 64 }
{
    match actor {
        Actor::Lane(lane) => {
            add(out, b"lane ");
            add(out, lane_name(scenario, lane));
            add_spaced_number(out, line as u64);
        }
        Actor::Writer(writer) => {
            add(out, b"writer ");
            add(out, writer_name(scenario, writer));
        }
        Actor::Advance => add(out, b"provider"),
        Actor::Idle => add(out, b"idle"),
    }
}

/// Appends the line of a move, without those of its effects.
fn add_move(
    scenario: &Scenario,
    number: u32,
    line: u32,
    actor: Actor,
    told: Told,
    lists: &Lists<'_>,
    out: &mut Text,
)
    requires actor { IsActor scenario.now «actor» }
    requires told { IsTold scenario.now «told» }
    requires few { length lists.now.listed.now < 513 }
    requires all { HasRowsIfTold scenario.now «told» lists.now.rows.now }
    requires room { 11100 ≤ out.old.spare }
    ensures bytes { out.new.bytes ≡ out.old.bytes
        ++ as_line (decimal number ++ spaced (told_actor scenario.now line «actor») ++ spaced (told_text scenario.now lists.now.listed.now lists.now.rows.now «told»)) }
    ensures spare { out.old.spare ≤ out.new.spare + 11100 }
{
    add_number(out, number as u64);
    add(out, b" ");
    add_actor(scenario, line, actor, out);
    add(out, b" ");
    add_told(scenario, told, lists, out);
    add(out, b"\n");
}

/// Appends the first line of a report.
pub fn opening_line(out: &mut Text) -> Result<(), OutOfMemory>
    ensures ok { OnOk result (out.new.bytes ≡ out.old.bytes ++ first_line) }
    ensures err { OnErr result (out.new ≡ out.old) }
    ensures succeeds { most_bytes 0 ≤ out.old.spare → IsOk result }
{
    out.add(b"report 1\n")
}

/// Appends the line of a move, and those of its effects. `number` counts the moves from 1; `line` is the number of the lane's
/// line, and is not used for another actor. Where the move is legal, its lines tell it and no other.
pub fn move_lines(
    scenario: &Scenario,
    number: u32,
    line: u32,
    item: Move,
    outcome: &Outcome,
    lists: &Lists<'_>,
    out: &mut Text,
) -> Result<(), OutOfMemory>
    requires { AreInRange scenario.now item.actor outcome.now lists.now.listed.now lists.now.evicted.now lists.now.rows.now }
    ensures ok { OnOk result (out.new.bytes ≡ out.old.bytes ++ told_lines scenario.now number line item.actor outcome.now lists.now.listed.now lists.now.evicted.now lists.now.rows.now) }
    ensures report { AreLinesOf scenario.now number line item outcome.now lists.now.listed.now lists.now.evicted.now lists.now.rows.now
        (told_lines scenario.now number line item.actor outcome.now lists.now.listed.now lists.now.evicted.now lists.now.rows.now) }
    ensures legible { IsLegibleAs scenario.now item outcome.now lists.now.listed.now lists.now.evicted.now lists.now.rows.now }
    ensures err { OnErr result (out.new ≡ out.old) }
    ensures succeeds { most_bytes (length lists.now.evicted.now) ≤ out.old.spare → IsOk result }
{
    let _plan = scenario.volumes();
    is_short(outcome, lists);
    out.reserve(most_bytes(lists.evicted.len()))?;
    add_move(scenario, number, line, item.actor, outcome.told, lists, out);
    add_all_evicted(scenario, lists.evicted, out);
    add_losses(scenario, outcome.lost_order, outcome.lost, out);
    add_end(out, outcome.set, outcome.result);
    Ok(())
}

/// Appends a closing line.
pub fn closing_line(
    scenario: &Scenario,
    row: &ClosingRow,
    out: &mut Text,
) -> Result<(), OutOfMemory>
    requires { IsClosingRow scenario.now row.now }
    ensures ok { OnOk result (out.new.bytes ≡ out.old.bytes ++ closing_text scenario.now row.now) }
    ensures err { OnErr result (out.new ≡ out.old) }
    ensures succeeds { most_bytes 0 ≤ out.old.spare → IsOk result }
{
    out.reserve(CLOSING_BYTES)?;
    add_closing(scenario, row, out);
    Ok(())
}
