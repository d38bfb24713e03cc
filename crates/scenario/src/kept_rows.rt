//! What one line more changes in the lists that are kept.
ghost use Rattle.std.specs.Prelude.{◌≡◌, ◌<◌, ◌≤◌, map, find, slice_get, vec_len, None, OnOk};
ghost use Rattle.writer_calls.specs.Script.{is_row_for};
ghost use Rattle.scenario.specs.Plan.{script_in};
ghost use Rattle.scenario.specs.SoFar.{with_group, with_area_group, with_answer, with_line};
ghost use Rattle.scenario.specs.Rows.{writer_plan, lane_plan};

use crate::area_row::AreaRow;
use crate::group_row::GroupRow;
use crate::lane::Lane;
use crate::lane_line::LaneLine;
use crate::writer::Writer;
use vss_names::OutOfMemory;
use writer_calls::Scripted;

/// Appends the group of a declared area that has none.
pub(crate) fn add_group(groups: &mut Vec<GroupRow>, area: AreaRow) -> Result<(), OutOfMemory>
    ensures { OnOk result (groups.new.items ≡ with_group area groups.old.items) }
{
    if area.group.is_none() {
        groups.push(GroupRow {
            name: area.name,
            slots: area.slots,
        })?;
    }
    Ok(())
}

/// Gives a declared area its group.
pub(crate) fn set_group(areas: &mut Vec<AreaRow>, a: u32, area: AreaRow, group: u32)
    requires { a < vec_len areas.old }
    ensures { areas.new.items ≡ with_area_group a area group areas.old.items }
{
    areas[a as usize] = AreaRow {
        name: area.name,
        slots: area.slots,
        group: Some(group),
    };
}

/// Appends a row to the script of a writer.
pub(crate) fn add_answer(
    writers: &mut Vec<Writer>,
    w: u32,
    row: Scripted,
) -> Result<(), OutOfMemory>
    requires known { w < vec_len writers.old }
    requires nth { row.nth ≤ 2000 }
    requires new { find (is_row_for row.order row.nth) (script_in (slice_get (map writer_plan writers.old.items) w)) ≡ None }
    ensures { OnOk result (map writer_plan writers.new.items ≡ with_answer w row (map writer_plan writers.old.items)) }
{
    writers[w as usize].script.add(row)?;
    Ok(())
}

/// Appends a line to the last lane.
pub(crate) fn add_line(lanes: &mut Vec<Lane>, line: LaneLine) -> Result<(), OutOfMemory>
    requires { 0 < vec_len lanes.old }
    ensures { OnOk result (map lane_plan lanes.new.items ≡ with_line line (map lane_plan lanes.old.items)) }
{
    let last = lanes.len() - 1;
    lanes[last].lines.push(line)?;
    Ok(())
}
