//! The end of a lane.
ghost use Rattle.std.specs.Prelude.{◌≡◌, map, IfOk};
ghost use Rattle.scenario.specs.Bounds.{is_begin, is_end, ends_sessions};
ghost use Rattle.scenario.specs.Rows.{lane_plan};
ghost use Rattle.scenario.specs.SoFar.{closed, closed_lane};

use crate::lane::Lane;
use crate::lane_line::LaneLine;
use crate::op::Op;
use std::alloc::Global;
use vss_names::OutOfMemory;

pub(crate) fn is_begin(op: Op) -> bool
    ensures { result ≡ is_begin op }
{
    match op {
        Op::Begin { .. } => true,
        _ => false,
    }
}

fn is_end(op: Op) -> bool
    ensures { result ≡ is_end op }
{
    match op {
        Op::End => true,
        _ => false,
    }
}

/// Whether each `begin` has an `end` after it.
fn ends_sessions(lines: &[LaneLine]) -> bool
    ensures { result ≡ ends_sessions lines.now }
{
    let mut stands = false;
    for line in lines {
        if is_begin(line.op) {
            stands = true;
        } else if is_end(line.op) {
            stands = false;
        }
    }
    !stands
}

/// The lines of a lane with the `end` that it has not written.
fn closed(lines: Vec<LaneLine>) -> Result<Vec<LaneLine>, OutOfMemory>
    ensures { IfOk result (λ all. all.items ≡ closed lines.items) }
{
    let mut lines = lines;
    if ends_sessions(&lines) {
        return Ok(lines);
    }
    lines.push(LaneLine {
        number: 0,
        op: Op::End,
    })?;
    Ok(lines)
}

/// A lane with the `end` that it has not written.
fn closed_lane(lane: Lane) -> Result<Lane, OutOfMemory>
    ensures { IfOk result (λ all. lane_plan all ≡ closed_lane (lane_plan lane)) }
{
    let Lane {
        name,
        acts_as,
        lines,
    } = lane;
    let lines = closed(lines)?;
    Ok(Lane {
        name,
        acts_as,
        lines,
    })
}

/// All lanes with the `end` lines that they have not written.
pub(crate) fn closed_lanes(alloc: Global, lanes: Vec<Lane>) -> Result<Vec<Lane>, OutOfMemory>
    ensures { IfOk result (λ all. map lane_plan all.items ≡ map closed_lane (map lane_plan lanes.items)) }
{
    let mut all = Vec::new(alloc);
    for lane in lanes {
        all.push(closed_lane(lane)?)?;
    }
    Ok(all)
}
