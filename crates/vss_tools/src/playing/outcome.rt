//! How a run came out, by its report: the result of each set, which images are kept, and which lines of the lanes were refused.

ghost use Rattle.std.specs.Prelude.{◌<◌, length};

use scenario::Scenario;
use std::alloc::{AllocError, Global};

/// Whether a reply refuses.
fn refuses(reply: &str) -> bool {
    reply.starts_with("VSS_E_") || reply == "NOT_SELECTABLE" || reply.starts_with("fault")
}

/// The number of the line and the reply, in a move of the lane with this name that was refused.
fn refused<'a>(line: &'a str, name: &str) -> Option<(&'a str, &'a str)> {
    let (_number, actor) = line.split_once(' ')?;
    let (line, reply) = actor
        .strip_prefix("lane ")?
        .strip_prefix(name)?
        .strip_prefix(" ")?
        .split_once(' ')?;
    if refuses(reply) {
        Some((line, reply))
    } else {
        None
    }
}

/// Appends these pieces and a newline.
fn add_line(out: &mut String, pieces: &[&str]) -> Result<(), AllocError> {
    for piece in pieces {
        out.push_str(piece)?;
    }
    out.push_str("\n")?;
    Ok(())
}

/// Appends how each set ended, and which images are kept.
fn add_sets(report: &str, out: &mut String) -> Result<(), AllocError> {
    for line in report.lines() {
        if let Some(ended) = line.strip_prefix("= set ") {
            add_line(out, &["set ", ended])?;
        }
    }
    for line in report.lines() {
        if let Some(image) = line.strip_prefix("image ") {
            let (image, _digest) = image.rsplit_once(' ').unwrap_or((image, ""));
            add_line(out, &["image ", image])?;
        }
    }
    Ok(())
}

/// The name of a lane.
fn lane_name(scenario: &Scenario, lane: u32) -> &str
    requires { lane < length scenario.now.lanes }
{
    let _count = scenario.lanes();
    std::str::from_utf8(scenario.token(scenario.lane_name(lane))).unwrap_or("")
}

/// How the run of a report came out; its lines are in the order of the lanes.
pub fn outcome_of(alloc: Global, scenario: &Scenario, report: &str) -> Result<String, AllocError> {
    let mut out = String::new(alloc);
    add_sets(report, &mut out)?;
    for lane in 0..scenario.lanes() {
        let name = lane_name(scenario, lane);
        for line in report.lines() {
            if let Some((number, reply)) = refused(line, name) {
                add_line(&mut out, &["line ", number, " of ", name, " ", reply])?;
            }
        }
    }
    Ok(out)
}
