ghost use Rattle.std.specs.Prelude.{◌≡◌, ◌+◌, ◌<◌, ◌≤◌, ◌^◌, None, map, IfErr, OnOk};
ghost use Rattle.vss_tools.specs.Ended.{IsCause, IsRefusal};
ghost use Rattle.vss_tools.specs.Refused.{refusal, refusal_from};

use crate::timeline::axis::Axis;
use crate::timeline::lines::{is_effect, is_move};
use crate::timeline::mark::Mark;
use crate::timeline::picture_error::PictureError;
use crate::timeline::refusal::Refusal;
use crate::timeline::refusing::fault_of;
use crate::timeline::script::Script;
use crate::timeline::span::Span;
use crate::timeline::stage::Stage;
use crate::timeline::words::lines_of;
use std::alloc::Global;
use vss_names::OutOfMemory;

/// A picture of a run: a mark of each line that is drawn, and what lasted.
#[derive(Drop)]
pub struct Picture<'a> {
    /// The marks, in the order of the report.
    pub marks: Vec<Mark<'a>>,
    stage: Stage<'a>,
}

/// How many moves there are after a line, where there are so many before it.
fn moves_after(moves: u64, line: &str) -> u64
    requires { moves + 1 < 2 ^ 64 }
    ensures { result ≤ moves + 1 }
{
    if is_move(line) { moves + 1 } else { moves }
}

/// Whether a line has a mark, where so many moves were made with it.
fn is_drawn(span: Span, moves: u64, line: &str) -> bool {
    if is_move(line) || is_effect(line) {
        return span.from <= moves && moves <= span.to;
    }
    line != "report 1"
}

/// Takes a line of a report that has a mark.
fn take_mark<'a>(
    script: &Script<'a>,
    stage: &mut Stage<'a>,
    marks: &mut Vec<Mark<'a>>,
    line: &'a str,
    moves: u64,
) -> Result<(), OutOfMemory> {
    let mark = stage.draws(script, line, moves)?;
    marks.push(mark)?;
    Ok(())
}

/// Takes a line of a report, with its mark where it has one.
fn take_line<'a>(
    script: &Script<'a>,
    stage: &mut Stage<'a>,
    marks: &mut Vec<Mark<'a>>,
    line: &'a str,
    moves: u64,
    span: Span,
) -> Result<(), OutOfMemory> {
    if is_drawn(span, moves, line) {
        return take_mark(script, stage, marks, line, moves);
    }
    stage.passes(script, line)
}

/// Takes the lines of a report, in order.
fn take_lines<'a>(
    script: &Script<'a>,
    stage: &mut Stage<'a>,
    marks: &mut Vec<Mark<'a>>,
    lines: &[&'a str],
    span: Span,
) -> Result<(), PictureError>
    ensures good { OnOk result (refusal_from script.now 1 (map (λ line. line.now) lines.now) ≡ None) }
    ensures refused { IfErr result (IsRefusal (refusal_from script.now 1 (map (λ line. line.now) lines.now))) }
{
    let mut moves = 0u64;
    for (at, line) in lines.iter().enumerate() {
        match fault_of(script, line) {
            Some(fault) => {
                return Err(PictureError::Refused(Refusal {
                    line: at as u64 + 1,
                    fault,
                }));
            }
            None => {}
        }
        moves = moves_after(moves, line);
        match take_line(script, stage, marks, line, moves, span) {
            Ok(()) => {}
            Err(OutOfMemory) => return Err(PictureError::OutOfMemory),
        }
    }
    Ok(())
}

impl<'a> Picture<'a> {
    /// The picture of these lines of a report, beside its script.
    fn of_lines(
        alloc: Global,
        script: &Script<'a>,
        lines: &[&'a str],
        span: Span,
        axis: Axis,
    ) -> Result<Picture<'a>, PictureError>
        ensures good { OnOk result (refusal_from script.now 1 (map (λ line. line.now) lines.now) ≡ None) }
        ensures refused { IfErr result (IsRefusal (refusal_from script.now 1 (map (λ line. line.now) lines.now))) }
    {
        let mut stage = match Stage::new(alloc, script, lines, span, axis) {
            Ok(stage) => stage,
            Err(OutOfMemory) => return Err(PictureError::OutOfMemory),
        };
        let mut marks = Vec::new(alloc);
        match take_lines(script, &mut stage, &mut marks, lines, span) {
            Ok(()) => {}
            Err(error) => return Err(error),
        }
        match stage.closes() {
            Ok(()) => Ok(Picture { marks, stage }),
            Err(OutOfMemory) => Err(PictureError::OutOfMemory),
        }
    }

    /// The picture of the moves that are asked for, of a report, beside its scenario, which may be empty.
    pub fn of(
        alloc: Global,
        scenario: &'a str,
        report: &'a str,
        span: Span,
        axis: Axis,
    ) -> Result<Picture<'a>, PictureError>
        ensures good { OnOk result (refusal scenario.now report.now ≡ None) }
        ensures refused { IfErr result (IsCause scenario.now report.now) }
    {
        let script = match Script::of(alloc, scenario) {
            Ok(script) => script,
            Err(OutOfMemory) => return Err(PictureError::OutOfMemory),
        };
        let lines = match lines_of(alloc, report) {
            Ok(lines) => lines,
            Err(_) => return Err(PictureError::OutOfMemory),
        };
        Picture::of_lines(alloc, &script, &lines, span, axis)
    }

    /// What lasted.
    pub(crate) fn stage(&self) -> &Stage<'a> {
        &self.stage
    }
}
