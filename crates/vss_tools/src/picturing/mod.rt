//! The tool `timeline`: draws a picture of a run, of the report of `vss`.
//!
//! `timeline SCENARIO REPORT` reads the two files and writes a drawing (SVG) to the standard output; without the two names it
//! reads the report alone from the standard input. Before them, `--text` asks for lines for a terminal, `--clock` for a drawing whose
//! columns are the clock, `--from N` and `--to N` for the moves from N on and up to N, `--overview` for a drawing of them that fits a
//! screen. `timeline::draw` has what the picture promises. For a status other than 0 a line goes to the standard error, and below it what
//! helps to go on.

mod bad;
mod overview;
mod problem;
mod request;
mod status;
mod texts;

use crate::explaining::byte_hint::say_line;
use crate::explaining::notes::Notes;
use crate::reading::moves_in;
use crate::timeline::{Ended, Fault, Refusal, Run, Span, draw};
use crate::words_given;
use io_edge::OutSink;
use overview::overview_of;
use request::Request;
use status::Status;
use texts::Texts;

/// Of an empty report.
const NO_LINE: Refusal = Refusal {
    line: 1,
    fault: Fault::NoLine,
};

/// Why the report has no picture; what helps to go on is said.
fn refused<'a>(notes: &mut Notes, texts: &Texts<'a>, why: Refusal) -> Status<'a> {
    if let Ok(line) = u32::try_from(why.line) {
        let _ = say_line(notes, texts.report.as_bytes(), line);
    }
    let _ = notes.add(match why.fault {
        Fault::NoLine => "a report is what `./vss run < SCENARIO` writes: are two files swapped?",
        _ => "is it a report of this scenario, as the program wrote it?",
    });
    Status::Bad(texts.refused(why))
}

/// Draws what was read.
fn drawn<'a>(
    rt: &HostRuntime,
    notes: &mut Notes,
    request: &Request<'a>,
    texts: &Texts<'a>,
) -> Status<'a> {
    let mut sink = OutSink::new(rt.stdout());
    let run = Run {
        name: request.name(),
        scenario: texts.scenario.as_str(),
        report: texts.report.as_str(),
        span: request.span,
        axis: request.axis,
    };
    match draw(rt.alloc(), request.form, run, &mut sink) {
        Ended::Written => Status::Done,
        Ended::Refused(why) => refused(notes, texts, why),
        Ended::WriteFault => Status::WriteFault,
        Ended::OutOfMemory => Status::OutOfMemory,
    }
}

/// Draws an overview of these moves of a report.
fn overviewed(rt: &HostRuntime, report: &str, span: Span) -> Status<'static> {
    let Ok(notes) = overview_of(rt.alloc(), report, span) else {
        return Status::OutOfMemory;
    };
    match rt.print(notes.text()) {
        Ok(()) => Status::Done,
        Err(_) => Status::WriteFault,
    }
}

/// Does what the words ask for, and says what helps to go on where they ask for nothing.
fn run<'a>(rt: &HostRuntime, notes: &mut Notes, words: &'a [String]) -> Status<'a> {
    let Some(request) = Request::of(notes, words) else {
        return Status::Usage;
    };
    let texts = match Texts::of(rt, notes, &request) {
        Ok(texts) => texts,
        Err(status) => return status,
    };
    let report = texts.report.as_str();
    if !report.starts_with("report 1") {
        return refused(notes, &texts, NO_LINE);
    }
    let (span, moves) = (request.span, moves_in(report) as u64);
    if span.to < span.from || moves.max(1) < span.from {
        return Status::NoMoves { span, moves };
    }
    if request.is_overview {
        let to = span.to.min(moves);
        return overviewed(rt, report, Span { to, ..span });
    }
    drawn(rt, notes, &request, &texts)
}

/// Draws what the words of the program ask for, and returns the status.
pub fn draw_picture(rt: &HostRuntime) -> u8 {
    let words = words_given(rt);
    let mut notes = Notes::new(rt.alloc());
    let status = match &words {
        Ok(words) => run(rt, &mut notes, words),
        Err(_) => Status::OutOfMemory,
    };
    if !status.is_done() {
        let _ = eprint!(rt; "timeline: {status}\n{}", notes.text());
    }
    status.code()
}
