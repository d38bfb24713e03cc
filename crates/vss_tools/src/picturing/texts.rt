ghost use Rattle.std.specs.Prelude.{◌≤◌, IfOk, vec_len};

use super::bad::Bad;
use super::problem::Problem;
use super::request::Request;
use super::status::Status;
use crate::explaining::line_hint::say_refusal;
use crate::explaining::notes::Notes;
use crate::reading;
use crate::reading::Unread;
use crate::timeline::Refusal;
use io_edge::{InSource, ReadError, read_all};
use scenario::refusal_of;

/// The most bytes of a report, and of a scenario.
const MOST_REPORT: usize = 1_073_741_824;

const MOST_SCENARIO: usize = 16_777_216;

/// What the standard input is called.
const INPUT: &str = "standard input";

/// The scenario, which is empty where there is none, and the report.
#[derive(Drop)]
pub struct Texts<'a> {
    pub scenario: String,
    pub report: String,
    /// The report's file.
    file: &'a str,
}

/// A text of a file that has this wrong.
fn bad(file: &str, line: u64, problem: Problem) -> Bad<'_> {
    Bad {
        file,
        line,
        problem,
    }
}

/// The bytes of a file.
fn bytes_of<'a>(rt: &HostRuntime, file: &'a str, most: usize) -> Result<Vec<u8>, Status<'a>>
    ensures { IfOk result (λ bytes. vec_len bytes ≤ most) }
{
    match reading::bytes_of(rt, file, most) {
        Ok(bytes) => Ok(bytes),
        Err(Unread::OutOfMemory) => Err(Status::OutOfMemory),
        Err(why) => Err(Status::Bad(bad(file, 0, Problem::Unread(why)))),
    }
}

/// The text of a scenario, which has to be one; else it is said why it is none, as `vss` says it.
fn scenario_of<'a>(
    rt: &HostRuntime,
    notes: &mut Notes,
    file: &'a str,
) -> Result<String, Status<'a>> {
    let bytes = bytes_of(rt, file, MOST_SCENARIO)?;
    let refusal = match refusal_of(rt.alloc(), &bytes) {
        Ok(None) => return text_of(file, bytes),
        Ok(Some(refusal)) => refusal,
        Err(_) => return Err(Status::OutOfMemory),
    };
    let _ = say_refusal(notes, &bytes, &refusal);
    let problem = Problem::NoScenario(refusal.cause.reason);
    Err(Status::Bad(bad(file, u64::from(refusal.line), problem)))
}

/// The bytes that come by the standard input.
fn bytes_given(rt: &HostRuntime) -> Result<Vec<u8>, Status<'static>> {
    let mut source = InSource::new(rt.stdin());
    match read_all(rt.alloc(), &mut source, MOST_REPORT) {
        Ok(bytes) => Ok(bytes.into_vec()),
        Err(ReadError::Failed) => Err(Status::Bad(bad(INPUT, 0, Problem::ReadFault))),
        Err(ReadError::TooLong) => {
            Err(Status::Bad(bad(INPUT, 0, Problem::Unread(Unread::TooLong))))
        }
        Err(ReadError::OutOfMemory) => Err(Status::OutOfMemory),
    }
}

/// The text that bytes of a file are.
fn text_of(file: &str, bytes: Vec<u8>) -> Result<String, Status<'_>> {
    match String::from_utf8(bytes) {
        Ok(text) => Ok(text),
        Err(error) => {
            let good = error.utf8_error().valid_up_to();
            let bytes = error.into_bytes();
            let before = bytes.get(..good).unwrap_or(&[]);
            let lines = before.iter().filter(|byte| **byte == b'\n').count() as u64;
            Err(Status::Bad(bad(file, lines.saturating_add(1), Problem::NoText)))
        }
    }
}

impl<'a> Texts<'a> {
    /// Those that are asked for.
    pub fn of(
        rt: &HostRuntime,
        notes: &mut Notes,
        request: &Request<'a>,
    ) -> Result<Texts<'a>, Status<'a>> {
        let Some((scenario, report)) = request.files else {
            return Ok(Texts {
                scenario: String::new(rt.alloc()),
                report: text_of(INPUT, bytes_given(rt)?)?,
                file: INPUT,
            });
        };
        Ok(Texts {
            scenario: scenario_of(rt, notes, scenario)?,
            report: text_of(report, bytes_of(rt, report, MOST_REPORT)?)?,
            file: report,
        })
    }

    /// Why the report has no picture.
    pub fn refused(&self, why: Refusal) -> Bad<'a> {
        bad(self.file, why.line, Problem::Refused(why.fault))
    }
}
