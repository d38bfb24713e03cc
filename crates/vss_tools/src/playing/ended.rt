use crate::reading::{Unread, WRITE_FAULT};
use orders::{Replayed, Status, Why};
use scenario::Reason;
use std::fmt;

/// How the program ended.
#[derive(Drop)]
pub enum Ended<'a> {
    /// The words ask for nothing that it does.
    Usage,
    /// A file was not read.
    Unread {
        name: &'a str,
        why: Unread,
    },
    /// The scenario of this file has no device of this name.
    NoDevice {
        scenario: &'a str,
        device: &'a str,
    },
    /// As a call over these two files ended; without an order the second name is empty.
    Called {
        status: Status,
        scenario: &'a str,
        order: &'a str,
        /// Whether the order is a report.
        is_report: bool,
    },
    /// As a replay of a report ended.
    Again {
        replayed: Replayed,
        scenario: &'a str,
        report: &'a str,
    },
    OutOfMemory,
}

/// The status of a call; the same as those of `vss`.
fn code_of(status: Status) -> u8 {
    match status {
        Status::Done => 0,
        Status::ScenarioRefused { .. }
        | Status::OrderRefused { .. }
        | Status::NoReport { .. }
        | Status::MayNotCome { .. } => 3,
        Status::WriteFault => 5,
        Status::DeviceFault => 6,
        Status::OutOfMemory => 7,
    }
}

impl Ended<'_> {
    /// The status with which the program ends; the same as those of `vss`.
    pub fn code(&self) -> u8 {
        match self {
            Ended::Usage => 2,
            Ended::Unread { why, .. } => why.code(),
            Ended::OutOfMemory => 7,
            Ended::NoDevice { .. } => 3,
            Ended::Called { status, .. } => code_of(*status),
            Ended::Again { replayed, .. } => match replayed {
                Replayed::Same => 0,
                Replayed::Differs { .. } | Replayed::ScenarioRefused { .. } => 3,
                Replayed::DeviceFault => 6,
                Replayed::OutOfMemory => 7,
            },
        }
    }
}

/// What a line of an order has to be, where it is refused for this reason.
fn wanted(reason: Reason) -> &'static str {
    match reason {
        Reason::BadCount =>
            "expected one name behind `lane` or `writer`, and nothing behind `provider` or `idle`",
        Reason::BadNumber => "expected a number before `times`",
        Reason::OutOfRange => "expected a number from 1 to 2097152 before `times`",
        Reason::UnknownName => "expected the name of a lane or of a writer of the scenario",
        Reason::NoNewline => "expected a newline at the end",
        Reason::TooMany => "expected at most 2097152 moves in all",
        _ =>
            "expected `lane NAME`, `writer NAME`, `provider` or `idle`, and before it `N times` or nothing",
    }
}

/// Why a move may not come.
fn hindrance(why: Why) -> &'static str {
    match why {
        Why::Blocked => "this move may not come here: its actor has to wait",
        Why::Finished => "this move may not come here: its actor has no move left",
    }
}

/// Writes how a call ended.
fn write_called<W: fmt::Write>(
    f: &mut fmt::Formatter<W>,
    status: Status,
    scenario: &str,
    order: &str,
    is_report: bool,
) -> fmt::Result {
    let place = if is_report { "move" } else { "line" };
    match status {
        Status::Done => f.write_str("done"),
        Status::ScenarioRefused { line, reason } => {
            write!(f, "{scenario}: line {line}: {reason}")
        }
        Status::OrderRefused { line, reason } => {
            write!(f, "{order}: line {line}: {}", wanted(reason))
        }
        Status::NoReport { line } => {
            write!(
                f,
                "{order}: line {line}: expected a line of a report of {scenario}"
            )
        }
        Status::MayNotCome { entry, why } => {
            write!(f, "{order}: {place} {}: {}", entry.place, hindrance(why))
        }
        Status::WriteFault => f.write_str(WRITE_FAULT),
        Status::DeviceFault => f.write_str("device fault"),
        Status::OutOfMemory => f.write_str("out of memory"),
    }
}

/// Writes how a replay ended.
fn write_again<W: fmt::Write>(
    f: &mut fmt::Formatter<W>,
    replayed: &Replayed,
    scenario: &str,
    report: &str,
) -> fmt::Result {
    match replayed {
        Replayed::Same => f.write_str("the same"),
        Replayed::ScenarioRefused { line, reason } => {
            write!(f, "{scenario}: line {line}: {reason}")
        }
        Replayed::Differs { line, wanted } if wanted.is_empty() => {
            write!(f, "{report}: line {line}: expected no more lines")
        }
        Replayed::Differs { line, wanted } => {
            let words = std::str::from_utf8(wanted.bytes()).unwrap_or("another line");
            write!(f, "{report}: line {line}: expected `{words}`")
        }
        Replayed::DeviceFault => f.write_str("device fault"),
        Replayed::OutOfMemory => f.write_str("out of memory"),
    }
}

impl fmt::Display for Ended<'_> {
    fn fmt<W: fmt::Write>(&self, f: &mut fmt::Formatter<W>) -> fmt::Result {
        match self {
            Ended::Usage => f.write_str(
                "usage: orders [with DEVICE read|write|flush N|N..M].. order SCENARIO ORDER | again SCENARIO REPORT | seed N SCENARIO | many [-j JOBS] COUNT SCENARIO",
            ),
            Ended::Unread { name, why } => write!(f, "{name}: {why}"),
            Ended::OutOfMemory => f.write_str("out of memory"),
            Ended::NoDevice { scenario, device } => write!(
                f,
                "{scenario}: expected a device of it, as `NAME.vol`, `NAME.area` or `NAME.shared`, and not `{device}`"
            ),
            Ended::Called {
                status,
                scenario,
                order,
                is_report,
            } => write_called(f, *status, scenario, order, *is_report),
            Ended::Again {
                replayed,
                scenario,
                report,
            } => write_again(f, replayed, scenario, report),
        }
    }
}
