//! Files that are read whole, and lines of their texts.

ghost use Rattle.std.specs.Prelude.{◌≤◌, IfOk, vec_len};

use std::fs::File;
use std::io::Read;
use std::{fmt, io};

/// What is said if the standard output failed.
pub const WRITE_FAULT: &str =
    "write fault\n     the standard output took only a first part of the text: is the disk full, or a pipe closed?";

/// Why a file was not read.
#[derive(Clone, Copy)]
pub enum Unread {
    /// A call of the system failed, for this reason.
    Failed(io::Error),
    /// It has more bytes than are read.
    TooLong,
    OutOfMemory,
}

impl Unread {
    /// The status with which a tool ends; the same as those of `vss`.
    pub fn code(self) -> u8 {
        match self {
            Unread::Failed(_) => 4,
            Unread::OutOfMemory => 7,
            Unread::TooLong => 8,
        }
    }
}

impl fmt::Display for Unread {
    fn fmt<W: fmt::Write>(&self, f: &mut fmt::Formatter<W>) -> fmt::Result {
        match self {
            Unread::Failed(error) => write!(f, "could not be read: {error}"),
            Unread::TooLong => f.write_str(
                "too long: a scenario has 16,777,216 bytes at most, a report and an order 1,073,741,824",
            ),
            Unread::OutOfMemory => f.write_str("out of memory"),
        }
    }
}

/// The pieces of a file, one after another.
fn pieces_of(rt: &HostRuntime, name: &str, most: usize) -> Result<Vec<u8>, Unread> {
    let mut file = match File::open(rt, name) {
        Ok(file) => file,
        Err(error) => return Err(Unread::Failed(error)),
    };
    let mut bytes = Vec::new(rt.alloc());
    let mut piece = [0u8; 65_536];
    for _ in 0..u64::MAX {
        let n = match file.read(&mut piece) {
            Ok(n) => n,
            Err(error) => return Err(Unread::Failed(error)),
        };
        if n == 0 {
            return Ok(bytes);
        }
        if most.saturating_sub(bytes.len()) < n {
            return Err(Unread::TooLong);
        }
        if bytes.extend_from_slice(&piece[..n]).is_err() {
            return Err(Unread::OutOfMemory);
        }
    }
    Ok(bytes)
}

/// The bytes of a file, at most so many.
pub fn bytes_of(rt: &HostRuntime, name: &str, most: usize) -> Result<Vec<u8>, Unread>
    ensures { IfOk result (λ bytes. vec_len bytes ≤ most) }
{
    match pieces_of(rt, name, most) {
        Ok(bytes) if bytes.len() <= most => Ok(bytes),
        Ok(_) => Err(Unread::TooLong),
        Err(why) => Err(why),
    }
}

/// The line of a text with this number, from 1, without its newline; empty where the text has fewer.
pub fn line_at(text: &[u8], number: u32) -> &[u8] {
    let mut at = 1u32;
    for line in text.split(|byte| *byte == b'\n') {
        if at == number {
            return line;
        }
        at = at.saturating_add(1);
    }
    &[]
}

/// Whether a line of a report is that of a move.
pub fn is_move(line: &str) -> bool {
    line.as_bytes()
        .first()
        .is_some_and(|byte| byte.is_ascii_digit())
}

/// How many moves a report has.
pub fn moves_in(report: &str) -> usize {
    report.lines().filter(|line| is_move(line)).count()
}
