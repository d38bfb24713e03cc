use std::alloc::Global;
use vss_names::OutOfMemory;

/// No line of a set that failed has more bytes.
const MOST_BYTES: usize = 80;

/// The sets that failed, by the lines of a report as they are written.
#[derive(Drop)]
pub struct FailedSets {
    /// The line that is being written, as far as it matters.
    line: Vec<u8>,
    names: String,
}

/// Adds what a line says of a set, if it says that it failed.
fn add_line(line: &[u8], names: &mut String) -> Result<(), OutOfMemory> {
    let line = std::str::from_utf8(line).unwrap_or("");
    let Some(set) = line.strip_prefix("= set ") else {
        return Ok(());
    };
    if !set.contains(" failed ") {
        return Ok(());
    }
    let before = if names.is_empty() { "set " } else { ", set " };
    names.push_str(before)?;
    names.push_str(set)?;
    Ok(())
}

impl FailedSets {
    /// Of a report of which nothing is written.
    pub fn new(alloc: Global) -> FailedSets {
        FailedSets {
            line: Vec::new(alloc),
            names: String::new(alloc),
        }
    }

    /// Takes in a byte that was written.
    fn take_byte(&mut self, byte: u8) {
        if byte == b'\n' {
            let _ = add_line(&self.line, &mut self.names);
            self.line.clear();
        } else if self.line.len() < MOST_BYTES {
            let _ = self.line.push(byte);
        }
    }

    /// Takes in bytes that were written.
    pub fn take_in(&mut self, bytes: &[u8]) {
        for byte in bytes {
            self.take_byte(*byte);
        }
    }

    /// The sets, each with its result, in one line; nothing where none failed. Want of memory may leave some out.
    pub fn names(&self) -> &str {
        self.names.as_str()
    }
}
