use crate::in_threads::TrialError;
use crate::stopped::{Done, Stopped};
use std::alloc::Global;
use volume_device::Planned;
use vss_names::{Numbers, Text};

/// The highest number of a call that fails.
const HIGHEST: u32 = 1_000_000;

/// Which calls fail of the devices that are made next.
#[derive(Drop)]
pub struct Plan {
    alloc: Global,
    rows: Vec<Planned>,
}

/// The numbers of `1,4-7`.
pub fn numbers_of(alloc: Global, text: &str) -> Result<Numbers, TrialError> {
    let mut numbers = Vec::new(alloc);
    for range in text.split(',') {
        let (first, last) = range.split_once('-').unwrap_or((range, range));
        for number in first.parse::<u32>()?..=last.parse::<u32>()?.min(HIGHEST) {
            numbers.push(number)?;
        }
    }
    Ok(Numbers::of(numbers))
}

/// A row of a plan by which no call fails.
pub fn unfailing(alloc: Global, name: &str) -> Result<Planned, TrialError> {
    Ok(Planned {
        name: Text::copy(alloc, name.as_bytes())?,
        refused: false,
        reads: Numbers::new(alloc),
        writes: Numbers::new(alloc),
        flushes: Numbers::new(alloc),
    })
}

/// Lets calls fail of the device of a row: their kind, `read`, `write` or `flush`, and their numbers.
fn fail(row: &mut Planned, kind: &str, numbers: Numbers) -> Done {
    match kind {
        "read" => row.reads = numbers,
        "write" => row.writes = numbers,
        "flush" => row.flushes = numbers,
        _ => return Err(Stopped),
    }
    Ok(())
}

/// The row of `DEVICE CALL NUMBERS ..`.
fn row_of(alloc: Global, words: &str) -> Result<Planned, Stopped> {
    let mut words = words.split(' ');
    let mut row = unfailing(alloc, words.next().ok_or(Stopped)?)?;
    let mut kind = None;
    for word in words {
        match kind.take() {
            Some(kind) => fail(&mut row, kind, numbers_of(alloc, word)?)?,
            None => kind = Some(word),
        }
    }
    match kind {
        Some(_) => Err(Stopped),
        None => Ok(row),
    }
}

impl Plan {
    /// No call fails.
    pub fn none(alloc: Global) -> Plan {
        Plan {
            alloc,
            rows: Vec::new(alloc),
        }
    }

    /// From now on no call fails.
    pub fn clear(&mut self) {
        self.rows.clear();
    }

    /// Calls of a device fail: `DEVICE CALL NUMBERS`, as `area read 1,4-7`, and as many kinds more.
    pub fn add(&mut self, words: &str) -> Done {
        self.rows.push(row_of(self.alloc, words)?)?;
        Ok(())
    }

    /// Takes out the first row of a device with this name.
    pub fn row(&mut self, name: &str) -> Result<Planned, Stopped> {
        for place in 0..self.rows.len() {
            if self.rows[place].name.bytes() == name.as_bytes() {
                return Ok(self.rows.swap_remove(place));
            }
        }
        Ok(unfailing(self.alloc, name)?)
    }
}
