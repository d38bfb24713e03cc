use crate::explaining::near::say_nearest;
use crate::explaining::notes::Notes;
use crate::explaining::piece::Piece::Shown;
use crate::explaining::word_hint::number_of;
use std::alloc::Global;
use volume_device::Planned;
use vss_names::{Numbers, OutOfMemory, Text};

/// The highest number of a call that fails.
const HIGHEST: u32 = 1_000_000;

const CALLS: [&[u8]; 3] = [b"read", b"write", b"flush"];

/// A kind of call of a device.
#[derive(Clone, Copy, PartialEq, Eq)]
enum Call {
    Read,
    Write,
    Flush,
}

/// Calls of a device that fail: of a kind, from one number to another, counted from 1.
#[derive(Clone, Copy)]
pub struct Failing<'a> {
    pub device: &'a str,
    call: Call,
    first: u32,
    last: u32,
}

impl<'a> Failing<'a> {
    /// What three words say: a device, a kind of its calls, and `N` or `N..M`; where they say nothing, it is said which is wrong.
    pub fn of(
        notes: &mut Notes,
        device: &'a str,
        call: &str,
        numbers: &str,
    ) -> Option<Failing<'a>> {
        let (first, last) = numbers.split_once("..").unwrap_or((numbers, numbers));
        let call = match call.as_bytes() {
            b"read" => Call::Read,
            b"write" => Call::Write,
            b"flush" => Call::Flush,
            _ => {
                let form = "`{}` is no call of a device{}";
                let _ = say_nearest(notes, form, call.as_bytes(), &CALLS);
                return None;
            }
        };
        let first = number_of(notes, "the number of a call", first, 1, HIGHEST)?;
        let last = number_of(notes, "the number of a call", last, 1, HIGHEST)?;
        if last < first {
            let form = "`{}` are no calls: the first number is above the last";
            let _ = notes.say(form, &[Shown(numbers.as_bytes())]);
            return None;
        }
        Some(Failing {
            device,
            call,
            first,
            last,
        })
    }

    /// Adds the numbers of these calls to a row.
    fn add_to(self, alloc: Global, row: &mut Planned) -> Result<(), OutOfMemory> {
        let list = match self.call {
            Call::Read => &mut row.reads,
            Call::Write => &mut row.writes,
            Call::Flush => &mut row.flushes,
        };
        let mut numbers = list.items().to_vec(alloc)?;
        for number in self.first..=self.last {
            numbers.push(number)?;
        }
        *list = Numbers::of(numbers);
        Ok(())
    }
}

/// Adds calls that fail to the row of their device, or as a row of its own.
fn add_row(alloc: Global, plan: &mut Vec<Planned>, one: Failing<'_>) -> Result<(), OutOfMemory> {
    for row in plan.iter_mut() {
        if row.name.bytes() == one.device.as_bytes() {
            return one.add_to(alloc, row);
        }
    }
    let mut row = Planned {
        name: Text::copy(alloc, one.device.as_bytes())?,
        refused: false,
        reads: Numbers::new(alloc),
        writes: Numbers::new(alloc),
        flushes: Numbers::new(alloc),
    };
    one.add_to(alloc, &mut row)?;
    plan.push(row)?;
    Ok(())
}

/// The plan of devices of which these calls fail: a row for each device that is named.
pub fn plan_of(alloc: Global, failing: &[Failing<'_>]) -> Result<Vec<Planned>, OutOfMemory> {
    let mut plan = Vec::new(alloc);
    for one in failing {
        add_row(alloc, &mut plan, *one)?;
    }
    Ok(plan)
}
