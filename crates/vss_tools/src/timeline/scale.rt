use crate::timeline::axis::Axis;
use crate::timeline::lines::ticks_of;
use crate::timeline::script::Script;

/// How much farther a mark is from the one before if the clock went on, where columns are moves, in pixels.
const PASSING: u64 = 72;

/// How wide all time is that goes by in a run, where columns are the clock.
const CLOCK: u64 = 1000;

/// The least room of a time, which is seen.
const LEAST: u64 = 6;

/// How wide a time is drawn.
#[derive(Clone, Copy)]
pub struct Scale {
    axis: Axis,
    /// The ticks that go by in the whole run, and 1 if none do.
    all: u64,
}

impl Scale {
    /// That of a run.
    pub fn of(axis: Axis, script: &Script<'_>, report: &[&str]) -> Scale {
        let mut all = 0u64;
        for line in report {
            all = all.saturating_add(ticks_of(script, line));
        }
        Scale {
            axis,
            all: all.max(1),
        }
    }

    /// How many pixels so many ticks take.
    pub fn gap(self, ticks: u64) -> u64 {
        match self.axis {
            _ if ticks == 0 => 0,
            Axis::Moves => PASSING,
            Axis::Clock => (ticks.saturating_mul(CLOCK) / self.all.max(1)).max(LEAST),
        }
    }

    /// How much wider a band may be.
    pub fn more(self) -> u64 {
        match self.axis {
            Axis::Moves => 0,
            Axis::Clock => CLOCK,
        }
    }
}
