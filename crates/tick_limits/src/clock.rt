ghost use Rattle.std.specs.Prelude.{◌≡◌, ◌+◌, ◌<◌, ◌≤◌, ◌↔◌, Some, codes, IsErr, OnErr, OnOk};
ghost use Rattle.tick_limits.specs.Time.{IsLeastToSpend, answer_limit, is_spent, last_tick, ticks_until};

use crate::limits;
use std::error::Error;
use std::fmt;
use std::marker::Model;

const LAST_TICK: u64 = 1 << 63;

/// The clock would pass its last tick, number 2^63. It stays where it is.
#[derive(Clone, Copy, Debug, PartialEq, Eq)]
pub struct ClockFull;

impl fmt::Display for ClockFull {
    ghost output = { λ _. Some (codes "clock full") };

    fn fmt<W: fmt::Write>(&self, f: &mut fmt::Formatter<W>) -> fmt::Result {
        f.write_str("clock full")
    }
}

impl Error for ClockFull {}

/// A clock that goes on only where it is told to. Contracts see its number of ticks.
#[derive(Debug, Drop)]
pub struct Clock {
    ticks: u64,
}

impl Model for Clock {
    ghost use Rattle.std.specs.Prelude.{ℕ, ◌≤◌};
    ghost use Rattle.tick_limits.specs.Time.{last_tick};

    ghost Value = { ℕ };

    ghost view = { λ c. c.ticks };

    ghost invariant = { λ c. c.ticks ≤ last_tick };
}

impl Clock {
    /// A clock at tick 0.
    pub fn new() -> Clock
        ensures { result ≡ 0 }
    {
        Clock { ticks: 0 }
    }

    /// The number of ticks gone by since the clock was made.
    pub fn now(&self) -> u64
        ensures ticks { result ≡ self.now }
        ensures in_range { result ≤ last_tick }
    {
        self.ticks
    }

    /// Goes on by `n` ticks.
    pub fn advance(&mut self, n: u64) -> Result<(), ClockFull>
        ensures full { IsErr result ↔ (last_tick < self.old + n) }
        ensures ok { OnOk result (self.new ≡ self.old + n) }
        ensures err { OnErr result (self.new ≡ self.old) }
    {
        if n > LAST_TICK - self.ticks {
            return Err(ClockFull);
        }
        self.ticks += n;
        Ok(())
    }

    /// Whether a limit that runs since the tick `since` is spent by now. Elapsed ticks equal to the limit do not
    /// spend it yet.
    pub fn spent(&self, since: u64, limit: u64) -> bool
        requires begun { since ≤ self.now }
        requires limited { limit ≤ answer_limit }
        ensures { result ≡ is_spent self.now since limit }
    {
        limits::is_spent(self.ticks, since, limit)
    }

    /// The least number of ticks after which a limit that runs since the tick `since` is spent: 0 where it is
    /// spent by now.
    pub fn until_spent(&self, since: u64, limit: u64) -> u64
        requires begun { since ≤ self.now }
        requires limited { limit ≤ answer_limit }
        ensures ticks { result ≡ ticks_until self.now since limit }
        ensures least { IsLeastToSpend self.now since limit result }
    {
        limits::ticks_until(self.ticks, since, limit)
    }
}
