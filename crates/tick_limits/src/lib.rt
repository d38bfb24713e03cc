//! The clock of a run, and the limits that run by it.
//!
//! A `Clock` counts ticks, one to a millisecond. Contracts see it as its number of ticks, from 0 to 2^63.
//! They promise that the clock goes on by exactly the ticks it is given or, where that would pass 2^63, not at
//! all; that a limit is spent exactly where more ticks than the limit have gone by; and that `until_spent` is
//! the least number of ticks that spends it. `specs/Time.antt` has these definitions and the limits.
#![tactic(auto)]

mod clock;
mod limits;

pub use clock::{Clock, ClockFull};
pub use limits::{
    ANSWER_LIMIT, DEFAULT_FREEZE, HOLD_LIMIT, is_spent, limits_are_as_defined, ticks_until,
};
