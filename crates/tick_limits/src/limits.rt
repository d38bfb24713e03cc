ghost use Rattle.std.specs.Prelude.{◌≡◌, ◌<◌, ◌≤◌, ◌^◌};
ghost use Rattle.tick_limits.specs.Time.{IsLeastToSpend, answer_limit, default_freeze, hold_limit, is_spent, ticks_until};

/// How long an order other than Freeze may stay unanswered, in ticks. No limit is longer.
pub const ANSWER_LIMIT: u64 = 300_000;

/// How long the writes of a set's volumes may be held, in ticks.
pub const HOLD_LIMIT: u64 = 10_000;

/// The freeze time-out of a writer that states none, in ticks, and the longest that one may state.
pub const DEFAULT_FREEZE: u32 = 60_000;

/// The three constants are the limits that the definitions speak of.
pub fn limits_are_as_defined()
    ensures answer { ANSWER_LIMIT ≡ answer_limit }
    ensures hold { HOLD_LIMIT ≡ hold_limit }
    ensures freeze { DEFAULT_FREEZE ≡ default_freeze }
{}

/// Whether a limit that runs since the tick `since` is spent at the tick `now`. Elapsed ticks equal to the limit
/// do not spend it yet.
pub fn is_spent(now: u64, since: u64, limit: u64) -> bool
    requires { since ≤ now }
    ensures { result ≡ is_spent now since limit }
{
    now - since > limit
}

/// The least number of ticks, counted from the tick `now`, after which a limit that runs since the tick `since` is
/// spent: 0 where it is spent at `now`.
pub fn ticks_until(now: u64, since: u64, limit: u64) -> u64
    requires begun { since ≤ now }
    requires fits { ticks_until now since limit < 2 ^ 64 }
    ensures ticks { result ≡ ticks_until now since limit }
    ensures least { IsLeastToSpend now since limit result }
{
    let elapsed = now - since;
    if elapsed > limit {
        0
    } else {
        limit - elapsed + 1
    }
}
