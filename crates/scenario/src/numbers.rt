//! Numbers as scenarios and reports write them.
ghost use Rattle.std.specs.Prelude.{◌≡◌, ◌<◌, ◌≤◌, ◌+◌, Some, length, IfOk};
ghost use Rattle.scenario.specs.Numbers.{begins_number, value_from, in_range, number_in, capped};

use crate::reason::Reason;

fn begins_number(digits: &[u8]) -> bool
    ensures { result ≡ begins_number digits.now }
{
    if digits.is_empty() {
        return false;
    }
    !(digits[0] == b'0' && 1 < digits.len())
}

/// A value, or the least that is past the bound.
fn capped(value: u128, high: u64) -> u128
    ensures value { result ≡ capped high value }
    ensures most { result ≤ high + 1 }
{
    let high = u128::from(high);
    if high < value { high + 1 } else { value }
}

/// A number, if it is from `low` to `high`.
pub(crate) fn in_range(number: u64, low: u64, high: u64) -> Result<u64, Reason>
    ensures { result ≡ in_range low high (Some number) }
{
    if low <= number && number <= high {
        return Ok(number);
    }
    Err(Reason::OutOfRange)
}

/// The number that these digits are, from `low` to `high`.
fn value_of(digits: &[u8], low: u64, high: u64) -> Result<u64, Reason>
    ensures { result ≡ in_range low high (value_from 0 digits.now) }
{
    let mut value = 0u128;
    for byte in digits {
        if !byte.is_ascii_digit() {
            return Err(Reason::BadNumber);
        }
        value = capped(value * 10 + u128::from(*byte - b'0'), high);
    }
    if value > u128::from(high) {
        return Err(Reason::OutOfRange);
    }
    in_range(value as u64, low, high)
}

/// The number that these bytes are, from `low` to `high`.
#[tactic(auto, unfolding(crate::specs::Numbers::number_in))]
pub fn number_in(digits: &[u8], low: u64, high: u64) -> Result<u64, Reason>
    ensures value { result ≡ number_in low high digits.now }
    ensures least { IfOk result (λ n. low ≤ n) }
    ensures most { IfOk result (λ n. n ≤ high) }
{
    if !begins_number(digits) {
        return Err(Reason::BadNumber);
    }
    value_of(digits, low, high)
}
