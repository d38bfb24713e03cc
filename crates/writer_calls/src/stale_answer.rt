ghost use Rattle.std.specs.Prelude.{Some, codes};

use std::error::Error;
use std::fmt;

/// The answer is to an order that is not open: it was answered or cancelled, or was never sent.
#[derive(Clone, Copy, Debug, PartialEq, Eq)]
pub struct StaleAnswer {
    /// The number of the order that is open, if one is.
    pub current: Option<u64>,
}

impl fmt::Display for StaleAnswer {
    ghost output = { λ _. Some (codes "the order is not open") };

    fn fmt<W: fmt::Write>(&self, f: &mut fmt::Formatter<W>) -> fmt::Result {
        f.write_str("the order is not open")
    }
}

impl Error for StaleAnswer {}
