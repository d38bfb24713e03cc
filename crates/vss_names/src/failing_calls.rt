ghost use Rattle.std.specs.Prelude.{◌≡◌, length, IsTrue, is_err, ◌==◌};
ghost use Rattle.vss_names.specs.Faults.{counted, HasCause, Schedule, IsCall, failing_at, after_call, fails_next, next_call};

use crate::failed::Failed;
use crate::numbers::Numbers;
use std::marker::Model;

/// The calls of one kind: how many were made, and the numbers of those that fail, counted from 1.
#[derive(Debug, Drop)]
pub struct FailingCalls {
    failing: Numbers,
    made: u64,
}

impl Model for FailingCalls {
    ghost use Rattle.vss_names.specs.Faults.{Schedule};

    ghost Value = { Schedule };

    ghost view = { λ c. record { failing = c.failing; made = c.made } };
}

impl FailingCalls {
    /// The calls with these numbers fail.
    pub fn of(failing: Numbers) -> FailingCalls
        ensures { result ≡ failing_at failing }
    {
        FailingCalls { failing, made: 0 }
    }

    /// Whether no call is planned to fail.
    pub fn is_empty(&self) -> bool
        ensures { result ≡ (length self.now.failing == 0) }
    {
        self.failing.is_empty()
    }

    /// Makes the next call, and says whether it fails.
    fn next_fails(&mut self) -> bool
        ensures made { self.new ≡ after_call self.old }
        ensures fails { result ≡ fails_next self.old }
    {
        self.made = self.made.saturating_add(1);
        let call = self.made;
        self.failing
            .items()
            .iter()
            .any(|number| u64::from(*number) == call)
    }

    /// Makes the next call. Where it fails, the count of faults rises.
    pub fn make(&mut self, count: &mut u64) -> Result<(), Failed>
        ensures exact { IsCall self.old self.new count.old count.new result }
        ensures cause { HasCause count.old count.new result }
    {
        if self.next_fails() {
            *count = count.saturating_add(1);
            return Err(Failed);
        }
        Ok(())
    }
}
