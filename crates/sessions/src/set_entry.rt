ghost use Rattle.std.specs.Prelude.{◌≡◌, true};
ghost use Rattle.vss_model.specs.Steps.{row_settled, with_cut};
ghost use Rattle.vss_model.specs.Sessions.{new_set};
ghost use Rattle.vss_model.specs.State.{is_running, is_complete};
ghost use Rattle.sessions.specs.Sets.{facts_of, running_changed};

use crate::set_facts::SetFacts;
use std::marker::Model;
use vss_names::{Context, SetOutcome};

/// A set that was started. The provider keeps its volumes, so contracts see a row without volumes.
#[derive(Drop)]
pub(crate) struct SetEntry {
    number: u32,
    context: Context,
    result: SetOutcome,
    cut_at: Option<u64>,
}

impl Model for SetEntry {
    ghost use Rattle.std.specs.Prelude.{[]};
    ghost use Rattle.vss_model.specs.State.{SetRow};

    ghost Value = { SetRow };

    ghost view = { λ e. record { number = e.number; context = e.context; volumes = []; result = e.result; cut_at = e.cut_at } };
}

impl SetEntry {
    /// A set in progress.
    pub(crate) fn new(number: u32, context: Context) -> SetEntry
        ensures { result ≡ new_set number context }
    {
        SetEntry {
            number,
            context,
            result: SetOutcome::Running,
            cut_at: None,
        }
    }

    /// Whether the set is in progress.
    pub(crate) fn is_running(&self) -> bool
        ensures { result ≡ is_running self.now.result }
    {
        match self.result {
            SetOutcome::Running => true,
            SetOutcome::Complete | SetOutcome::Failed(_) => false,
        }
    }

    pub(crate) fn number(&self) -> u32
        ensures { result ≡ self.now.number }
    {
        self.number
    }

    pub(crate) fn facts(&self) -> SetFacts
        ensures { result ≡ facts_of self.now }
    {
        SetFacts {
            context: self.context,
            complete: is_complete(self.result),
            cut_at: self.cut_at,
        }
    }

    /// A set in progress comes to this.
    pub(crate) fn settle(&mut self, outcome: SetOutcome)
        ensures { self.new ≡ row_settled outcome self.old }
    {
        if self.is_running() {
            self.result = outcome;
        }
    }

    /// The images of a set in progress are cut at the tick `now`.
    pub(crate) fn cut(&mut self, now: u64)
        ensures { self.new ≡ running_changed (with_cut now) self.old }
    {
        if self.is_running() {
            self.cut_at = Some(now);
        }
    }
}

fn is_complete(outcome: SetOutcome) -> bool
    ensures { result ≡ is_complete outcome }
{
    match outcome {
        SetOutcome::Complete => true,
        SetOutcome::Running | SetOutcome::Failed(_) => false,
    }
}
