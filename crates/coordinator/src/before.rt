ghost use Rattle.std.specs.Prelude.{◌≡◌, ◌&&◌, Bool, None, Option, [], is_none, is_some, true};
ghost use Rattle.set_agenda.specs.Agenda.{Agenda, is_frozen};
ghost use Rattle.set_agenda.specs.Course.{Course};
ghost use Rattle.set_agenda.specs.WriterSet.{writers};
ghost use Rattle.coordinator.specs.Effects.{IsBefore, Tells, outcome_told};
ghost use Rattle.coordinator.specs.KeptCourse.{FitsRun, Follows};

use crate::effects::Effects;
use crate::kept_course::KeptCourse;
use crate::posting::place_now;
use crate::running_agenda::RunningAgenda;
use set_agenda::{Place, WriterSet};
use vss_names::SetOutcome;

/// What is noted of a course before a call, to tell afterwards what the call did.
#[derive(Drop)]
pub struct Before {
    pub place: Place,
    pub frozen: WriterSet,
    pub outcome: SetOutcome,
    /// Whether an agenda ran, or began in the call.
    pub runs: bool,
}

impl Before {
    /// What these values say of where the agenda stands and which writers it has frozen.
    pub fn of(kept: &KeptCourse) -> Before
        ensures { (c : Course) → Follows kept.now c → IsBefore result (is_some c.agenda) c }
    {
        Before {
            place: place_now(&kept.running),
            frozen: frozen_now(&kept.running),
            outcome: kept.outcome,
            runs: kept.running.is_some(),
        }
    }

    /// Where an agenda begins in the call.
    pub fn of_beginning(kept: &KeptCourse) -> Before
        ensures { (c : Course) → Follows kept.now c → IsBefore result true c }
    {
        Before {
            runs: true,
            ..Before::of(kept)
        }
    }

    /// What happened since, but for who was lost.
    pub fn effects(&self, after: &KeptCourse) -> Effects
        ensures { (ran : Bool) (c d : Course) → IsBefore self.now ran c → Follows after.now d → Tells result ran [] None c d }
    {
        let frozen = frozen_now(&after.running);
        Effects {
            thawed: self.frozen.minus(&frozen).bits(),
            frozen: frozen.minus(&self.frozen).bits(),
            lost: 0,
            lost_order: None,
            outcome: outcome_told(self.outcome, after.outcome),
            agenda_ended: has_ended(self.runs, &after.running),
        }
    }
}

/// The writers that stand frozen.
pub fn frozen_now(running: &Option<RunningAgenda>) -> WriterSet
    ensures { (a : Option Agenda) → FitsRun running.now a → result ≡ writers (is_frozen a) }
{
    match running {
        None => WriterSet::new(),
        Some(running) => running.frozen(),
    }
}

fn outcome_told(before: SetOutcome, after: SetOutcome) -> SetOutcome
    ensures { result ≡ outcome_told before after }
{
    match before {
        SetOutcome::Running => after,
        SetOutcome::Complete | SetOutcome::Failed(_) => SetOutcome::Running,
    }
}

fn has_ended(runs: bool, running: &Option<RunningAgenda>) -> bool
    ensures { result ≡ (runs && is_none running.now) }
{
    runs && running.is_none()
}
