//! Sessions with writers.
#![tactic(auto, unfolding(crate::proofs::Computing::computing))]

ghost use Rattle.std.specs.Prelude.{◌≡◌, true, false, take};
ghost use Rattle.write_history.specs.declared.actor.Actor.TheVariants.{Lane};
ghost use Rattle.vss_model.specs.Trail.{is_legal, is_complete, may_move, run};
ghost use Rattle.vss_report.specs.ToldLines.{told_report};
ghost use Rattle.generated.specs.FreezeLevels as freeze_levels;
ghost use Rattle.generated.specs.Veto as veto;
ghost use Rattle.generated.specs.LostAnswer as lost_answer;
ghost use Rattle.generated.specs.ContextZero as context_zero;
ghost use Rattle.generated.specs.AllWritersButDisabled as all_writers_but_disabled;

/// Three writers of three levels: frozen from the front end down to the system, thawed back up.
pub fn freeze_levels()
    ensures legal { is_legal freeze_levels.scenario freeze_levels.trail ≡ true }
    ensures complete { is_complete freeze_levels.scenario freeze_levels.trail ≡ true }
    ensures report { told_report freeze_levels.scenario freeze_levels.trail ≡ freeze_levels.report }
{}

/// A veto to Freeze fails the set and thaws the writer that stood frozen: the write that waited for it goes on.
pub fn veto()
    ensures legal { is_legal veto.scenario veto.trail ≡ true }
    ensures complete { is_complete veto.scenario veto.trail ≡ true }
    ensures report { told_report veto.scenario veto.trail ≡ veto.report }
    ensures waits { may_move veto.scenario (run veto.scenario (take 21 veto.trail)) (Lane 1) ≡ false }
{}

/// A Freeze that is never answered: 60,001 ticks go by, the writer is lost, and the set fails.
pub fn lost_answer()
    ensures legal { is_legal lost_answer.scenario lost_answer.trail ≡ true }
    ensures complete { is_complete lost_answer.scenario lost_answer.trail ≡ true }
    ensures report { told_report lost_answer.scenario lost_answer.trail ≡ lost_answer.report }
{}

/// The image of a set of context 0 is released when the session ends.
pub fn context_zero()
    ensures legal { is_legal context_zero.scenario context_zero.trail ≡ true }
    ensures complete { is_complete context_zero.scenario context_zero.trail ≡ true }
    ensures report { told_report context_zero.scenario context_zero.trail ≡ context_zero.report }
{}

/// Without selection every writer takes part but a disabled one, which is never asked and stays UNKNOWN.
pub fn all_writers_but_disabled()
    ensures legal { is_legal all_writers_but_disabled.scenario all_writers_but_disabled.trail ≡ true }
    ensures complete { is_complete all_writers_but_disabled.scenario all_writers_but_disabled.trail ≡ true }
    ensures report { told_report all_writers_but_disabled.scenario all_writers_but_disabled.trail ≡ all_writers_but_disabled.report }
{}
