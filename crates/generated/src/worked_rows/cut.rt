//! The cut of a set, and what becomes of a set that fails.
#![tactic(auto, unfolding(crate::proofs::Computing::computing))]

ghost use Rattle.std.specs.Prelude.{◌≡◌, true, false, take};
ghost use Rattle.write_history.specs.declared.actor.Actor.TheVariants.{Lane};
ghost use Rattle.vss_model.specs.Trail.{is_legal, is_complete, may_move, run};
ghost use Rattle.vss_report.specs.ToldLines.{told_report};
ghost use Rattle.generated.specs.OneCut as one_cut;
ghost use Rattle.generated.specs.AbortBetweenCommits as abort_between_commits;
ghost use Rattle.generated.specs.OwnImageGoes as own_image_goes;
ghost use Rattle.generated.specs.ImpliedEnd as implied_end;

/// Two volumes, writes before, during and after the cut: both images show the one moment, and a write to a held volume waits.
pub fn one_cut()
    ensures legal { is_legal one_cut.scenario one_cut.trail ≡ true }
    ensures complete { is_complete one_cut.scenario one_cut.trail ≡ true }
    ensures report { told_report one_cut.scenario one_cut.trail ≡ one_cut.report }
    ensures waits { may_move one_cut.scenario (run one_cut.scenario (take 11 one_cut.trail)) (Lane 1) ≡ false }
{}

/// An abort after one of three commits: the set fails in that move, and no volume keeps an image.
pub fn abort_between_commits()
    ensures legal { is_legal abort_between_commits.scenario abort_between_commits.trail ≡ true }
    ensures complete { is_complete abort_between_commits.scenario abort_between_commits.trail ≡ true }
    ensures report { told_report abort_between_commits.scenario abort_between_commits.trail ≡ abort_between_commits.report }
{}

/// A write takes the image of the set in progress: the set fails in that move, and the write succeeds.
pub fn own_image_goes()
    ensures legal { is_legal own_image_goes.scenario own_image_goes.trail ≡ true }
    ensures complete { is_complete own_image_goes.scenario own_image_goes.trail ≡ true }
    ensures report { told_report own_image_goes.scenario own_image_goes.trail ≡ own_image_goes.report }
{}

/// The owner's second `begin` is refused, and the lane's session is ended by the line that it got.
pub fn implied_end()
    ensures legal { is_legal implied_end.scenario implied_end.trail ≡ true }
    ensures complete { is_complete implied_end.scenario implied_end.trail ≡ true }
    ensures report { told_report implied_end.scenario implied_end.trail ≡ implied_end.report }
{}
