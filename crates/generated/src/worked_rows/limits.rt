//! Limits: of time, of the volumes in a set, of the images of a volume.
#![tactic(auto, unfolding(crate::proofs::Computing::computing))]

ghost use Rattle.std.specs.Prelude.{◌≡◌, true, codes, Some, None};
ghost use Rattle.vss_names.specs.declared.vss_result.VssResult.TheVariants.{MaximumNumberOfSnapshotsReached};
ghost use Rattle.vss_model.specs.Sessions.{add_refusal};
ghost use Rattle.vss_model.specs.Trail.{is_legal, is_complete};
ghost use Rattle.vss_report.specs.ToldLines.{told_report};
ghost use Rattle.generated.specs.HeldToTheLimit as held_to_the_limit;
ghost use Rattle.generated.specs.HeldPastTheLimit as held_past_the_limit;
ghost use Rattle.generated.specs.Making.{line};
ghost use Rattle.generated.specs.Maxima as maxima;

/// Writes held for exactly 10,000 ticks: the limit is not spent, and the set completes.
pub fn held_to_the_limit()
    ensures legal { is_legal held_to_the_limit.scenario held_to_the_limit.trail ≡ true }
    ensures complete { is_complete held_to_the_limit.scenario held_to_the_limit.trail ≡ true }
    ensures report { told_report held_to_the_limit.scenario held_to_the_limit.trail ≡ held_to_the_limit.report }
{}

/// Writes held for 10,001 ticks: the set fails in the move that raised the clock.
pub fn held_past_the_limit()
    ensures legal { is_legal held_past_the_limit.scenario held_past_the_limit.trail ≡ true }
    ensures complete { is_complete held_past_the_limit.scenario held_past_the_limit.trail ≡ true }
    ensures report { told_report held_past_the_limit.scenario held_past_the_limit.trail ≡ held_past_the_limit.report }
{}

/// A set takes 64 volumes, and refuses the 65th.
pub fn most_volumes()
    ensures legal { is_legal maxima.scenario maxima.trail ≡ true }
    ensures complete { is_complete maxima.scenario maxima.trail ≡ true }
    ensures last { maxima.line_after 65 ≡ line (codes "66 lane l 133 ok") }
    ensures one_more { maxima.line_after 66 ≡ line (codes "67 lane l 134 VSS_E_MAXIMUM_NUMBER_OF_VOLUMES_REACHED") }
{}

/// A volume on which 511 images stand may join a set, and one on which 512 stand may not.
pub fn most_images()
    ensures last { add_refusal 0 (maxima.next_set 511) (maxima.with_images 511) ≡ None }
    ensures one_more { add_refusal 0 (maxima.next_set 512) (maxima.with_images 512) ≡ Some MaximumNumberOfSnapshotsReached }
{}
