//! What the definitions and contracts of this crate say together, as functions whose contracts are the laws.

ghost use Rattle.std.specs.Prelude.{ℕ};
ghost use Rattle.vss_shards.specs.declared.part.Part.{Part};
ghost use Rattle.vss_shards.specs.Shards.{ShardValue, DraftValue, GoesOn};
ghost use Rattle.vss_shards.specs.Journals.{JournalValue, Cut};
ghost use Rattle.vss_shards.specs.OneMoment.{HasImage, IsGivenImage, IsImageOf, ShowsMoment};

use volume_device::Device;

/// The images of one recorded cut are the volumes after one and the same beginning of the journal: as many entries as the journal had
/// at the cut.
pub fn images_of_a_cut_are_of_one_moment<D: Device>()
    ensures { (j : JournalValue) (cut : Cut) (p : Part) (first now : ShardValue D) (point : ℕ) → IsImageOf j cut p first now point → ShowsMoment j cut p now point }
{}

/// A shard that is given back after its cut was recorded has the image of its part, which the law above speaks of.
pub fn a_recorded_cut_makes_its_image<D: Device>()
    ensures { (old new : ShardValue D) (draft_old draft_new : DraftValue) (number : ℕ) (is : IsGivenImage D.told old new draft_old draft_new number) → HasImage new is.given.part }
{}

/// What goes on from a shard that goes on from another goes on from that.
pub fn what_goes_on_goes_on<D: Device>()
    ensures { (first second third : ShardValue D) → GoesOn first second → GoesOn second third → GoesOn first third }
{}
