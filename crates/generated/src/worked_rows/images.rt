//! Images: what they show, and which of them go.
#![tactic(auto, unfolding(crate::proofs::Computing::computing))]

ghost use Rattle.std.specs.Prelude.{◌≡◌, true};
ghost use Rattle.scenario.specs.Grammar.{reading_of, IsScenario};
ghost use Rattle.vss_model.specs.Trail.{is_legal, is_complete};
ghost use Rattle.vss_report.specs.ToldLines.{told_report};
ghost use Rattle.generated.specs.PlainPath as plain_path;
ghost use Rattle.generated.specs.NoSlots as no_slots;
ghost use Rattle.generated.specs.RepeatedWrite as repeated_write;
ghost use Rattle.generated.specs.WholeImage as whole_image;
ghost use Rattle.generated.specs.Revert as revert;
ghost use Rattle.generated.specs.DeviceFault as device_fault;
ghost use Rattle.generated.specs.SharedArea as shared_area;

/// One volume, one lane, one set without writers, one write after it: the image shows the old block.
pub fn plain_path()
    ensures text { reading_of plain_path.text ≡ IsScenario plain_path.scenario }
    ensures legal { is_legal plain_path.scenario plain_path.trail ≡ true }
    ensures complete { is_complete plain_path.scenario plain_path.trail ≡ true }
    ensures report { told_report plain_path.scenario plain_path.trail ≡ plain_path.report }
{}

/// An area without slots: the first write after the set is complete evicts its image, and succeeds.
pub fn no_slots()
    ensures text { reading_of no_slots.text ≡ IsScenario no_slots.scenario }
    ensures legal { is_legal no_slots.scenario no_slots.trail ≡ true }
    ensures complete { is_complete no_slots.scenario no_slots.trail ≡ true }
    ensures report { told_report no_slots.scenario no_slots.trail ≡ no_slots.report }
{}

/// Two writes of one block after the set is complete: the image shows the block before both, in one slot.
pub fn repeated_write()
    ensures legal { is_legal repeated_write.scenario repeated_write.trail ≡ true }
    ensures complete { is_complete repeated_write.scenario repeated_write.trail ≡ true }
    ensures report { told_report repeated_write.scenario repeated_write.trail ≡ repeated_write.report }
{}

/// The digest of a whole image is that of the blocks as they were at the cut; its properties tell one slot.
pub fn whole_image()
    ensures legal { is_legal whole_image.scenario whole_image.trail ≡ true }
    ensures complete { is_complete whole_image.scenario whole_image.trail ≡ true }
    ensures report { told_report whole_image.scenario whole_image.trail ≡ whole_image.report }
{}

/// A revert to the older of two images: the newer one is gone, the older stays and uses no slot until the next write.
pub fn revert()
    ensures legal { is_legal revert.scenario revert.trail ≡ true }
    ensures complete { is_complete revert.scenario revert.trail ≡ true }
    ensures report { told_report revert.scenario revert.trail ≡ revert.report }
{}

/// A device fails a write for which an image went: the image stays gone, and the block is as before.
pub fn device_fault()
    ensures legal { is_legal device_fault.scenario device_fault.trail ≡ true }
    ensures complete { is_complete device_fault.scenario device_fault.trail ≡ true }
    ensures report { told_report device_fault.scenario device_fault.trail ≡ device_fault.report }
{}

/// Two volumes share two slots: a write to one evicts the older set's image on the other.
pub fn shared_area()
    ensures legal { is_legal shared_area.scenario shared_area.trail ≡ true }
    ensures complete { is_complete shared_area.scenario shared_area.trail ≡ true }
    ensures report { told_report shared_area.scenario shared_area.trail ≡ shared_area.report }
{}
