//! Histories of one volume: what each block reads, what each image shows, and how many slots the images use.

ghost use Rattle.std.specs.Prelude.{◌≡◌, [], ◌∷◌, Some, None};
ghost use Rattle.block_data.specs.BlockBytes.{zeros};
ghost use Rattle.write_history.specs.History.{point_in, sets_of};
ghost use Rattle.generated.specs.Making.{filled};
ghost use Rattle.generated.specs.Histories.{reads, shows, uses};
ghost use Rattle.generated.specs.MiddleImageDeleted as middle;
ghost use Rattle.generated.specs.EvictionOrder as eviction;
ghost use Rattle.generated.specs.RevertWithFault as revert;

/// The middle one of three images is deleted: the older image gets the copies that it lacks, and a slot is free again.
pub fn middle_image_deleted()
    ensures used_before { uses 2 middle.before ≡ 4 }
    ensures used { uses 2 middle.deleted ≡ 3 }
    ensures oldest { shows 2 1 middle.deleted ≡ Some (zeros ∷ zeros ∷ []) }
    ensures newest { shows 2 3 middle.deleted ≡ Some (filled 2 ∷ filled 9 ∷ []) }
    ensures gone { shows 2 2 middle.deleted ≡ None }
{}

/// A write that lacks a slot takes the oldest image, and the newer one shows what it showed before.
pub fn eviction_order()
    ensures used_before { uses 4 eviction.before ≡ 2 }
    ensures evicted { eviction.evicted ≡ 1 }
    ensures used { uses 4 eviction.overwritten ≡ 2 }
    ensures newer { shows 4 2 eviction.overwritten ≡ Some (filled 1 ∷ zeros ∷ zeros ∷ zeros ∷ []) }
    ensures gone { shows 4 1 eviction.overwritten ≡ None }
{}

/// A device fails a revert after one restored block: the newer image is gone, the older still shows its point, and the
/// next revert restores the rest.
pub fn revert_with_fault()
    ensures point { point_in 1 revert.before.images ≡ Some 0 }
    ensures stopped_images { sets_of revert.stopped.images ≡ 1 ∷ [] }
    ensures stopped_reads { reads 3 revert.stopped ≡ zeros ∷ filled 5 ∷ filled 5 ∷ [] }
    ensures stopped_shows { shows 3 1 revert.stopped ≡ Some (zeros ∷ zeros ∷ zeros ∷ []) }
    ensures stopped_used { uses 3 revert.stopped ≡ 3 }
    ensures images { sets_of revert.finished.images ≡ 1 ∷ [] }
    ensures finished_reads { reads 3 revert.finished ≡ zeros ∷ zeros ∷ zeros ∷ [] }
    ensures finished_used { uses 3 revert.finished ≡ 0 }
{}
