ghost use Rattle.std.specs.Prelude.{ℕ, List, OnOk};

use crate::passes::Passes;

/// The passes of a revert over a store, which brings a volume back to what its newest image has: the jobs have which one. The blocks that it
/// overwrites have copies for that image. What the jobs ask for (`is_brought`) is what the image has.
pub trait Reverts<E, J>: Passes<E, J> {
    /// In memory each image of `first` is as it was, once the volume lasts.
    ghost is_restored: { J → Self → Self → Type 0 };

    /// Overwrites the volume with what the image has.
    fn restore(&mut self, jobs: &J) -> Result<(), E>
        ensures opens { (first : Self) (h : List ℕ) → Self.covers jobs.now first self.old h
            → Self.opens first self.new h }
        ensures restored { OnOk result ((first : Self) → Self.stands jobs.now first self.old
            → is_restored jobs.now first self.new) }
        ensures brought { OnOk result ((first : Self) → Self.stands jobs.now first self.old
            → Self.is_brought jobs.now first self.new) };

    /// Brings the volume to where it lasts.
    fn settle(&mut self, jobs: &J) -> Result<(), E>
        ensures opens { (first : Self) (h : List ℕ) → Self.opens first self.old h
            → Self.opens first self.new h }
        ensures brought { (asked : J) (first : Self) → Self.is_brought asked first self.old
            → Self.is_brought asked first self.new }
        ensures stands { OnOk result ((first : Self) → is_restored jobs.now first self.old
            → Self.stands jobs.now first self.new) };
}
