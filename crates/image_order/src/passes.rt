ghost use Rattle.std.specs.Prelude.{ℕ, ◌≡◌, List, IfOk, OnOk, OnErr};
ghost use Rattle.image_order.specs.declared.copied.Copied.{Copied as CopiedOf};

use crate::copied::Copied;
use vss_names::Text;

/// The passes of an update over a store, which brings volumes to what the jobs have. What it is of the store as the call began, `first`, is said
/// by relations.
pub trait Passes<E, J>: Drop {
    /// The bytes of the head of its state.
    ghost head: { Self → List ℕ };

    /// In memory each image of `first` is as it was, but for those that were evicted, and the jobs fit.
    ghost stands: { J → Self → Self → Type 0 };

    /// No block of a volume was written since `first`.
    ghost is_before: { Self → Self → Type 0 };

    /// A state of this head opens to the images of `first`, but for those that were evicted, whatever has lasted of the blocks that were written.
    ghost opens: { Self → Self → List ℕ → Type 0 };

    /// It does, and no slot in which it has a copy was given up.
    ghost holds: { Self → Self → List ℕ → Type 0 };

    /// It does, and it has a copy of each block that is to be overwritten.
    ghost covers: { J → Self → Self → List ℕ → Type 0 };

    /// Each block that is to be overwritten was gone over for its copies.
    ghost is_copied: { J → Type 0 };

    /// The volumes have what these jobs ask for, of the store `first`.
    ghost is_brought: { J → Self → Self → Type 0 };

    /// A block of a volume may have been written.
    ghost is_torn: { J → Type 0 };

    /// The volumes have what they are brought to, and that lasts.
    ghost lasts: { J → Self → Type 0 };

    /// Copies old bytes into slots that no state has in use.
    fn copy(&mut self, jobs: &mut J) -> Result<Copied, E>
        ensures done { IfOk result (λ copied. copied ≡ CopiedOf.All → ((first : Self) (h : List ℕ) → holds first self.old h → holds first self.new h) × is_copied jobs.new) }
        ensures opens { (first : Self) (h : List ℕ) → holds first self.old h → opens first self.new h }
        ensures stands { (first : Self) → stands jobs.old first self.old → stands jobs.new first self.new }
        ensures asked { (first now : Self) → is_brought jobs.new first now → is_brought jobs.old first now }
        ensures before { (first : Self) → is_before first self.old → is_before first self.new };

    /// Says which images went, once that is committed.
    fn say_gone(&self, jobs: &J) -> Result<(), E>;

    /// Writes the table of the area, and brings it and all slots to where they last.
    fn sync(&mut self, jobs: &J) -> Result<(), E>
        ensures opens { (first : Self) (h : List ℕ) → opens first self.old h → opens first self.new h }
        ensures holds { OnOk result ((first : Self) → stands jobs.now first self.old → holds first self.new (head self.new)) }
        ensures covers { OnOk result ((first : Self) → stands jobs.now first self.old → is_copied jobs.now → covers jobs.now first self.new (head self.new)) }
        ensures stands { (first : Self) → stands jobs.now first self.old → stands jobs.now first self.new }
        ensures brought { (asked : J) (first : Self) → is_brought asked first self.old
            → is_brought asked first self.new }
        ensures before { (first : Self) → is_before first self.old → is_before first self.new };

    /// The head of its state.
    fn head(&self, jobs: &J) -> Result<Text, E>
        ensures { IfOk result (λ text. text.bytes ≡ head self.now) };

    /// How many slots the area has.
    fn slots(&self) -> u32;

    /// Overwrites the blocks that differ.
    fn overwrite(&mut self, jobs: &mut J) -> Result<(), E>
        ensures opens { (first : Self) (h : List ℕ) → covers jobs.old first self.old h → opens first self.new h }
        ensures brought { OnOk result ((first : Self) → stands jobs.old first self.old → is_copied jobs.old → is_brought jobs.old first self.new) }
        ensures torn { is_torn jobs.new };

    /// Brings all volumes to where they last.
    fn finish(&mut self, jobs: &J) -> Result<(), E>
        ensures opens { (first : Self) (h : List ℕ) → opens first self.old h → opens first self.new h }
        ensures brought { (asked : J) (first : Self) → is_brought asked first self.old → is_brought asked first self.new }
        ensures lasts { OnOk result (lasts jobs.now self.new) };

    ghost held_open: { (first now : Self) (h : List ℕ) → holds first now h → opens first now h };

    ghost covered_open: { (jobs : J) (first now : Self) (h : List ℕ) → covers jobs first now h → opens first now h };
}
