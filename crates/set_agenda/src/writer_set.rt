ghost use Rattle.std.specs.Prelude.{◌≡◌, ◌<◌, ◌^◌, ◌==◌, ◌||◌, List, [], ◌∷◌, ℕ};
ghost use Rattle.set_agenda.specs.Agenda.{is_among};
ghost use Rattle.set_agenda.specs.Advance.{others};
ghost use Rattle.set_agenda.specs.WriterSet.{is_nil, writers, writers_of};

use std::marker::Model;

/// A set of writers, each of which is below 64.
#[derive(Drop)]
pub struct WriterSet {
    bits: u64,
}

impl Model for WriterSet {
    ghost Value = { List ℕ };

    ghost view = { λ s. writers_of s.bits };
}

impl WriterSet {
    /// No writer.
    pub fn new() -> WriterSet
        ensures { result ≡ [] }
    {
        WriterSet { bits: 0 }
    }

    /// One writer.
    #[tactic(auto, using(crate::proofs::WriterSets::of_is))]
    pub fn of(writer: u32) -> WriterSet
        requires { writer < 64 }
        ensures { result ≡ writer ∷ [] }
    {
        WriterSet { bits: 1 << writer }
    }

    /// The writers whose bits are set: writer w where bit w is.
    pub fn of_bits(bits: u64) -> WriterSet
        ensures { result ≡ writers_of bits }
    {
        WriterSet { bits }
    }

    /// The same set once more.
    pub fn copied(&self) -> WriterSet
        ensures { result ≡ self.now }
    {
        WriterSet { bits: self.bits }
    }

    /// Bit w is set exactly for a writer w of the set. `of_bits` gives the set back.
    #[tactic(auto, using(crate::proofs::WriterSets::same_bits))]
    pub fn bits(&self) -> u64
        ensures writers { writers_of result ≡ self.now }
        ensures alone { (bits : ℕ) → bits < 2 ^ 64 → writers_of bits ≡ self.now → bits ≡ result }
    {
        self.bits
    }

    /// Whether no writer is in the set.
    #[tactic(auto, using(crate::proofs::WriterSets::empty_is))]
    pub fn is_empty(&self) -> bool
        ensures { result ≡ is_nil self.now }
    {
        self.bits == 0
    }

    /// Whether a writer, by its number, is in the set.
    #[tactic(auto, using(crate::proofs::WriterSets::contains_is))]
    pub fn contains(&self, writer: u32) -> bool
        requires { writer < 64 }
        ensures { result ≡ is_among writer self.now }
    {
        (self.bits >> writer) & 1 == 1
    }

    /// Adds a writer, by its number. One that is in the set already stays.
    #[tactic(auto, using(crate::proofs::WriterSets::insert_is))]
    pub fn insert(&mut self, writer: u32)
        requires { writer < 64 }
        ensures { self.new ≡ writers (λ w. is_among w self.old || (writer == w)) }
    {
        self.bits |= 1 << writer;
    }

    /// Those that the other set lacks.
    #[tactic(auto, using(crate::proofs::WriterSets::minus_is))]
    pub fn minus(&self, other: &WriterSet) -> WriterSet
        ensures { result ≡ others other.now self.now }
    {
        WriterSet {
            bits: self.bits & !other.bits,
        }
    }

    /// Those of either set.
    #[tactic(auto, using(crate::proofs::WriterSets::with_is))]
    pub fn with(&self, other: &WriterSet) -> WriterSet
        ensures { result ≡ writers (λ w. is_among w self.now || is_among w other.now) }
    {
        WriterSet {
            bits: self.bits | other.bits,
        }
    }
}
