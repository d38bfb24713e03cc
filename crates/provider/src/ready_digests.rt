ghost use Rattle.std.specs.Prelude.{◌≡◌, ◌≢◌, ◌+◌, ◌⊎◌, Some, None, IfSome, Contains, slice_get};
ghost use Rattle.provider.specs.declared.digested.Digested.{Digested};

use crate::digested::Digested;

/// Digests that are ready, in the order in which they will be asked for.
#[derive(Drop)]
pub struct ReadyDigests {
    pub rows: Vec<Digested>,
    /// The place of the next one to be asked for.
    pub next: usize,
}

impl ReadyDigests {
    /// These digests, none of which was asked for.
    pub fn new(rows: Vec<Digested>) -> ReadyDigests
        ensures rows { result.rows ≡ rows }
        ensures first { result.next ≡ 0 }
    {
        ReadyDigests { rows, next: 0 }
    }

    /// The next digest, where it is of this volume, or of the image of this set on it. Where it is of another, and stays the next,
    /// or has no digest, the answer is None.
    pub fn take(&mut self, volume: u32, set: Option<u32>) -> Option<[u8; 32]>
        ensures stands { IfSome result (λ digest. Contains self.old.rows.items (record { volume = volume; set = set; digest = Some digest })) }
        ensures given { (row : Digested) → slice_get self.old.rows.items self.old.next ≡ Some row → row.volume ≡ volume → row.set ≡ set → (result ≡ row.digest) × (self.new.next ≡ self.old.next + 1) }
        ensures stays { (row : Digested) → slice_get self.old.rows.items self.old.next ≡ Some row → (row.volume ≢ volume) ⊎ (row.set ≢ set) → (result ≡ None) × (self.new.next ≡ self.old.next) }
        ensures ended { slice_get self.old.rows.items self.old.next ≡ None → (result ≡ None) × (self.new.next ≡ self.old.next) }
        ensures rows { self.new.rows ≡ self.old.rows }
    {
        let Some(row) = self.rows.get(self.next) else {
            return None;
        };
        let row = *row;
        if row.volume != volume || row.set != set {
            return None;
        }
        self.next += 1;
        row.digest
    }
}
