ghost use Rattle.std.specs.Prelude.{ℕ, ◌≡◌, List, Option, Some, None, IsTrue, OnOk};
ghost use Rattle.image_order.specs.Found.{AreAmong, AreOnly, AreWithin, AreWithinBut, Is};
ghost use Rattle.image_order.specs.declared.name.Name.{Name as NameOf};

use crate::name::Name;

/// The state and the marker of a folder, each of which is replaced whole: a new file is written aside, its bytes are synced, it is renamed, and
/// then the names are synced. A call that fails may have had its effect. While one runs, what may be found is what might be found before it or
/// after it.
pub trait StateFolder<E>: Drop {
    /// What may be found under a name after a loss of power: a file of these bytes, or none. Of a state the bytes are those of its head.
    ghost found: { Self → NameOf → Option (List ℕ) → Type 0 };

    /// What may be found under a name once the names last as they are.
    ghost now: { Self → NameOf → Option (List ℕ) → Type 0 };

    /// What was written aside for a name.
    ghost written: { Self → NameOf → Option (List ℕ) → Type 0 };

    /// What may be found of it after a loss of power: what a rename gives the name.
    ghost aside: { Self → NameOf → Option (List ℕ) → Type 0 };

    /// It is without power: from now on no call has an effect.
    ghost is_out: { Self → Type 0 } = { λ _. ⊥ };

    /// Behind a call that failed so it is known what is committed.
    ghost is_known: { E → Type 0 };

    /// Writes the file of a state aside. With the head it keeps the header and the table of an area of so many slots, as the area has them, which
    /// was synced.
    fn write_state(&mut self, head: &[u8], slots: u32) -> Result<(), E>
        ensures written { OnOk result (AreOnly (Some head.now) (written self.new NameOf.State)) }
        ensures found { AreWithin (found self.old) (found self.new) }
        ensures now { AreWithin (now self.old) (now self.new) }
        ensures out { is_out self.old → self.new ≡ self.old };

    /// Writes the file of a marker aside.
    fn write_marker(&mut self, lines: &str) -> Result<(), E>
        ensures written { OnOk result (AreOnly (Some lines.now) (written self.new NameOf.Marker)) }
        ensures found { AreWithin (found self.old) (found self.new) }
        ensures now { AreWithin (now self.old) (now self.new) }
        ensures out { is_out self.old → self.new ≡ self.old };

    /// Sees that the bytes of the file that was written aside for a name last.
    fn sync_aside(&mut self, name: Name) -> Result<(), E>
        ensures lasts { OnOk result (AreAmong (written self.old name) (aside self.new name)) }
        ensures found { AreWithin (found self.old) (found self.new) }
        ensures now { AreWithin (now self.old) (now self.new) }
        ensures out { is_out self.old → self.new ≡ self.old };

    /// Gives the file that was written aside its name.
    fn rename(&mut self, name: Name) -> Result<(), E>
        ensures found { AreWithinBut name (aside self.old name) (found self.old) (found self.new) }
        ensures now { AreWithinBut name (aside self.old name) (now self.old) (now self.new) }
        ensures renamed { OnOk result (AreAmong (aside self.old name) (now self.new name)) }
        ensures out { is_out self.old → self.new ≡ self.old };

    /// Takes the marker away.
    fn remove_marker(&mut self) -> Result<(), E>
        ensures found { AreWithinBut NameOf.Marker (Is None) (found self.old) (found self.new) }
        ensures now { AreWithinBut NameOf.Marker (Is None) (now self.old) (now self.new) }
        ensures removed { OnOk result (AreOnly None (now self.new NameOf.Marker)) }
        ensures out { is_out self.old → self.new ≡ self.old };

    /// Takes the marker away behind a call that failed. Where that fails too, nothing is said.
    fn unmark_in_silence(&mut self)
        ensures found { AreWithinBut NameOf.Marker (Is None) (found self.old) (found self.new) }
        ensures out { is_out self.old → self.new ≡ self.old };

    /// Sees that the names last.
    fn sync_names(&mut self) -> Result<(), E>
        ensures found { AreWithin (found self.old) (found self.new) }
        ensures lasts { OnOk result (AreWithin (now self.old) (found self.new)) }
        ensures out { is_out self.old → self.new ≡ self.old };

    /// Whether the marker may go behind a call that failed so.
    fn may_unmark(&self, fault: &E) -> bool
        ensures { IsTrue result → is_known fault.now };
}
