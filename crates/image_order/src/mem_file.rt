ghost use Rattle.std.specs.Prelude.{None, OnOk};
ghost use Rattle.image_order.specs.Found.{AreAmong, AreEither, AreOnly, Is};
ghost use Rattle.image_order.specs.InMemory.{IsWritten, MayBe, MayBeFound};

use crate::held::Held;
use std::alloc::Global;
use std::mem;
use vss_names::Failed;

/// A name of a folder in memory, and what lies aside for it.
#[derive(Drop)]
pub struct MemFile {
    pub now: Held,
    pub aside: Held,
    /// What had the name since the names were last synced: it may be found again.
    pub before: Vec<Held>,
}

impl MemFile {
    /// One of no file.
    pub fn new(alloc: Global) -> MemFile {
        MemFile {
            now: Held::Nothing,
            aside: Held::Nothing,
            before: Vec::new(alloc),
        }
    }

    /// Sees that the bytes of what lies aside last.
    pub fn sync_aside(&mut self)
        ensures lasts { AreAmong (IsWritten self.old.aside) (MayBe self.new.aside) }
        ensures found { AreAmong (MayBeFound self.old) (MayBeFound self.new) }
        ensures now { AreAmong (MayBe self.old.now) (MayBe self.new.now) }
    {
        self.aside = match mem::replace(&mut self.aside, Held::Nothing) {
            Held::Written(text) => Held::Synced(text),
            other => other,
        };
    }

    /// Gives the name another file.
    #[tactic(auto, unfolding(crate::specs::InMemory::MayBeOf))]
    fn put(&mut self, new: Held) -> Result<(), Failed>
        ensures found { AreEither (MayBeFound self.old) (MayBe new) (MayBeFound self.new) }
        ensures now { AreEither (MayBe self.old.now) (MayBe new) (MayBe self.new.now) }
        ensures done { OnOk result (AreAmong (MayBe new) (MayBe self.new.now)) }
    {
        let Ok(()) = self.before.reserve(1) else {
            return Err(Failed);
        };
        let _ = self.before.push(mem::replace(&mut self.now, new));
        Ok(())
    }

    /// Gives what lies aside the name.
    pub fn rename(&mut self) -> Result<(), Failed>
        ensures found { AreEither (MayBeFound self.old) (MayBe self.old.aside)
            (MayBeFound self.new) }
        ensures now { AreEither (MayBe self.old.now) (MayBe self.old.aside) (MayBe self.new.now) }
        ensures renamed { OnOk result (AreAmong (MayBe self.old.aside) (MayBe self.new.now)) }
    {
        let new = mem::replace(&mut self.aside, Held::Nothing);
        self.put(new)
    }

    /// Takes the file of the name away.
    pub fn remove(&mut self) -> Result<(), Failed>
        ensures found { AreEither (MayBeFound self.old) (Is None) (MayBeFound self.new) }
        ensures now { AreEither (MayBe self.old.now) (Is None) (MayBe self.new.now) }
        ensures removed { OnOk result (AreOnly None (MayBe self.new.now)) }
    {
        self.put(Held::Nothing)
    }

    /// Sees that the name lasts as it is.
    #[tactic(auto, unfolding(crate::specs::InMemory::MayBeOf))]
    pub fn sync_name(&mut self)
        ensures found { AreAmong (MayBeFound self.old) (MayBeFound self.new) }
        ensures lasts { AreAmong (MayBe self.old.now) (MayBeFound self.new) }
    {
        self.before.clear();
    }
}
