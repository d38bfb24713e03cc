ghost use Rattle.std.specs.Prelude.{◌≡◌, IsErr};

use crate::held::Held;
use crate::mem_file::MemFile;
use crate::name::Name;
use crate::state_folder::StateFolder;
use std::alloc::Global;
use vss_names::{Failed, Text};

/// A folder in memory, which loses what was not synced. A call makes steps, and has its effect between two of them. Once all steps are made, each
/// call fails without an effect: what a loss of power at that step leaves is what may be found from then on.
#[derive(Drop)]
pub struct MemFolder {
    alloc: Global,
    pub state: MemFile,
    pub marker: MemFile,
    /// How many steps it makes from now on.
    pub left: u64,
}

impl MemFolder {
    /// An empty one, which makes so many steps.
    pub fn new(alloc: Global, left: u64) -> MemFolder {
        MemFolder {
            alloc,
            state: MemFile::new(alloc),
            marker: MemFile::new(alloc),
            left,
        }
    }

    /// Makes a step.
    fn step(&mut self) -> Result<(), Failed>
        ensures state { self.new.state ≡ self.old.state }
        ensures marker { self.new.marker ≡ self.old.marker }
        ensures spent { self.old.left ≡ 0 → (self.new ≡ self.old) × IsErr result }
    {
        if self.left == 0 {
            return Err(Failed);
        }
        self.left -= 1;
        Ok(())
    }
}

impl StateFolder<Failed> for MemFolder {
    ghost use Rattle.std.specs.Prelude.{◌≡◌};
    ghost use Rattle.image_order.specs.InMemory.{IsWritten, MayBe, MayBeFound, file_of};

    ghost found = { λ folder name. MayBeFound (file_of folder name) };

    ghost now = { λ folder name. MayBe (file_of folder name).now };

    ghost written = { λ folder name. IsWritten (file_of folder name).aside };

    ghost aside = { λ folder name. MayBe (file_of folder name).aside };

    ghost is_out = { λ folder. folder.left ≡ 0 };

    ghost is_known = { λ fault. Unit {0} };

    fn write_state(&mut self, head: &[u8], _slots: u32) -> Result<(), Failed> {
        self.step()?;
        let Ok(text) = Text::copy(self.alloc, head) else {
            return Err(Failed);
        };
        self.state.aside = Held::Written(text);
        self.step()
    }

    fn write_marker(&mut self, lines: &str) -> Result<(), Failed> {
        self.step()?;
        let Ok(text) = Text::copy(self.alloc, lines.as_bytes()) else {
            return Err(Failed);
        };
        self.marker.aside = Held::Written(text);
        self.step()
    }

    fn sync_aside(&mut self, name: Name) -> Result<(), Failed> {
        self.step()?;
        match name {
            Name::State => self.state.sync_aside(),
            Name::Marker => self.marker.sync_aside(),
        }
        self.step()
    }

    fn rename(&mut self, name: Name) -> Result<(), Failed> {
        self.step()?;
        match name {
            Name::State => self.state.rename()?,
            Name::Marker => self.marker.rename()?,
        }
        self.step()
    }

    fn remove_marker(&mut self) -> Result<(), Failed> {
        self.step()?;
        self.marker.remove()?;
        self.step()
    }

    fn unmark_in_silence(&mut self) {
        if self.step().is_ok() {
            let _ = self.marker.remove();
        }
    }

    fn sync_names(&mut self) -> Result<(), Failed> {
        self.step()?;
        self.state.sync_name();
        self.step()?;
        self.marker.sync_name();
        self.step()
    }

    fn may_unmark(&self, _fault: &Failed) -> bool {
        true
    }
}
