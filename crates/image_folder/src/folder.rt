ghost use Rattle.std.specs.Prelude.{◌≤◌};

use crate::device::SumTable;
use crate::ended::of_folder;
use crate::marker::{lines_in, sealed};
use crate::own_file::{all_of, is_same, new_file, own_at, own_file, parent_of};
use crate::program::Program;
use crate::state_file::{Front, write_state, write_whole};
use crate::status::Status;
use diff_area::pages_for;
use image_order::{Name, StateFolder};
use std::alloc::{AllocError, Global};
use std::fs::File;
use std::io::ErrorKind;
use std::sync::Arc;
use std::{fs, io};
use volume_device::FileDevice;
use vss_names::MOST_SLOTS;

/// The name of the state's file.
pub const STATE: &str = "images.state";

/// The name of the area's file.
pub const AREA: &str = "images.area";

/// The name of the marker's file.
pub const MARKER: &str = "images.open";

/// The name of the file that has which volumes were brought to their files together.
pub const TOGETHER: &str = "images.together";

/// The name of the file that has when sets were cut.
pub const DATES: &str = "images.dates";

/// The most bytes of a marker.
const MOST_MARKER: u64 = 8192;

/// The most bytes of the list of what was brought together.
const MOST_TOGETHER: u64 = 1 << 16;

/// The most bytes of the list of sets.
const MOST_DATES: u64 = 1 << 24;

/// What is a line of no list.
const NO_LINE: &str = "?";

/// An open folder of images. It is locked until this is dropped.
#[derive(Drop)]
pub struct Folder {
    pub program: Program,
    pub path: String,
    pub held: File,
    /// The sums that the next state has, if it is to have some.
    pub sums: Option<Arc<SumTable, Global>>,
    /// The front that the next state has, if it is not that of the area's file.
    pub front: Option<Vec<u8>>,
    /// What was written aside, until it is synced.
    aside: Option<File>,
    /// The state's file, if another process may write meanwhile. While it is open no other file is taken for it.
    pub beside: Option<File>,
}

/// The name of the file that a name of `image_order` is.
fn file_name(name: Name) -> &'static str {
    match name {
        Name::State => STATE,
        Name::Marker => MARKER,
    }
}

/// The bytes of a small file, where it is there; none of what cannot be one.
fn small_at(program: &Program, path: &str, most: u64) -> Result<Option<Vec<u8>>, Status> {
    let bytes = match own_at(program, path, false) {
        Err(error) if error.kind() == ErrorKind::NotFound => return Ok(None),
        Ok(Some((file, found))) if found.len() <= most => all_of(program, file),
        Ok(_) => return Ok(Some(Vec::new(program.alloc()))),
        Err(error) => Err(error),
    };
    Ok(Some(of_folder(program, path, "could not be read", bytes)?))
}

impl Folder {
    /// Holds a folder.
    pub fn hold(program: &Program, path: &str) -> Result<Folder, Status> {
        let held = File::open(&program.rt, path);
        let held = of_folder(program, path, "could not be opened", held)?;
        Ok(Folder {
            program: *program,
            path: String::from_str(program.alloc(), path)?,
            held,
            sums: None,
            front: None,
            aside: None,
            beside: None,
        })
    }

    /// The table of the sums that the next state has, if it is to have some.
    pub fn table(&self) -> Result<Option<Arc<SumTable, Global>>, AllocError> {
        match &self.sums {
            Some(table) => Ok(Some(Arc::try_clone(table)?)),
            None => Ok(None),
        }
    }

    /// The path of a file in it.
    pub fn path_of(&self, name: &str) -> Result<String, AllocError> {
        format!(in self.program.alloc(); "{}/{name}", self.path)
    }

    /// The path of a volume's file.
    pub fn path_of_volume(&self, name: &str) -> Result<String, AllocError> {
        format!(in self.program.alloc(); "{}/{name}.vol", self.path)
    }

    /// The bytes of a small file of it, where it is there; none of one that is no file or too long.
    pub fn small(&self, name: &str) -> Result<Option<Vec<u8>>, Status> {
        let most = match name {
            DATES => MOST_DATES,
            TOGETHER => MOST_TOGETHER,
            _ => MOST_MARKER,
        };
        small_at(&self.program, self.path_of(name)?.as_str(), most)
    }

    /// The lines of a list of it, where it is there; one of no list of what cannot be one.
    pub fn list(&self, name: &str) -> Result<Option<String>, Status> {
        let Some(bytes) = self.small(name)? else {
            return Ok(None);
        };
        let (alloc, text) = (
            self.program.alloc(),
            std::str::from_utf8(&bytes).unwrap_or(""),
        );
        let lines = if text.is_empty() {
            NO_LINE
        } else {
            lines_in(alloc, text)?
        };
        Ok(Some(String::from_str(alloc, lines)?))
    }

    /// Says that a list of it is damaged.
    pub fn no_list(&self, name: &str) -> Status {
        ended!(self.program, Damaged; "{}/{name}: digest: another; images are not touched by it: look at it, and remove it", self.path)
    }

    /// Whether the file of a path lies in it.
    pub fn has_in_it(&self, path: &str) -> io::Result<bool> {
        let parent = fs::metadata(&self.program.rt, parent_of(path))?;
        Ok(is_same(&parent, &self.held.metadata()?))
    }

    /// The path of the file that is made for a name.
    fn path_of_new(&self, name: &str) -> Result<String, AllocError> {
        format!(in self.program.alloc(); "{}/{name}.new", self.path)
    }

    /// Makes the file of lines for a name.
    fn new_lines(&self, name: &str, lines: &str) -> Result<File, Status> {
        let text = sealed(self.program.alloc(), lines)?;
        let new = self.path_of_new(name)?;
        let made = write_whole(&self.program, new.as_str(), text.as_bytes());
        of_folder(&self.program, new.as_str(), "could not be written", made)
    }

    /// Makes a list of it, and sees that it lasts.
    pub fn put_list(&self, name: &str, lines: &str) -> Result<(), Status> {
        let file = self.new_lines(name, lines)?;
        self.sync_new(&file, name)?;
        self.put(name)
    }

    /// Makes the file of a state: the head, and the header and the table of an area of so many slots, as the area's file has them if they were
    /// not given. The area was synced before.
    fn new_state(&self, head: &[u8], slots: u32) -> Result<File, Status>
        requires { slots ≤ MOST_SLOTS }
    {
        let path = self.path_of(AREA)?;
        let (area, _) = own_file(&self.program, path.as_str(), false, "could not be opened")?;
        let new = self.path_of_new(STATE)?;
        let front = match &self.front {
            Some(front) => Front::Given(front),
            None => Front::OfFile(&area, 1 + pages_for(slots)),
        };
        let made = write_state(
            &self.program,
            new.as_str(),
            head,
            front,
            self.sums.as_deref(),
        );
        of_folder(&self.program, new.as_str(), "could not be written", made)
    }

    /// Makes a state that of a new folder.
    pub fn commit(&self, head: &[u8], slots: u32) -> Result<(), Status>
        requires { slots ≤ MOST_SLOTS }
    {
        let file = self.new_state(head, slots)?;
        self.sync_new(&file, STATE)?;
        self.put(STATE)
    }

    /// Sees that the bytes of the file that was made for a name last.
    fn sync_new(&self, file: &File, name: &str) -> Result<(), Status> {
        let new = self.path_of_new(name)?;
        of_folder(
            &self.program,
            new.as_str(),
            "could not be written",
            file.sync_all(),
        )
    }

    /// A device of so many blocks over a new file of it, which has no name any more: it is gone once it is closed.
    pub fn spool(&self, name: &str, blocks: u32) -> Result<FileDevice, Status> {
        let path = format!(in self.program.alloc(); "{}/{name}.spool", self.path)?;
        let made = new_file(&self.program, path.as_str());
        let file = of_folder(&self.program, path.as_str(), "could not be made", made)?;
        let gone = fs::remove_file(&self.program.rt, path.as_str());
        of_folder(&self.program, path.as_str(), "could not be removed", gone)?;
        Ok(FileDevice::new(file, path, blocks))
    }

    /// Gives the file that was made for a name this name.
    fn rename_to(&self, name: &str) -> Result<(), Status> {
        let (new, path) = (self.path_of_new(name)?, self.path_of(name)?);
        let renamed = fs::rename(&self.program.rt, new.as_str(), path.as_str());
        of_folder(&self.program, new.as_str(), "could not be renamed", renamed)
    }

    /// Gives the file that was made for a name this name, and sees that this lasts.
    fn put(&self, name: &str) -> Result<(), Status> {
        self.rename_to(name)?;
        self.sync()
    }

    /// Sees that its names last.
    pub fn sync(&self) -> Result<(), Status> {
        match self.held.sync_all() {
            Ok(()) => Ok(()),
            Err(error) => {
                Err(ended!(self.program, Unsettled; "{}: could not be synced: {error}", self.path))
            }
        }
    }
}

/// It tells nothing: what the system's files keep is the trusted edge.
impl StateFolder<Status> for Folder {
    ghost use Rattle.std.specs.Prelude.{◌≢◌};
    ghost use Rattle.image_folder.specs.declared.status.Status.{Status as StatusOf};

    ghost found = { λ f name file. ⊥ };

    ghost now = { λ f name file. ⊥ };

    ghost written = { λ f name file. ⊥ };

    ghost aside = { λ f name file. ⊥ };

    ghost is_known = { λ fault. fault ≢ StatusOf.Unsettled };

    fn write_state(&mut self, head: &[u8], slots: u32) -> Result<(), Status> {
        self.aside = Some(self.new_state(head, slots.min(MOST_SLOTS))?);
        Ok(())
    }

    fn write_marker(&mut self, lines: &str) -> Result<(), Status> {
        self.aside = Some(self.new_lines(MARKER, lines)?);
        Ok(())
    }

    fn sync_aside(&mut self, name: Name) -> Result<(), Status> {
        match self.aside.take() {
            Some(file) => self.sync_new(&file, file_name(name)),
            None => Err(Status::DeviceFault),
        }
    }

    fn rename(&mut self, name: Name) -> Result<(), Status> {
        self.rename_to(file_name(name))
    }

    fn remove_marker(&mut self) -> Result<(), Status> {
        let path = self.path_of(MARKER)?;
        let gone = fs::remove_file(&self.program.rt, path.as_str());
        of_folder(&self.program, path.as_str(), "could not be removed", gone)
    }

    fn unmark_in_silence(&mut self) {
        if let Ok(path) = self.path_of(MARKER) {
            if fs::remove_file(&self.program.rt, path.as_str()).is_ok() {
                let _ = self.held.sync_all();
            }
        }
    }

    fn sync_names(&mut self) -> Result<(), Status> {
        self.sync()
    }

    fn may_unmark(&self, fault: &Status) -> bool {
        !matches!(fault, Status::Unsettled)
    }
}
