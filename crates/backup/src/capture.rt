use image_folder::{
    FileInput, Files, Job as Passes, Opened, Program, Status, brought_of, capture, ended,
    say_unseen,
};
use volume_device::{FileDevice, FileFault};

/// How many blocks are read at a time in a freeze: 16 MiB.
const PART: u32 = 1024;

/// A file that is read while its writer stands still.
#[derive(Drop)]
pub struct Capture<'a> {
    /// The volume, by its number in the job.
    pub volume: u32,
    passes: Passes<'a>,
    spool: FileDevice,
    /// The next block.
    at: u32,
}

/// The file is read as it was captured.
fn read_captured(input: &mut FileInput<'_>, spool: FileDevice) {
    input.spool = Some(spool);
}

impl<'a> Capture<'a> {
    /// That of a file of which nothing was read yet.
    pub fn new(volume: u32, passes: Passes<'a>, spool: FileDevice) -> Capture<'a> {
        Capture {
            volume,
            passes,
            spool,
            at: 0,
        }
    }

    /// Whether all of it was read.
    fn is_read(&self) -> bool {
        self.at >= self.passes.input.blocks
    }

    /// Reads the next part. Whether it was the last is answered.
    fn read_part(&mut self, program: &Program, store: &mut Files) -> Result<bool, Status> {
        let to = self.at.saturating_add(PART);
        capture(&mut self.passes, store, &mut self.spool, self.at, to)?;
        self.at = to;
        if !self.is_read() {
            return Ok(false);
        }
        self.check(program)?;
        Ok(true)
    }

    /// The passes over what was captured.
    fn into_passes(self) -> Passes<'a> {
        let Capture {
            mut passes,
            spool,
            ..
        } = self;
        read_captured(&mut passes.input, spool);
        passes
    }

    /// That the file has not changed.
    fn check(&mut self, program: &Program) -> Result<(), Status> {
        match self.passes.input.check() {
            Err(Status::InputChanged) => Err(
                ended!(*program, InputChanged; "the file of {} changed while it was read", self.passes.input.name),
            ),
            done => done,
        }
    }
}

/// Reads the next part of the file of a volume of the job, which one volume of the folder keeps or several. Whether it was the last is answered.
pub fn read_part(
    program: &Program,
    store: &mut Files,
    captures: &mut Vec<Capture<'_>>,
    volume: u32,
) -> Result<bool, Status> {
    let mut left = 0u32;
    for capture in captures.iter() {
        left = left.saturating_add(u32::from(capture.volume == volume && !capture.is_read()));
    }
    for capture in captures.iter_mut() {
        if capture.volume == volume && !capture.is_read() {
            let is_last = capture.read_part(program, store)?;
            return Ok(is_last && left == 1);
        }
    }
    Err(Status::DeviceFault)
}

/// That no file has changed. How many blocks were read, and how many of them differ, is answered.
pub fn check_all(program: &Program, captures: &mut Vec<Capture<'_>>) -> Result<(u32, u32), Status> {
    let (mut all, mut differ) = (0u32, 0u32);
    for capture in captures.iter_mut() {
        capture.check(program)?;
        all = all.saturating_add(capture.passes.input.blocks);
        differ = differ.saturating_add(capture.passes.written);
    }
    Ok((all, differ))
}

/// Says which spool failed, if one did: then nothing of the folder did, and the call ends as behind a file that could not be read.
pub fn fault_of(program: &Program, captures: Vec<Capture<'_>>) -> Status {
    for capture in captures {
        let Capture { spool, .. } = capture;
        if let Some(FileFault { path, call, error }) = spool.into_fault() {
            return ended!(*program, Unread; "{path}: {call}: {error}");
        }
    }
    Status::DeviceFault
}

/// Volumes are brought to what passes have. Sets that went for it in memory, and may not, are never committed: it ends as if the folder failed.
pub fn overwrite(opened: &mut Opened, jobs: &mut Vec<Passes<'_>>) -> Result<(), Status> {
    match opened.overwrite(None, jobs) {
        Err(Status::Refused) => Err(Status::FolderFault),
        done => done,
    }
}

/// The volumes take what was captured, and keep it.
pub fn take_all(opened: &mut Opened, captures: Vec<Capture<'_>>) -> Result<(), Status> {
    let mut jobs = Vec::new(opened.folder.program.alloc());
    for capture in captures {
        jobs.push(capture.into_passes())?;
    }
    opened.check_room(&jobs)?;
    overwrite(opened, &mut jobs)?;
    for job in &jobs {
        if job.volume >= opened.store.volumes() || opened.store.flush(job.volume).is_err() {
            return Err(Status::DeviceFault);
        }
    }
    say_unseen(&jobs);
    let brought = brought_of(opened.folder.program.alloc(), &jobs)?;
    opened.folder.note_together(&brought)
}
