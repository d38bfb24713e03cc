//! The volumes of a file are brought back to their images of a set: the order of the calls is that of `image_order`. Over files the passes tell nothing.

use crate::opened::{Files, Opened};
use crate::program::Program;
use crate::status::Status;
use image_order::{Copied, Passes, Reverts, revert_in_order};
use vss_names::Text;

/// Which volumes are brought back to their images of which set.
#[derive(Drop)]
struct Reverting {
    program: Program,
    set: u32,
    volumes: Vec<u32>,
}

impl Passes<Status, Reverting> for Files {
    ghost use Rattle.image_store.specs.Head.{head_of};

    ghost head = { λ p. head_of p };

    ghost stands = { λ jobs first p. Unit {0} };

    ghost is_before = { λ first p. Unit {0} };

    ghost opens = { λ first p h. Unit {0} };

    ghost holds = { λ first p h. Unit {0} };

    ghost covers = { λ jobs first p h. Unit {0} };

    ghost is_copied = { λ jobs. Unit {0} };

    ghost is_torn = { λ jobs. Unit {0} };

    ghost is_brought = { λ jobs first p. Unit {0} };

    ghost lasts = { λ jobs p. Unit {0} };

    /// The image has the copies of all that is overwritten.
    fn copy(&mut self, _jobs: &mut Reverting) -> Result<Copied, Status> {
        Ok(Copied::All)
    }

    fn say_gone(&self, _jobs: &Reverting) -> Result<(), Status> {
        Ok(())
    }

    fn sync(&mut self, _jobs: &Reverting) -> Result<(), Status> {
        match self.sync() {
            Ok(()) => Ok(()),
            Err(_) => Err(Status::DeviceFault),
        }
    }

    fn head(&self, jobs: &Reverting) -> Result<Text, Status> {
        Ok(self.head(jobs.program.alloc())?)
    }

    fn slots(&self) -> u32 {
        self.slots()
    }

    fn overwrite(&mut self, jobs: &mut Reverting) -> Result<(), Status> {
        self.restore(jobs)
    }

    fn finish(&mut self, jobs: &Reverting) -> Result<(), Status> {
        self.settle(jobs)
    }

    ghost held_open = { λ first now h held. held };

    ghost covered_open = { λ jobs first now h covered. covered };
}

impl Reverts<Status, Reverting> for Files {
    ghost is_restored = { λ jobs first p. Unit {0} };

    fn restore(&mut self, jobs: &Reverting) -> Result<(), Status> {
        for volume in &jobs.volumes {
            if *volume >= self.volumes() || self.revert(jobs.set, *volume).is_err() {
                return Err(Status::DeviceFault);
            }
        }
        Ok(())
    }

    fn settle(&mut self, jobs: &Reverting) -> Result<(), Status> {
        for volume in &jobs.volumes {
            if *volume >= self.volumes() || self.flush(*volume).is_err() {
                return Err(Status::DeviceFault);
            }
        }
        Ok(())
    }
}

impl Opened {
    /// Brings volumes back to their images of a set, under a marker of these lines. In memory the newer images are gone.
    pub fn revert(&mut self, lines: &str, set: u32, volumes: Vec<u32>) -> Result<(), Status> {
        let (program, was_torn) = (self.folder.program, self.is_torn);
        let jobs = Reverting {
            program,
            set,
            volumes,
        };
        self.is_marked = true;
        revert_in_order(&mut self.folder, &mut self.store, &jobs, lines, was_torn)?;
        self.folder.give_back()
    }
}
