ghost use Rattle.std.specs.Prelude.{◌≡◌, ◌<◌, ◌≤◌, ◌+◌, ◌*◌, ℕ, false, None, Ok, length};
ghost use Rattle.std.specs.Prelude.{replicate, vec_capacity, IfOk, OnOk};
ghost use Rattle.cow_volume.specs.Calls.{blocks_at};
ghost use Rattle.image_order.specs.declared.copied.Copied.{Copied as CopiedOf};
ghost use Rattle.image_store.specs.Ordering.{aim_of, marked_in, AllImages, IsCopyPass, IsOverwrite};
ghost use Rattle.image_store.specs.Copying.{AreCopied};
ghost use Rattle.image_store.specs.declared.pass.Pass.TheVariants.{Done};

use crate::pass::Pass;
use crate::pass_fault::PassFault;
use crate::report::Report;
use crate::store::Store;
use image_order::Copied;
use std::alloc::{AllocError, Global};
use volume_device::Device;
use vss_names::{Failed, MOST_IMAGES};
use write_history::Evicted;

/// How many blocks are copied at a time: one MiB.
const PART: u32 = 64;

/// A volume that is brought to what another device has.
#[derive(Drop)]
pub struct Job<I: Device> {
    pub volume: u32,
    pub input: I,
    /// The blocks that differ (`Store::compare`), and how many they are.
    pub differs: Vec<bool>,
    pub written: u32,
    /// How many blocks were copied for images.
    pub copied: u32,
    /// The next block that is copied if it differs.
    pub at: u32,
}

/// Empties a list, and sees that it has room for all images of a store.
pub fn make_empty<D: Device>(store: &Store<D>, gone: &mut Vec<Evicted>) -> Result<(), AllocError>
    ensures { OnOk result (512 * length store.now.group.area.volumes ≤ vec_capacity gone.new) }
{
    gone.clear();
    gone.reserve(MOST_IMAGES * store.volumes() as usize)
}

/// How many blocks are marked from one on to before another.
#[tactic(auto, using(crate::proofs::Copied::marked_few, crate::proofs::Copied::marked_more))]
fn marked(differs: &[bool], from: u32, to: u32) -> u32
    ensures { from ≤ to → marked_in to differs.now ≡ marked_in from differs.now + result }
{
    let mut count = 0u32;
    for block in from..to {
        let mark = differs.get(block as usize).copied().unwrap_or(false);
        count = count.saturating_add(u32::from(mark));
    }
    count
}

/// Why a volume was not overwritten. All that is overwritten has copies, so no image has to go for one.
fn fault_of(done: Result<Pass, PassFault>) -> Option<PassFault>
    ensures { result ≡ None → done ≡ Ok Done }
{
    match done {
        Ok(Pass::Done) => None,
        Ok(Pass::Evicted { .. }) => Some(PassFault::Volume),
        Err(fault) => Some(fault),
    }
}

impl<I: Device> Job<I> {
    /// That of a volume of as many blocks as the device has. None of them is marked.
    pub fn new(alloc: Global, volume: u32, input: I) -> Result<Job<I>, AllocError>
        ensures volume { IfOk result (λ job. job.volume ≡ volume) }
        ensures input { IfOk result (λ job. job.input ≡ input) }
        ensures marks { IfOk result (λ job. job.differs.items ≡ replicate (I.size input) false) }
        ensures counts { IfOk result (λ job. (job.written ≡ 0) × (job.copied ≡ 0)) }
        ensures begun { IfOk result (λ job. job.at ≡ 0) }
    {
        let blocks = input.blocks() as usize;
        Ok(Job {
            volume,
            differs: vec![in alloc; false; blocks]?,
            input,
            written: 0,
            copied: 0,
            at: 0,
        })
    }

    /// Counts the blocks that are marked.
    #[tactic(auto, using(crate::proofs::Copied::marked_none))]
    pub fn count(&mut self)
        ensures { self.new ≡ record self.old {
          written = marked_in (I.size self.old.input) self.old.differs.items;
        } }
    {
        self.written = marked(&self.differs, 0, self.input.blocks());
    }

    /// That the device and the marks are of as many blocks as the volume.
    pub fn fits<D: Device>(&self, store: &Store<D>) -> Result<(), Failed>
        ensures volume { OnOk result (self.now.volume < length store.now.group.area.volumes) }
        ensures sizes { OnOk result (
            I.size self.now.input ≡ blocks_at store.now.group self.now.volume) }
        ensures marks { OnOk result (
            length self.now.differs.items ≡ blocks_at store.now.group self.now.volume) }
        ensures images { OnOk result (AllImages store.now.group) }
    {
        if self.volume >= store.volumes() {
            return Err(Failed);
        }
        store.has_volumes();
        let blocks = store.blocks(self.volume);
        if self.input.blocks() != blocks || self.differs.len() != blocks as usize {
            return Err(Failed);
        }
        Ok(())
    }

    /// Copies a part of the volume, or up to where images went.
    fn copy_part<D: Device, R: Report<D, I, E>, E: From<Failed> + From<AllocError> + Drop>(
        &mut self,
        store: &mut Store<D>,
        gone: &mut Vec<Evicted>,
        report: &R,
    ) -> Result<Copied, E>
        ensures aim { aim_of I.told self.new ≡ aim_of I.told self.old }
        ensures pass { IsCopyPass D.told store.old store.new result }
        ensures copied { AreCopied store.old.group self.old.volume self.old.differs.items 0 self.old.at
            → AreCopied store.new.group self.old.volume self.old.differs.items 0 self.new.at }
    {
        self.fits(store)?;
        make_empty(store, gone)?;
        let (from, to) = (self.at, self.at.saturating_add(PART));
        match store.copy_ahead(self.volume, &self.differs, from, to, &mut self.copied, gone) {
            Err(_) => {
                report.stop(&mut self.input);
                Err(E::from(Failed))
            }
            Ok(Pass::Done) => {
                self.at = to;
                Ok(Copied::All)
            }
            Ok(Pass::Evicted { at, .. }) => {
                self.at = at;
                report.stop(&mut self.input);
                Ok(Copied::UntilEvicted)
            }
        }
    }

    /// The second pass, or what is left of it: old bytes go into slots. Every slot that images gave up is used only after the commit without them.
    pub fn copy_ahead<D: Device, R: Report<D, I, E>, E: From<Failed> + From<AllocError> + Drop>(
        &mut self,
        store: &mut Store<D>,
        gone: &mut Vec<Evicted>,
        report: &R,
    ) -> Result<Copied, E>
        ensures aim { aim_of I.told self.new ≡ aim_of I.told self.old }
        ensures pass { IsCopyPass D.told store.old store.new result }
        ensures copied { AreCopied store.old.group self.old.volume self.old.differs.items 0 self.old.at
            → AreCopied store.new.group self.old.volume self.old.differs.items 0 self.new.at }
        ensures whole { IfOk result (λ copied. copied ≡ CopiedOf.All → length self.old.differs.items ≤ self.new.at) }
    {
        if self.at == 0 {
            report.begin(&mut self.input, "copied", self.written);
        }
        'parts: for _part in 0..u32::MAX {
            if self.at as usize >= self.differs.len() {
                return Ok(Copied::All);
            }
            let from = self.at;
            match self.copy_part(store, gone, report) {
                Err(fault) => return Err(fault),
                Ok(Copied::UntilEvicted) => {
                    report.step(&mut self.input, marked(&self.differs, from, self.at));
                    return Ok(Copied::UntilEvicted);
                }
                Ok(Copied::All) => report.step(
                    &mut self.input,
                    marked(&self.differs, from, self.at),
                ),
            }
        }
        Err(E::from(Failed))
    }

    /// The third pass: the blocks that differ are written.
    pub fn overwrite<D: Device, R: Report<D, I, E>, E: From<Failed> + From<AllocError> + Drop>(
        &mut self,
        store: &mut Store<D>,
        gone: &mut Vec<Evicted>,
        report: &R,
    ) -> Result<(), E>
        ensures aim { aim_of I.told self.new ≡ aim_of I.told self.old }
        ensures written { IsOverwrite D.told (aim_of I.told self.old) store.old store.new result }
    {
        report.begin(&mut self.input, "written", self.written);
        make_empty(store, gone)?;
        self.fits(store)?;
        let done = store.overwrite(self.volume, &mut self.input, &self.differs, 0, gone);
        report.end(&mut self.input, fault_of(done))
    }
}
