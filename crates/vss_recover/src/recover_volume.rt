ghost use Rattle.std.specs.Prelude.{◌≡◌, ◌<◌, ◌≤◌, ◌++◌, ◌∷◌, ◌&&◌, ◌||◌, ◌==◌, [], true, None, Some, length, replicate, slice_get, vec_capacity, not, List, All, IfOk, IfErr, OnOk};
ghost use Rattle.block_data.specs.BlockBytes.{payload_bytes};
ghost use Rattle.write_history.specs.History.{History, point_in, names};
ghost use Rattle.write_history.specs.Slots.{used, Copy};
ghost use Rattle.diff_area.specs.Copies.{AreHeld, AreStored};
ghost use Rattle.diff_area.specs.Format.{free, used_in};
ghost use Rattle.cow_volume.specs.Calls.{IsQuiet, IsUnfailed, VolumeRose, is_among};
ghost use Rattle.cow_volume.specs.Resuming.{AllHaveImages};
ghost use Rattle.cow_volume.specs.OneVolume.{StandsForOne, blocks_of, image_sets, IsOneWrite, IsOneCopiedOnce, IsOneNow, HasOneCause, IsOneDropped};
ghost use Rattle.vss_recover.specs.Calls.{IsStep, IsBeside, IsSettledUpTo, IsDropped, IsReadAlone, AreUnfailed, HasReadCause, IsShown, IsOpened, IsRecoverWrite, IsReverted, IsRevertStep, IsClosed, IsClosingStep, IsSettled, HasOpenCause, MayOpen};
ghost use Rattle.vss_recover.specs.OverlayCalls.{count_in, lacks_room};
ghost use Rattle.vss_recover.specs.Recoveries.{IsOfImages, Recovering, unrecovered, recovered, blocks_recovered, all_recovered, with_final, kept_window};
ghost use Rattle.vss_recover.specs.RecoverValue.{IsOverlay, RecoverValue, StandsFor};
ghost use Rattle.vss_recover.specs.Steps.{Step};
ghost use Rattle.vss_recover.specs.Syncing.{IsRecoverSync, KeepsSaid, HasCopiesOf, IsRefused, taken_up, unopened};

use crate::claim::Claim;
use crate::claims::{first_out, first_overlap, owner_of};
use crate::entries::look_for_images;
use crate::finals::{MOST_CLAIMS, Room, final_among, keep_finals, kept_window, take_claims};
use crate::open_fault::OpenFault;
use crate::overlay::{Overlay, put_payload};
use crate::recover_fault::RecoverFault;
use crate::recover_revert::RecoverRevert;
use block_data::{BLOCK, BlockBuf, Payload};
use cow_volume::{Cause, CowVolume, ImageFault, ResumeFault, RevertFault, WriteFault, Written};
use diff_area::Area;
use std::alloc::Global;
use std::marker::Model;
use std::mem::swap;
use volume_device::Device;
use vss_names::OutOfMemory;

/// A copy-on-write volume whose newest image writers may mend before it is final.
///
/// `pre_final` opens the window of the newest image, with the blocks that each writer claims; `recover_write` changes one of them in
/// the image alone; `post_final` closes the window, and the image is final. The other calls are those of a copy-on-write volume.
#[derive(Drop)]
pub struct RecoverVolume<D: Device> {
    volume: CowVolume<D>,
    overlay: Overlay<D>,
    window: Option<u32>,
    claims: Vec<Claim>,
    /// The sets of the standing images whose window was closed.
    finals: Vec<u32>,
    /// Where the next list of these is made.
    next_finals: Vec<u32>,
    /// A block that is written.
    scratch: BlockBuf,
}

impl<D: Device> Model for RecoverVolume<D> {
    ghost use Rattle.vss_recover.specs.RecoverValue.{RecoverValue, KeepsWindow};

    ghost Value = { RecoverValue D };

    ghost view = { λ v. record { volume = v.volume; overlay = v.overlay; window = v.window; claims = v.claims.items; final = v.finals.items } };

    ghost invariant = { λ v. KeepsWindow v.volume v.overlay v.window v.claims v.finals v.next_finals };
}

impl<D: Device> RecoverVolume<D> {
    /// A volume no image of which was mended. The overlay is of one volume of as many blocks, and its slots are free. It takes all
    /// memory of the later calls.
    pub fn new(
        alloc: Global,
        volume: CowVolume<D>,
        overlay: Area<D>,
    ) -> Result<RecoverVolume<D>, OutOfMemory>
        requires fits { overlay.volumes ≡ blocks_of volume ∷ [] }
        requires free { overlay.records ≡ replicate (length overlay.records) free }
        ensures value { IfOk result (λ v. v ≡ record { volume = volume; overlay = overlay; window = None; claims = []; final = [] }) }
        ensures stands { IfOk result (λ v. (h : History) → StandsForOne D.told volume h → StandsFor D.told v (unrecovered h)) }
    {
        let overlay = Overlay::new(alloc, overlay)?;
        RecoverVolume::without_window(alloc, volume, overlay, &[])
    }

    /// Takes a volume up again: the copy-on-write volume, the overlay with the blocks that its records say, and the sets of the final
    /// images; those that have no image are left out. No window is open. It takes all memory of the later calls. The volume stands for
    /// what its parts stand for, and so for what a volume stood for from whose overlay, once synced, this one was loaded. If the overlay's
    /// device does not tell what it holds, that is what the copy-on-write volume stands for, with some recovery writes.
    pub fn resume(
        alloc: Global,
        volume: CowVolume<D>,
        overlay: Area<D>,
        finals: &[u32],
    ) -> Result<RecoverVolume<D>, ResumeFault>
        requires fits { overlay.volumes ≡ blocks_of volume ∷ [] }
        requires few { length finals.now ≤ 512 }
        ensures value { IfOk result (λ v. v ≡ taken_up volume overlay finals.now) }
        ensures have_images { OnOk result (AllHaveImages overlay.records (image_sets volume ∷ [])) }
        ensures refused { IfErr result (IsRefused overlay.records (image_sets volume ∷ [])) }
        ensures stands { IfOk result (λ v. (h : Recovering) → StandsForOne D.told volume h.volume
            → IsOverlay (D.told overlay.device) overlay.records (blocks_of volume) h.recoveries
            → IsOfImages (image_sets volume) h → h.final ≡ finals.now
            → StandsFor D.told v (unopened h)) }
        ensures loaded { IfOk result (λ v. (was : RecoverValue D) (h : Recovering) → StandsFor D.told was h
            → HasCopiesOf D.told was.overlay overlay → blocks_of volume ≡ blocks_of was.volume
            → finals.now ≡ was.final → StandsForOne D.told volume h.volume
            → StandsFor D.told v (unopened h)) }
        ensures untold { IfOk result (λ v. (h : History) → D.told overlay.device ≡ None
            → StandsForOne D.told volume h → (r : Recovering) × (r.volume ≡ h) × StandsFor D.told v r) }
    {
        look_for_images(&overlay, volume.images())?;
        let Ok(overlay) = Overlay::resume(alloc, overlay) else {
            return Err(ResumeFault::OutOfMemory);
        };
        match RecoverVolume::without_window(alloc, volume, overlay, finals) {
            Ok(volume) => Ok(volume),
            Err(_) => Err(ResumeFault::OutOfMemory),
        }
    }

    /// A volume with no open window. It takes all memory of the later calls but the overlay's.
    fn without_window(
        alloc: Global,
        volume: CowVolume<D>,
        overlay: Overlay<D>,
        finals: &[u32],
    ) -> Result<RecoverVolume<D>, OutOfMemory>
        requires fits { overlay.volumes ≡ blocks_of volume ∷ [] }
        requires few { length finals.now ≤ 512 }
        ensures { IfOk result (λ v. v ≡ taken_up volume overlay finals.now) }
    {
        let mut room = Room::new(alloc, finals)?;
        keep_finals(&mut room.finals, volume.images());
        Ok(RecoverVolume {
            volume,
            overlay,
            window: None,
            claims: room.claims,
            finals: room.finals,
            next_finals: room.next_finals,
            scratch: room.scratch,
        })
    }

    /// The sets of the images, the oldest first.
    pub fn images(&self) -> &[u32]
        ensures images { result.now ≡ image_sets self.now.volume }
        ensures few { length result.now ≤ 512 }
    {
        self.volume.images()
    }

    /// How many slots of the diff area the images use.
    pub fn used(&self) -> u32
        ensures { (h : Recovering) → StandsFor D.told self.now h → result ≡ used (blocks_of self.now.volume) h.volume.writes h.volume.images }
    {
        self.volume.used()
    }

    /// How many slots of the overlay the images use: one for each block of an image that a recovery write names.
    pub fn overlay_used(&self) -> u32
        ensures slots { result ≡ used_in self.now.overlay.records }
        ensures pairs { (h : Recovering) → StandsFor D.told self.now h → result ≡ all_recovered (blocks_of self.now.volume) h.recoveries (image_sets self.now.volume) }
    {
        let _valid = self.overlay.slots();
        self.overlay.used()
    }

    /// The set whose window is open.
    pub fn window(&self) -> Option<u32>
        ensures { result ≡ self.now.window }
    {
        self.window
    }

    /// An image is cut, the newest. It is not final.
    pub fn cut(&mut self, set: u32)
        requires room { length (image_sets self.old.volume) < 512 }
        requires above_zero { 0 < set }
        requires newest { All (λ s. s < set) (image_sets self.old.volume) }
        requires closed { self.old.window ≡ None }
        ensures devices { self.new.volume.devices ≡ self.old.volume.devices }
        ensures area { self.new.volume.area ≡ self.old.volume.area }
        ensures images { image_sets self.new.volume ≡ image_sets self.old.volume ++ set ∷ [] }
        ensures beside { IsBeside self.old self.new }
        ensures step { IsStep D.told self.old self.new (Step.Cut set) }
    {
        self.volume.cut(set);
    }

    /// Reads a block as it is into `out`, which after a failed read holds any bytes.
    pub fn read_into(&mut self, block: u32, out: &mut [u8]) -> Result<(), Cause>
        requires { length out.old ≡ BLOCK }
        ensures in_range { OnOk result (block < blocks_of self.old.volume) }
        ensures now { OnOk result (IsOneNow D.told self.old.volume block out.new) }
        ensures same { OnOk result (IsUnfailed D.count self.old.volume self.new.volume) }
        ensures cause { IfErr result (HasOneCause D.count block self.old.volume self.new.volume) }
        ensures quiet { IsQuiet D.Device self.old.volume self.new.volume }
        ensures beside { IsBeside self.old self.new }
        ensures stands { (h : Recovering) → StandsFor D.told self.old h → StandsFor D.told self.new h }
    {
        self.volume.read_into(block, out)
    }

    /// Reads a block as the image of a set shows it into `out`, which after a failed read holds any bytes.
    pub fn read_image_into(
        &mut self,
        set: u32,
        block: u32,
        out: &mut [u8],
    ) -> Result<(), ImageFault>
        requires { length out.old ≡ BLOCK }
        ensures image { OnOk result (is_among set (image_sets self.old.volume) ≡ true) }
        ensures in_range { OnOk result (block < blocks_of self.old.volume) }
        ensures shown { OnOk result (IsShown D.told self.old set block out.new) }
        ensures same { OnOk result (AreUnfailed D.count self.old self.new) }
        ensures cause { IfErr result (HasReadCause D.count set block self.old self.new) }
        ensures alone { IsReadAlone D.Device self.old self.new }
        ensures stands { (h : Recovering) → StandsFor D.told self.old h → StandsFor D.told self.new h }
    {
        if !self.has_image(set) {
            return Err(ImageFault::NoSuchImage);
        }
        if block >= self.volume.blocks() {
            return Err(ImageFault::NoSuchBlock);
        }
        match self.overlay.find(set, block) {
            None => self.volume.read_image_into(set, block, out),
            Some(slot) => match self.overlay.read_slot(slot, out) {
                Ok(()) => Ok(()),
                Err(_) => Err(ImageFault::Area),
            },
        }
    }

    /// Writes a block of the volume. No image shows anything else for it; the oldest may go, as a copy-on-write volume has it, and give
    /// their overlay slots back.
    pub fn write(&mut self, block: u32, payload: &Payload) -> Result<Written, WriteFault>
        ensures write { IsOneWrite D.Device self.old.volume self.new.volume (record { block = block; bytes = payload_bytes payload.now }) result }
        ensures once { IsOneCopiedOnce D.told self.old.volume self.new.volume block }
        ensures settled { IfOk result (λ done. IsSettledUpTo done.evicted_up_to self.old self.new) }
        ensures settled_too { IfErr result (λ fault. IsSettledUpTo fault.evicted_up_to self.old self.new) }
        ensures step { IfOk result (λ done. IsStep D.told self.old self.new (Step.Wrote (record { block = block; bytes = payload_bytes payload.now }) done.evicted_up_to)) }
        ensures evicted { IfErr result (λ fault. IsStep D.told self.old self.new (Step.Evicted fault.evicted_up_to)) }
    {
        match self.volume.write(block, payload) {
            Ok(written) => {
                self.settle_up_to(written.evicted_up_to);
                Ok(written)
            }
            Err(fault) => {
                self.settle_up_to(fault.evicted_up_to);
                Err(fault)
            }
        }
    }

    /// The image of a set goes, gives its overlay slots back, and closes its window.
    pub fn drop_image(&mut self, set: u32) -> Result<(), ImageFault>
        ensures dropped { IsOneDropped D.Device self.old.volume self.new.volume set result }
        ensures settled { IsDropped self.old self.new result }
        ensures step { OnOk result (IsStep D.told self.old self.new (Step.Dropped set)) }
    {
        self.volume.drop_image(set)?;
        self.settle();
        Ok(())
    }

    /// Opens the window of the newest image, with at most 64 claims.
    pub fn pre_final(&mut self, set: u32, claims: &[Claim]) -> Result<(), OpenFault>
        requires few { length claims.now ≤ MOST_CLAIMS }
        ensures opened { IsOpened self.old self.new set claims.now result }
        ensures step { OnOk result (IsStep D.told self.old self.new (Step.Opened set claims.now)) }
    {
        self.may_open(set)?;
        if let Some(claim) = first_out(claims, self.volume.blocks()) {
            return Err(OpenFault::BadRange { claim });
        }
        if let Some((first, second)) = first_overlap(claims) {
            return Err(OpenFault::Overlap { first, second });
        }
        take_claims(&mut self.claims, claims);
        self.window = Some(set);
        Ok(())
    }

    /// Changes a block of the image whose window is open, for the writer that claimed it. Where the overlay's device fails, the image
    /// shows what it showed.
    pub fn recover_write(
        &mut self,
        set: u32,
        writer: u32,
        block: u32,
        payload: &Payload,
    ) -> Result<(), RecoverFault>
        ensures recovered { IsRecoverWrite D.Device self.old self.new set writer block result }
        ensures full { (h : Recovering) → StandsFor D.told self.old h → self.old.window ≡ Some set → block < blocks_of self.old.volume
            → lacks_room self.old.overlay.records set block ≡ (not (names (recovered set h.recoveries) block) && (all_recovered (blocks_of self.old.volume) h.recoveries (image_sets self.old.volume) == length self.old.overlay.records)) }
        ensures step { OnOk result (IsStep D.told self.old self.new (Step.Recovered (record { set = set; writer = writer; write = record { block = block; bytes = payload_bytes payload.now } }))) }
        ensures kept { IfErr result (λ fault. (h : Recovering) → StandsFor D.told self.old h → StandsFor D.told self.new h) }
    {
        let _facts = self.overlay.slots();
        if self.window != Some(set) {
            return Err(RecoverFault::NotOpen);
        }
        if block >= self.volume.blocks() {
            return Err(RecoverFault::NoSuchBlock);
        }
        let owner = owner_of(&self.claims, block);
        if owner != Some(writer) {
            return Err(RecoverFault::NotOwner { owner });
        }
        put_payload(&mut self.overlay, &mut self.scratch, set, block, payload)
    }

    /// Closes the open window, whose image is final from then on, and gives its set.
    pub fn post_final(&mut self) -> Option<u32>
        ensures closed { IsClosed self.old self.new result }
        ensures step { IsClosingStep D.told self.old self.new result }
    {
        let set = self.window?;
        self.note_final(set);
        self.window = None;
        Some(set)
    }

    /// Brings the volume back to the image of a set, where no writer changed it; the newer images go.
    pub fn revert(&mut self, set: u32) -> Result<(), RecoverRevert>
        ensures reverted { IsReverted D.Device self.old self.new set result }
        ensures number { (h : Recovering) → StandsFor D.told self.old h → is_among set (image_sets self.old.volume) ≡ true → count_in set self.old.overlay.records ≡ blocks_recovered (blocks_of self.old.volume) h.recoveries set }
        ensures step { IsRevertStep D.told self.old self.new set result }
    {
        let _valid = self.overlay.slots();
        if !self.has_image(set) {
            return Err(RecoverRevert::Other(RevertFault::NoSuchImage));
        }
        let blocks = self.overlay.used_by(set);
        if blocks > 0 {
            return Err(RecoverRevert::Recovered { blocks });
        }
        let reverted = self.volume.revert(set);
        self.settle();
        match reverted {
            Ok(()) => Ok(()),
            Err(fault) => Err(RecoverRevert::Other(fault)),
        }
    }

    /// Brings all accepted writes of the volume to where they last.
    pub fn flush(&mut self) -> Result<(), Cause>
        ensures lasts { OnOk result ((d : D) → slice_get self.new.volume.devices 0 ≡ Some d → D.lasting d ≡ D.told d) }
        ensures same { OnOk result (IsUnfailed D.count self.old.volume self.new.volume) }
        ensures cause { IfErr result (λ cause. cause ≡ Cause.Volume) }
        ensures rose { IfErr result (λ cause. VolumeRose D.count 0 self.old.volume self.new.volume) }
        ensures quiet { IsQuiet D.Device self.old.volume self.new.volume }
        ensures beside { IsBeside self.old self.new }
        ensures stands { (h : Recovering) → StandsFor D.told self.old h → StandsFor D.told self.new h }
    {
        self.volume.flush()
    }

    /// Writes the records of the copies and of the recovered blocks to the devices of their areas, and brings all that was written to
    /// these to where it lasts. The volume's area comes first.
    pub fn sync(&mut self) -> Result<(), Cause>
        ensures sync { IsRecoverSync D.Device self.old self.new result }
        ensures stored { OnOk result ((copies : List Copy) → AreHeld (D.told self.old.overlay.device) self.old.overlay.records copies → AreStored (D.told self.new.overlay.device) copies) }
        ensures lasts { OnOk result (D.lasting self.new.volume.area.device ≡ D.told self.new.volume.area.device) }
        ensures overlay_lasts { OnOk result (D.lasting self.new.overlay.device ≡ D.told self.new.overlay.device) }
        ensures said { KeepsSaid self.old self.new }
        ensures stands { (h : Recovering) → StandsFor D.told self.old h → StandsFor D.told self.new h }
    {
        self.volume.sync()?;
        match self.overlay.sync() {
            Ok(()) => Ok(()),
            Err(_) => Err(Cause::Area),
        }
    }

    /// The volume and the overlay, as they are.
    pub fn into_parts(self) -> (CowVolume<D>, Area<D>)
        ensures volume { result.0 ≡ self.volume }
        ensures overlay { result.1 ≡ self.overlay }
        ensures fits { result.1.volumes ≡ blocks_of result.0 ∷ [] }
    {
        (self.volume, self.overlay.into_area())
    }

    /// Whether an image of a set stands.
    fn has_image(&self, set: u32) -> bool
        ensures { result ≡ is_among set (image_sets self.now.volume) }
    {
        self.volume.images().contains(&set)
    }

    /// Looks whether the window of a set may be opened.
    fn may_open(&self, set: u32) -> Result<(), OpenFault>
        ensures may { OnOk result (MayOpen self.now set) }
        ensures cause { IfErr result (λ fault. (claims : List Claim) → HasOpenCause self.now set claims fault) }
    {
        if set == 0 || !self.has_image(set) {
            return Err(OpenFault::NoSuchImage);
        }
        let images = self.volume.images();
        let newest = images[images.len() - 1];
        if newest != set {
            return Err(OpenFault::NotNewest { newest });
        }
        if let Some(open) = self.window {
            return Err(OpenFault::AlreadyOpen { set: open });
        }
        if self.finals.contains(&set) {
            return Err(OpenFault::Final);
        }
        Ok(())
    }

    /// The image of a set is final too.
    fn note_final(&mut self, set: u32)
        ensures { self.new ≡ record { volume = self.old.volume; overlay = self.old.overlay; window = self.old.window; claims = self.old.claims; final = with_final set (image_sets self.old.volume) self.old.final } }
    {
        let images = self.volume.images();
        final_among(images, set, &self.finals, &mut self.next_finals);
        swap(&mut self.finals, &mut self.next_finals);
    }

    /// Settles what is said of images where those up to a set went, 0 where none did.
    fn settle_up_to(&mut self, up_to: u32)
        ensures settled { IsSettledUpTo up_to self.old self.new }
        ensures volume { self.new.volume ≡ self.old.volume }
    {
        if up_to > 0 {
            self.settle();
        }
    }

    /// The images that stand no more give their overlay slots back; their window is closed, and they are not final.
    fn settle(&mut self)
        ensures settled { IsSettled self.old self.new }
        ensures volume { self.new.volume ≡ self.old.volume }
    {
        let images = self.volume.images();
        self.overlay.keep(images);
        self.window = kept_window(images, self.window);
        self.finals.retain(|set| images.contains(set));
    }
}
