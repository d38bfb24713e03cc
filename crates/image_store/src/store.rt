ghost use Rattle.std.specs.Prelude.{◌≡◌, ◌≢◌, ◌<◌, ◌≤◌, ◌*◌, ℕ, List, Some, None, Ok, true, false, length, replicate, map, slice_get, vec_capacity, is_some, All, IfOk, IfErr, IfSome, IsErrOf, IsNone, OnOk, OnErr, IsTrue};
ghost use Rattle.std.specs.List.{AllPairs};
ghost use Rattle.block_data.specs.BlockBytes.{zeros};
ghost use Rattle.diff_area.specs.Format.{free, AreRecords};
ghost use Rattle.diff_area.specs.AreaValue.{AreaValue};
ghost use Rattle.vss_catalog.specs.Entries.{bytes_in, lists_of, are_names_for, entries_of};
ghost use Rattle.vss_catalog.specs.Reading.{catalog_in};
ghost use Rattle.vss_catalog.specs.Written.{bytes_of};
ghost use Rattle.write_history.specs.History.{History};
ghost use Rattle.write_history.specs.Slots.{group_used, used_by};
ghost use Rattle.cow_volume.specs.Calls.{DeviceRose, IsUnfailed, VolumeRose, blocks_at, history_at, is_among, sets_at};
ghost use Rattle.cow_volume.specs.Ending.{AllTell, IsSync, IsTable};
ghost use Rattle.cow_volume.specs.Resuming.{AreKept, NoneTell};
ghost use Rattle.cow_volume.specs.StandsFor.{StandsFor, GroupValue, placed};
ghost use Rattle.vss_names.specs.Faults.{Rose};
ghost use Rattle.image_store.specs.Plain.{PlainStore, fresh_store, plain_at};
ghost use Rattle.image_store.specs.Steps.Step.{Cut, Dropped};
ghost use Rattle.image_store.specs.StoreValue.{StandsAs, IsStep, StandsStill, AreApart, AreNoNames, AreOthers, IsNamed};
ghost use Rattle.image_store.specs.Updating.{AreMarked, AreReady, IsAhead, IsOverwriting, AreCaptured, Gives, HasCaptured};
ghost use Rattle.image_store.specs.Copying.{AreCopied, HasCopiesOf, IsAreaLeft, IsCopiedAhead};
ghost use Rattle.image_store.specs.Ordering.{AllImages};
ghost use Rattle.image_store.specs.PowerLoss.{IsCommitted, IsStillUnderWay, IsUnderWay};
ghost use Rattle.volume_device.specs.InMemory.{AreBlocks};
ghost use Rattle.image_store.specs.Showing.{HasLength, HasShowCause, IfBad, IsSeen, IsShow, shown_in, AreSameBut, AreWritten};
ghost use Rattle.image_store.specs.declared.which.Which.TheVariants.{Of};
ghost use Rattle.image_store.specs.Cutting.{HasLists, IsRevert, AreListsOf, other_sets, IsCutRefused, IsNextSet};
ghost use Rattle.image_store.specs.Closing.{IsCloseFault, given_back};
ghost use Rattle.image_store.specs.Failing.{IsPassFault, IsRevertFault, IsShowFault};
ghost use Rattle.image_store.specs.Head.{head_of, said_of, IsKeptAs, blocks_of};
ghost use Rattle.image_store.specs.Opening.{AreParts, IsHeadFor, IsNoHeadFor, IsOpened, IsOpenFault, IsPartsFault, names_of};
ghost use Rattle.vss_names.specs.Names.{TextValue};

use crate::capture_fault::CaptureFault;
use crate::capturing::capture_blocks;
use crate::closed::Closed;
use crate::cut_fault::CutFault;
use crate::cutting::{cut_all, first_full, greatest_set};
use crate::flushing::flush_each;
use crate::head::{Head, bytes_with};
use crate::naming::{first_of, has_double};
use crate::new_fault::NewFault;
use crate::open_fault::OpenFault;
use crate::opening::{check_blocks, check_devices, memory_for};
use crate::pass::Pass;
use crate::pass_fault::PassFault;
use crate::piece::Piece;
use crate::refused::Refused;
use crate::show_fault::ShowFault;
use crate::showing::{length_of, show_blocks};
use crate::updating::{compare_blocks, copy_blocks, overwrite_blocks};
use crate::which::Which;
use crate::written::mark_copied;
use cow_volume::{Cause, CowGroup, ImageFault, RevertFault};
use diff_area::{Area, Unopened};
use io_edge::Sink;
use std::alloc::Global;
use std::marker::Model;
use volume_device::Device;
use vss_catalog::Catalog;
use vss_catalog::laws::the_catalog_of_a_group_is_read_back;
use vss_names::{OutOfMemory, Text};
use write_history::Evicted;

/// Volumes that hold files, and images of them that were cut together. Contracts see the group of the volumes, their names and the last
/// set that was given; `specs/StoreValue.antt` says for which whole copies of all volumes and images it stands.
#[derive(Drop)]
pub struct Store<D: Device> {
    group: CowGroup<D>,
    names: Vec<Text>,
    last: u32,
    /// A block of a volume or an image.
    piece: Piece,
    /// A block that a volume is to have.
    wanted: Piece,
}

impl<D: Device> Model for Store<D> {
    ghost use Rattle.std.specs.Prelude.{◌≡◌, true};
    ghost use Rattle.image_store.specs.StoreValue.{StoreValue};
    ghost use Rattle.vss_catalog.specs.Entries.{are_names_for};

    ghost Value = { StoreValue D };

    ghost view = { λ s. record { group = s.group; names = s.names.items; last = s.last } };

    ghost invariant = { λ s. are_names_for s.group s.names.items ≡ true };
}

impl<D: Device> Store<D> {
    /// A store of volumes of zeros with these names, without images. It takes all memory of the later calls but that of `head`.
    pub fn new(
        alloc: Global,
        devices: Vec<D>,
        area: Area<D>,
        names: Vec<Text>,
    ) -> Result<Store<D>, NewFault>
        requires fits { map D.size devices.items ≡ area.volumes }
        requires free { area.records ≡ replicate (length area.records) free }
        requires zeros { All (λ d. IfSome (D.told d) (λ blocks. blocks ≡ replicate (D.size d) zeros)) devices.items }
        ensures stands { IfOk result (λ store. AllTell D.told devices.items → IsTrue (is_some (D.told area.device)) → StandsAs D.told store (fresh_store area.volumes)) }
        ensures names { IfOk result (λ store. store.names ≡ names.items) }
        ensures apart { OnOk result (AreApart names.items) }
        ensures refused { IsErrOf result NewFault.Names → AreNoNames area.volumes names.items }
        ensures last { IfOk result (λ store. store.last ≡ 0) }
    {
        let group = CowGroup::new(alloc, devices, area)?;
        let (piece, wanted) = pieces_for(alloc, &names, &group)?;
        Ok(Store {
            group,
            names,
            last: 0,
            piece,
            wanted,
        })
    }

    /// The store that devices, an area's device and the head of a state are: as `close` and `head` left them. The devices are read
    /// alone.
    pub fn open(
        alloc: Global,
        devices: Vec<D>,
        area: D,
        head: &Head,
    ) -> Result<Store<D>, Refused<D>>
        ensures kept { IfOk result (λ store. (p : PlainStore) → IsKeptAs D.told devices.items area head.now p → StandsAs D.told store p) }
        ensures committed { IfOk result (λ store. (p : PlainStore) → IsKeptAs D.told devices.items area head.now p → IsCommitted D.told store p) }
        ensures untold { IfOk result (λ store. NoneTell D.told devices.items area → (hs : List History) × StandsFor D.told store.group hs) }
        ensures opened { IfOk result (IsOpened D.Device devices.items area head.now) }
        ensures refused { IfErr result (λ refused. IsOpenFault D.Device devices.items area head.now refused.area refused.fault) }
    {
        if let Err(fault) = check_devices(head, &devices) {
            return Err(Refused { fault, area: None });
        }
        match Area::load(alloc, area) {
            Err(Unopened { device, fault }) => Err(Refused {
                fault: OpenFault::from(fault),
                area: Some(device),
            }),
            Ok(area) => match take_up(alloc, devices, area, head) {
                Ok(store) => Ok(store),
                Err(fault) => Err(Refused { fault, area: None }),
            },
        }
    }

    /// The bytes of the head of its state: the last set, and the catalog.
    pub fn head(&self, alloc: Global) -> Result<Text, OutOfMemory>
        ensures { IfOk result (λ text. text.bytes ≡ head_of self.now) }
    {
        let catalog = Catalog::of_group(alloc, &self.names, &self.group)?;
        bytes_with(alloc, self.last, &catalog)
    }

    /// The bytes of its head say its catalog (`laws`).
    pub(crate) fn has_a_head(&self)
        ensures catalog { catalog_in (bytes_of (entries_of self.now.group self.now.names)) ≡ Ok (entries_of self.now.group self.now.names) }
    {
        the_catalog_of_a_group_is_read_back(&self.names, &self.group);
    }

    /// It has a device for each volume, and the sets of each volume's images rise.
    pub(crate) fn has_volumes(&self)
        ensures devices { length self.now.group.devices ≡ length self.now.group.area.volumes }
        ensures images { AllImages self.now.group }
    {
        let _facts = self.group.volumes();
    }

    /// How many volumes it has.
    pub fn volumes(&self) -> u32
        ensures { result ≡ length self.now.group.area.volumes }
    {
        self.group.volumes()
    }

    /// The number of the volume of a name.
    pub fn place_of(&self, name: &[u8]) -> Option<u32>
        ensures named { IfSome result (λ v. IsNamed self.now.names name.now v) }
        ensures within { IfSome result (λ v. v < length self.now.group.area.volumes) }
        ensures none { IsNone result → AreOthers self.now.names name.now (length self.now.names) }
    {
        let _facts = self.group.volumes();
        match first_of(&self.names, name) {
            Some(volume) => Some(volume as u32),
            None => None,
        }
    }

    /// The name of a volume.
    pub fn name(&self, v: u32) -> &Text
        requires { v < length self.now.group.area.volumes }
        ensures { slice_get self.now.names v ≡ Some result.now }
    {
        &self.names[v as usize]
    }

    /// How many blocks of 16,384 bytes a volume has.
    pub fn blocks(&self, v: u32) -> u32
        requires { v < length self.now.group.area.volumes }
        ensures { result ≡ blocks_at self.now.group v }
    {
        self.group.blocks(v)
    }

    /// The sets of the images of a volume, the oldest first.
    pub fn images(&self, v: u32) -> &[u32]
        requires { v < length self.now.group.area.volumes }
        ensures { result.now ≡ sets_at self.now.group v }
    {
        self.group.images(v)
    }

    /// How many slots the image of a set uses; None where no such image stands on the volume.
    pub fn used_by(&self, v: u32, set: u32) -> Option<u32>
        requires { v < length self.now.group.area.volumes }
        ensures { (hs : List History) → StandsFor D.told self.now.group hs → result ≡ used_by (blocks_at self.now.group v) (history_at hs v).writes (history_at hs v).images set }
    {
        self.group.used_by(v, set)
    }

    /// How many slots all images use.
    pub fn used_all(&self) -> u32
        ensures { (hs : List History) → StandsFor D.told self.now.group hs → result ≡ group_used (placed self.now.group.area.volumes) hs }
    {
        self.group.used_all()
    }

    /// How many slots there are.
    pub fn slots(&self) -> u32
        ensures { result ≡ length self.now.group.area.records }
    {
        self.group.slots()
    }

    /// Marks the blocks of a volume that were written between the cuts of two sets, in either order, or since the cut of the one. No block
    /// is read: a block that was written back is marked too.
    pub fn mark_written(&self, v: u32, set: u32, other: Which, marks: &mut [bool])
        requires volume { v < length self.now.group.area.volumes }
        requires marks { length marks.old ≡ blocks_at self.now.group v }
        ensures same { (p : PlainStore) → StandsAs D.told self.now p → AreSameBut marks.new (shown_in p.volumes v (Of set)) (shown_in p.volumes v other) }
        ensures written { AreWritten self.now.group.area.records v set other marks.new }
        ensures len { length marks.new ≡ length marks.old }
    {
        mark_copied(self.group.area(), v, set, other, marks);
    }

    /// The last set that was given, 0 where none was.
    pub fn last(&self) -> u32
        ensures { result ≡ self.now.last }
    {
        self.last
    }

    /// One set is cut over these volumes, which are apart. Its number is answered, the next after the last that was given.
    pub fn cut(&mut self, volumes: &[u32]) -> Result<u32, CutFault>
        requires within { All (λ v. v < length self.old.group.area.volumes) volumes.now }
        requires apart { AllPairs (λ u v. u ≢ v) volumes.now }
        ensures cut { IfOk result (λ set. IsStep D.told self.old self.new (Cut set volumes.now)) }
        ensures last { IfOk result (λ set. self.new.last ≡ set) }
        ensures next { IfOk result (IsNextSet self.old volumes.now) }
        ensures refused { IfErr result (IsCutRefused self.old volumes.now) }
        ensures unchanged { OnErr result (self.new ≡ self.old) }
        ensures volumes { self.new.group.area.volumes ≡ self.old.group.area.volumes }
        ensures under_way { OnOk result (IsStillUnderWay D.told self.old.group self.new.group) }
    {
        let greatest = greatest_set(&self.group, self.last);
        if greatest == u32::MAX {
            return Err(CutFault::NoNextSet);
        }
        if let Some(volume) = first_full(&self.group, volumes) {
            return Err(CutFault::TooManyImages { volume });
        }
        let set = greatest + 1;
        cut_all(&mut self.group, volumes, set);
        self.last = set;
        Ok(set)
    }

    /// The image of a set goes from a volume.
    pub fn drop_image(&mut self, set: u32, v: u32) -> Result<(), ImageFault>
        requires { v < length self.old.group.area.volumes }
        ensures dropped { OnOk result (IsStep D.told self.old self.new (Dropped set v)) }
        ensures stood { OnOk result (is_among set (sets_at self.old.group v) ≡ true) }
        ensures lists { OnOk result (AreListsOf D.told self.old.group self.new.group v (other_sets set)) }
        ensures refused { IfErr result (λ fault. (fault ≡ ImageFault.NoSuchImage) × (is_among set (sets_at self.old.group v) ≡ false)) }
        ensures unchanged { OnErr result (self.new ≡ self.old) }
        ensures volumes { self.new.group.area.volumes ≡ self.old.group.area.volumes }
        ensures under_way { OnOk result (IsStillUnderWay D.told self.old.group self.new.group) }
    {
        self.group.drop_image(v, set)
    }

    /// Brings a volume back to the image of a set.
    pub fn revert(&mut self, set: u32, v: u32) -> Result<(), RevertFault>
        requires { v < length self.old.group.area.volumes }
        ensures revert { (p : PlainStore) → StandsAs D.told self.old p → IsRevert D.told self.new p set v result }
        ensures lists { HasLists D.told self.old self.new set v result }
        ensures failed { IfErr result (IsRevertFault D.count v self.old.group self.new.group) }
        ensures volumes { self.new.group.area.volumes ≡ self.old.group.area.volumes }
    {
        self.group.revert(v, set)
    }

    /// Marks the blocks in which a volume differs from another device of as many blocks. Nothing changes.
    pub fn compare<I: Device>(
        &mut self,
        v: u32,
        input: &mut I,
        differs: &mut [bool],
    ) -> Result<(), PassFault>
        requires volume { v < length self.old.group.area.volumes }
        requires sizes { I.size input.old ≡ blocks_at self.old.group v }
        requires marks { length differs.old ≡ blocks_at self.old.group v }
        ensures marked { OnOk result ((wanted : List (List ℕ)) (p : PlainStore) → I.told input.old ≡ Some wanted → StandsAs D.told self.old p
            → AreMarked differs.new wanted (plain_at p v).blocks) }
        ensures failed { IfErr result (IsPassFault D.count v self.old.group self.new.group (I.count input.old) (I.count input.new)) }
        ensures still { StandsStill D.told self.old self.new }
        ensures told { I.told input.new ≡ I.told input.old }
        ensures len { length differs.new ≡ length differs.old }
        ensures volumes { self.new.group.area.volumes ≡ self.old.group.area.volumes }
    {
        compare_blocks(
            &mut self.group,
            &mut self.piece,
            &mut self.wanted,
            v,
            input,
            differs,
        )
    }

    /// Copies the old bytes of the marked blocks from `from` to before `to`, and adds to `copied` how many it copied. It stops where images
    /// have to go for one: they are gone from memory, and none of their slots is used before the next call. The volume has what it had.
    pub fn copy_ahead(
        &mut self,
        v: u32,
        differs: &[bool],
        from: u32,
        to: u32,
        copied: &mut u32,
        gone: &mut Vec<Evicted>,
    ) -> Result<Pass, Cause>
        requires volume { v < length self.old.group.area.volumes }
        requires marks { length differs.now ≡ blocks_at self.old.group v }
        requires space { 512 * length self.old.group.area.volumes ≤ vec_capacity gone.old }
        ensures failed { IfErr result (DeviceRose D.count v self.old.group self.new.group) }
        ensures ahead { (p : PlainStore) → StandsAs D.told self.old p → IsAhead D.told self.new p gone.new.items result }
        ensures copied { IsCopiedAhead D.told self.old.group self.new.group v differs.now from to copied.old copied.new result }
        ensures under_way { (committed : GroupValue D) (p : PlainStore) → StandsAs D.told self.old p → HasCopiesOf committed self.old.group
            → IsUnderWay D.told committed self.old.group → IsUnderWay D.told committed self.new.group }
        ensures space { vec_capacity gone.new ≡ vec_capacity gone.old }
        ensures volumes { self.new.group.area.volumes ≡ self.old.group.area.volumes }
    {
        copy_blocks(
            &mut self.group,
            &mut self.piece,
            v,
            differs,
            from,
            to,
            copied,
            gone,
        )
    }

    /// Reads the blocks of a file from `from` to before `to`, each once. Those in which the volume differs are marked and go to the spool, a
    /// device of as many blocks. No volume and no image changes.
    pub fn capture<I: Device, S: Device>(
        &mut self,
        v: u32,
        input: &mut I,
        spool: &mut S,
        differs: &mut [bool],
        from: u32,
        to: u32,
    ) -> Result<(), CaptureFault>
        requires volume { v < length self.old.group.area.volumes }
        requires size { I.size input.old ≡ blocks_at self.old.group v }
        requires room { S.size spool.old ≡ blocks_at self.old.group v }
        requires marks { length differs.old ≡ blocks_at self.old.group v }
        ensures captured { OnOk result ((wanted spool_old : List (List ℕ)) (p : PlainStore)
            → I.told input.old ≡ Some wanted → S.told spool.old ≡ Some spool_old
            → StandsAs D.told self.old p
            → AreCaptured differs.old spool_old wanted (plain_at p v).blocks from
            → HasCaptured (S.told spool.new) differs.new wanted (plain_at p v).blocks to) }
        ensures still { StandsStill D.told self.old self.new }
        ensures told { I.told input.new ≡ I.told input.old }
        ensures size { I.size input.new ≡ I.size input.old }
        ensures room { S.size spool.new ≡ S.size spool.old }
        ensures len { length differs.new ≡ length differs.old }
        ensures volumes { self.new.group.area.volumes ≡ self.old.group.area.volumes }
    {
        capture_blocks(
            &mut self.group,
            &mut self.piece,
            &mut self.wanted,
            v,
            input,
            spool,
            differs,
            from,
            to,
        )
    }

    /// Writes the marked blocks from `from` on with those of the other device, of which no other block is read.
    pub fn overwrite<I: Device>(
        &mut self,
        v: u32,
        input: &mut I,
        differs: &[bool],
        from: u32,
        gone: &mut Vec<Evicted>,
    ) -> Result<Pass, PassFault>
        requires volume { v < length self.old.group.area.volumes }
        requires sizes { I.size input.old ≡ blocks_at self.old.group v }
        requires marks { length differs.now ≡ blocks_at self.old.group v }
        requires space { 512 * length self.old.group.area.volumes ≤ vec_capacity gone.old }
        ensures failed { IfErr result (IsPassFault D.count v self.old.group self.new.group (I.count input.old) (I.count input.new)) }
        ensures overwriting { (wanted : List (List ℕ)) (p : PlainStore)
            → Gives (I.told input.old) differs.now wanted → StandsAs D.told self.old p
            → AreReady differs.now wanted (plain_at p v).blocks from → IsOverwriting D.told self.new p v differs.now wanted gone.new.items result }
        ensures area { AreCopied self.old.group v differs.now from (blocks_at self.old.group v) → IsAreaLeft D.told self.old.group self.new.group result }
        ensures under_way { (committed : GroupValue D) (wanted : List (List ℕ)) (p : PlainStore)
            → Gives (I.told input.old) differs.now wanted → StandsAs D.told self.old p
            → AreReady differs.now wanted (plain_at p v).blocks from → HasCopiesOf committed self.old.group → AreCopied committed v differs.now from (blocks_at self.old.group v)
            → IsUnderWay D.told committed self.old.group → IsUnderWay D.told committed self.new.group }
        ensures told { I.told input.new ≡ I.told input.old }
        ensures space { vec_capacity gone.new ≡ vec_capacity gone.old }
        ensures volumes { self.new.group.area.volumes ≡ self.old.group.area.volumes }
    {
        let _facts = self.group.images(v);
        overwrite_blocks(
            &mut self.group,
            &mut self.wanted,
            v,
            input,
            differs,
            from,
            gone,
        )
    }

    /// How many bytes the file has that a volume, or its image of a set, holds.
    pub fn length(&mut self, v: u32, which: Which) -> Result<u64, ShowFault>
        requires { v < length self.old.group.area.volumes }
        ensures length { IfOk result (λ n. (p : PlainStore) → StandsAs D.told self.old p → HasLength (shown_in p.volumes v which) (blocks_at self.old.group v) n) }
        ensures bad { IfErr result (λ fault. (p : PlainStore) → StandsAs D.told self.old p → IfBad (shown_in p.volumes v which) fault) }
        ensures seen { OnOk result (IsSeen self.old.group v which) }
        ensures cause { IfErr result (HasShowCause self.old.group v which ⊥) }
        ensures failed { IfErr result (IsShowFault D.count v self.old.group self.new.group) }
        ensures images { self.new.group.images ≡ self.old.group.images }
        ensures still { StandsStill D.told self.old self.new }
        ensures volumes { self.new.group.area.volumes ≡ self.old.group.area.volumes }
    {
        length_of(&mut self.group, &mut self.piece, v, which)
    }

    /// Writes the file that a volume, or its image of a set, has, to its length.
    pub fn show<K: Sink>(&mut self, v: u32, which: Which, sink: &mut K) -> Result<(), ShowFault>
        requires { v < length self.old.group.area.volumes }
        ensures show { (p : PlainStore) → StandsAs D.told self.old p → IsShow (shown_in p.volumes v which) (K.taken sink.old) (K.taken sink.new) result }
        ensures seen { OnOk result (IsSeen self.old.group v which) }
        ensures cause { IfErr result (HasShowCause self.old.group v which (Rose (K.count sink.old) (K.count sink.new))) }
        ensures failed { IfErr result (IsShowFault D.count v self.old.group self.new.group) }
        ensures images { self.new.group.images ≡ self.old.group.images }
        ensures still { StandsStill D.told self.old self.new }
        ensures volumes { self.new.group.area.volumes ≡ self.old.group.area.volumes }
    {
        show_blocks(&mut self.group, &mut self.piece, v, which, sink)
    }

    /// Writes the table of its area, and brings all slots and it to where they last.
    pub fn sync(&mut self) -> Result<(), Cause>
        ensures lasts { OnOk result (D.lasting self.new.group.area.device ≡ D.told self.new.group.area.device) }
        ensures table { IsTable D.told self.old.group self.new.group result }
        ensures sync { IsSync D.Device self.old.group self.new.group result }
        ensures committed { OnOk result ((p : PlainStore) → StandsAs D.told self.old p → IsCommitted D.told self.new p) }
        ensures under_way { (committed : GroupValue D) → IsUnderWay D.told committed self.old.group → IsUnderWay D.told committed self.new.group }
        ensures still { StandsStill D.told self.old self.new }
        ensures head { head_of self.new ≡ head_of self.old }
        ensures volumes { self.new.group.area.volumes ≡ self.old.group.area.volumes }
    {
        let _facts = self.group.volumes();
        let done = self.group.sync();
        let _facts = self.group.volumes();
        done
    }

    /// Brings all accepted writes of a volume to where they last.
    pub fn flush(&mut self, v: u32) -> Result<(), Cause>
        requires { v < length self.old.group.area.volumes }
        ensures lasts { OnOk result ((d : D) → slice_get self.new.group.devices v ≡ Some d → D.lasting d ≡ D.told d) }
        ensures same { OnOk result (IsUnfailed D.count self.old.group self.new.group) }
        ensures failed { IfErr result (λ cause. (cause ≡ Cause.Volume) × VolumeRose D.count v self.old.group self.new.group) }
        ensures others { (u : ℕ) → u ≢ v → slice_get self.new.group.devices u ≡ slice_get self.old.group.devices u }
        ensures images { self.new.group.images ≡ self.old.group.images }
        ensures under_way { (committed : GroupValue D) → IsUnderWay D.told committed self.old.group → IsUnderWay D.told committed self.new.group }
        ensures still { StandsStill D.told self.old self.new }
        ensures head { head_of self.new ≡ head_of self.old }
        ensures volumes { self.new.group.area.volumes ≡ self.old.group.area.volumes }
    {
        self.group.flush(v)
    }

    /// Takes it apart: everything is brought to where it lasts. The devices are given back, whether or not that failed.
    pub fn close(self) -> Closed<D>
        ensures kept { OnOk result.outcome ((p : PlainStore) → StandsAs D.told self p → IsKeptAs D.lasting result.devices.items result.area (said_of self) p) }
        ensures told { map D.told result.devices.items ≡ map D.told self.group.devices }
        ensures still { StandsStill D.told self (given_back self result.devices.items result.area) }
        ensures failed { IfErr result.outcome (IsCloseFault D.count self.group result.devices.items result.area) }
    {
        let Store { group, .. } = self;
        let mut group = group;
        let synced = group.sync();
        let (mut devices, area) = group.into_parts();
        let area = area.into_device();
        let Ok(()) = synced else {
            return Closed {
                devices,
                area,
                outcome: synced,
            };
        };
        let outcome = flush_each(&mut devices);
        Closed {
            devices,
            area,
            outcome,
        }
    }

    /// Takes it apart as it is. Nothing is brought to where it lasts.
    pub fn into_devices(self) -> (Vec<D>, D)
        ensures devices { result.0.items ≡ self.group.devices }
        ensures area { result.1 ≡ self.group.area.device }
    {
        let Store { group, .. } = self;
        let (devices, area) = group.into_parts();
        (devices, area.into_device())
    }
}

/// The pieces of a store, if these are names for the volumes of its group.
fn pieces_for<D: Device>(
    alloc: Global,
    names: &[Text],
    group: &CowGroup<D>,
) -> Result<(Piece, Piece), NewFault>
    ensures named { OnOk result (IsTrue (are_names_for group.now names.now)) }
    ensures apart { OnOk result (AreApart names.now) }
    ensures refused { IsErrOf result NewFault.Names → AreNoNames group.now.area.volumes names.now }
{
    if !Catalog::are_names_for(names, group) {
        return Err(NewFault::Names);
    }
    if has_double(names) {
        return Err(NewFault::Names);
    }
    Ok(Piece::two(alloc)?)
}

/// Takes devices and a loaded area up as a store.
fn take_up<D: Device>(
    alloc: Global,
    devices: Vec<D>,
    area: Area<D>,
    head: &Head,
) -> Result<Store<D>, OpenFault>
    requires { length devices.items ≡ length head.now.entries }
    ensures group { IfOk result (λ store. store.group ≡ record { devices = devices.items; area = area; images = lists_of head.now.entries }) }
    ensures stands { IfOk result (λ store. (hs : List History) → AreKept D.told devices.items area (lists_of head.now.entries) hs → StandsFor D.told store.group hs) }
    ensures parts { OnOk result (AreParts D.size devices.items area head.now.entries) }
    ensures records { OnOk result (AreRecords area.volumes area.records) }
    ensures whole { OnOk result (IfSome (D.told area.device) (AreBlocks (D.size area.device))) }
    ensures names { IfOk result (λ store. map (λ (name : TextValue). name.bytes) store.names ≡ names_of head.now.entries) }
    ensures last { IfOk result (λ store. store.last ≡ head.now.last) }
    ensures refused { IfErr result (IsPartsFault D.size devices.items area head.now.entries) }
    ensures untold { IfOk result (λ store. NoneTell D.told devices.items area.device → (hs : List History) × StandsFor D.told store.group hs) }
{
    let catalog = head.catalog();
    check_blocks(catalog, &devices, &area)?;
    let (names, lists, (piece, wanted)) = memory_for(alloc, catalog)?;
    let group = CowGroup::resume(alloc, devices, area, &lists)?;
    let _facts = group.volumes();
    Ok(Store {
        group,
        names,
        last: head.last(),
        piece,
        wanted,
    })
}
