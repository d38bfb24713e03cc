ghost use Rattle.std.specs.Prelude.{◌≡◌, ◌<◌, ◌≤◌, ◌*◌, length, slice_index, IfOk, IfErr, OnOk, IsErrOf};
ghost use Rattle.diff_area.specs.Copies.{slot_of};
ghost use Rattle.diff_area.specs.Format.{part, layout_in, slots_in, volumes_in, header_of, table_of, row_at, IsArea, pages_for, blocks_for};
ghost use Rattle.diff_area.specs.Refusals.{IsRefused};

use crate::area_fault::AreaFault;
use crate::header::{Header, check_header, part};
use crate::layout::{pages_for, place_of_slot};
use crate::rows::{check_table, row_at};
use block_data::BLOCK;
use std::alloc::Global;
use std::marker::Model;
use vss_names::MOST_SLOTS;

/// An area whose bytes stand in memory, and which lends its records and slots in place. Contracts see it as its bytes.
#[derive(Debug, Drop)]
pub struct AreaView<'a> {
    bytes: &'a [u8],
    header: Header,
}

impl<'a> Model for AreaView<'a> {
    ghost use Rattle.std.specs.Prelude.{ℕ, List};
    ghost use Rattle.diff_area.specs.ReadRows.{IsView};

    ghost Value = { List ℕ };

    ghost view = { λ v. v.bytes.now };

    ghost invariant = { λ v. IsView v.bytes.now v.header };
}

/// The first bytes, at most so many.
#[tactic(auto, unfolding(crate::specs::Format::part), using(std::proofs::lemmas::List::take_min))]
fn front(bytes: &[u8], len: usize) -> &[u8]
    ensures part { result.now ≡ part 0 len bytes.now }
    ensures len { length result.now ≤ len }
{
    &bytes[..len.min(bytes.len())]
}

/// The table of an area of so many slots.
fn table_of(bytes: &[u8], slots: u32) -> &[u8]
    requires few { slots ≤ MOST_SLOTS }
    requires whole { length bytes.now ≡ BLOCK * blocks_for slots }
    ensures table { result.now ≡ part BLOCK (BLOCK * pages_for slots) bytes.now }
    ensures len { length result.now ≡ BLOCK * pages_for slots }
{
    part(bytes, BLOCK, BLOCK * pages_for(slots) as usize)
}

impl<'a> AreaView<'a> {
    /// An area of these bytes, in either layout. Missing bytes of the header read as zeros. Memory is taken for the
    /// numbers of the volumes, and while the records are checked.
    pub fn new(alloc: Global, bytes: &'a [u8]) -> Result<AreaView<'a>, AreaFault>
        ensures view { IfOk result (λ view. view ≡ bytes.now) }
        ensures area { OnOk result (IsArea bytes.now) }
        ensures refused { IfErr result (IsRefused bytes.now) }
        ensures cause { IsErrOf result AreaFault.Device → ⊥ }
    {
        let header = match check_header(alloc, front(bytes, BLOCK), bytes.len()) {
            Ok(header) => header,
            Err(fault) => return Err(fault),
        };
        let table = table_of(bytes, header.slots);
        match check_table(alloc, &header, table) {
            Err(fault) => Err(fault),
            Ok(_) => Ok(AreaView { bytes, header }),
        }
    }

    /// The layout: 1 or 2.
    pub fn layout(&self) -> u32
        ensures { result ≡ layout_in (header_of self.now) }
    {
        self.header.layout
    }

    /// How many slots there are.
    pub fn slots(&self) -> u32
        ensures slots { result ≡ slots_in (header_of self.now) }
        ensures area { IsArea self.now }
    {
        self.header.slots
    }

    /// How many volumes the group has.
    pub fn volumes(&self) -> u32
        ensures { result ≡ length (volumes_in (header_of self.now)) }
    {
        self.header.volumes.len() as u32
    }

    /// How many blocks a volume of the group has.
    pub fn blocks(&self, volume: u32) -> u32
        requires { volume < length (volumes_in (header_of self.now)) }
        ensures { result ≡ slice_index (volumes_in (header_of self.now)) volume }
    {
        self.header.volumes[volume as usize]
    }

    /// Lends the 16 bytes of the record of a slot.
    pub fn record_at(&self, slot: u32) -> &'a [u8]
        requires { slot < slots_in (header_of self.now) }
        ensures row { result.now ≡ row_at (table_of self.now) slot }
        ensures len { length result.now ≡ 16 }
    {
        row_at(table_of(self.bytes, self.header.slots), slot as usize)
    }

    /// Lends the block of a slot.
    pub fn slot(&self, slot: u32) -> &'a [u8]
        requires { slot < slots_in (header_of self.now) }
        ensures block { result.now ≡ slot_of self.now slot }
        ensures len { length result.now ≡ BLOCK }
    {
        let place = place_of_slot(self.header.slots, slot);
        part(self.bytes, BLOCK * place as usize, BLOCK)
    }
}
