//! The fields of a catalog, read forwards.

ghost use Rattle.std.specs.Prelude.{◌≡◌, ◌<◌, ◌≤◌, ◌+◌, ◌*◌, ◌^◌, length, drop, take, IfOk, IfErr, IfSome, IsErrOf, IsTrue, is_some, Ok, Err};
ghost use Rattle.vss_catalog.specs.Reading.{Tells, number_in, name_of_length, name_in, blocks_in, count_in, set_in, sets_in, entry_in, entries_in, letters_in, volumes_in, body_in, front_of, is_headed, is_sealed};

use crate::catalog_fault::CatalogFault;
use crate::entry::Entry;
use block_data::digest;
use byteorder::{ByteOrder, LittleEndian};
use std::alloc::Global;
use vss_names::{MOST_BLOCKS, MOST_IMAGES, MOST_NAME, MOST_VOLUMES, Numbers, is_name};

/// The letters with which a catalog begins.
pub const MAGIC: &[u8; 8] = b"VSSCAT01";

/// How many bytes a digest has.
const DIGEST: usize = 32;

/// The bytes from a place on.
fn bytes_from(bytes: &[u8], at: usize) -> &[u8]
    ensures { result.now ≡ drop at bytes.now }
{
    if at >= bytes.len() {
        return &[];
    }
    &bytes[at..]
}

/// A number of four bytes.
fn number_in(at: u32, rest: &[u8]) -> Result<u32, CatalogFault>
    ensures value { result ≡ number_in at rest.now }
    ensures known { IsErrOf result CatalogFault.OutOfMemory → ⊥ }
{
    if rest.len() < 4 {
        return Err(CatalogFault::Short { at });
    }
    Ok(LittleEndian::read_u32(rest))
}

/// The name of volume `v`, of so many bytes.
fn name_of_length(v: u32, at: u32, rest: &[u8], len: u32) -> Result<&[u8], CatalogFault>
    ensures ok { IfOk result (λ name. name_of_length v at rest.now len ≡ Ok name.now) }
    ensures short { IfOk result (λ name. length name.now ≤ MOST_NAME) }
    ensures refused { IfErr result (λ fault. name_of_length v at rest.now len ≡ Err fault) }
{
    if !(1 <= len && len <= MOST_NAME) {
        return Err(CatalogFault::Name { volume: v });
    }
    if rest.len() < len as usize {
        return Err(CatalogFault::Short { at });
    }
    let name = &rest[..len as usize];
    if !is_name(name) {
        return Err(CatalogFault::Name { volume: v });
    }
    Ok(name)
}

/// The name of volume `v`, after its length.
#[tactic(auto, unfolding(crate::specs::Reading::name_in))]
fn name_in(v: u32, at: u32, rest: &[u8]) -> Result<&[u8], CatalogFault>
    requires { at + 4 < 2 ^ 32 }
    ensures ok { IfOk result (λ name. name_in v at rest.now ≡ Ok name.now) }
    ensures short { IfOk result (λ name. length name.now ≤ MOST_NAME) }
    ensures refused { IfErr result (λ fault. name_in v at rest.now ≡ Err fault) }
{
    let len = number_in(at, rest)?;
    name_of_length(v, at + 4, bytes_from(rest, 4), len)
}

/// The number of blocks of volume `v`.
#[tactic(auto, unfolding(crate::specs::Reading::blocks_in))]
fn blocks_in(v: u32, at: u32, rest: &[u8]) -> Result<u32, CatalogFault>
    ensures { result ≡ blocks_in v at rest.now }
{
    let found = number_in(at, rest)?;
    if !(1 <= found && found <= MOST_BLOCKS) {
        return Err(CatalogFault::Blocks { volume: v, found });
    }
    Ok(found)
}

/// The number of images of volume `v`.
#[tactic(auto, unfolding(crate::specs::Reading::count_in))]
fn count_in(v: u32, at: u32, rest: &[u8]) -> Result<u32, CatalogFault>
    ensures value { result ≡ count_in v at rest.now }
    ensures few { IfOk result (λ count. count ≤ MOST_IMAGES) }
{
    let found = number_in(at, rest)?;
    if found as usize > MOST_IMAGES {
        return Err(CatalogFault::Images { volume: v, found });
    }
    Ok(found)
}

/// A set of volume `v` above the last one.
#[tactic(auto, unfolding(crate::specs::Reading::set_in))]
fn set_in(v: u32, last: u32, at: u32, rest: &[u8]) -> Result<u32, CatalogFault>
    ensures ok { IfOk result (λ set. set_in v last at rest.now ≡ Ok set) }
    ensures refused { IfErr result (λ fault. set_in v last at rest.now ≡ Err fault) }
{
    let set = number_in(at, rest)?;
    if set <= last {
        return Err(CatalogFault::Order { volume: v, at });
    }
    Ok(set)
}

/// So many sets of volume `v`, each above the one before it.
fn sets_in(alloc: Global, v: u32, count: u32, at: u32, rest: &[u8]) -> Result<Numbers, CatalogFault>
    requires few { count ≤ MOST_IMAGES }
    requires near { at + 4 * count < 2 ^ 32 }
    ensures ok { IfOk result (λ sets. sets_in v count 0 at rest.now ≡ Ok sets) }
    ensures few { IfOk result (λ sets. length sets ≡ count) }
    ensures refused { IfErr result (λ fault. Tells fault (sets_in v count 0 at rest.now)) }
{
    let mut sets = Vec::new(alloc);
    let mut last = 0;
    for k in 0..count {
        let set = set_in(v, last, at + 4 * k, bytes_from(rest, 4 * k as usize))?;
        sets.push(set)?;
        last = set;
    }
    Ok(Numbers::of(sets))
}

/// The entry of volume `v`.
#[tactic(auto, unfolding(crate::specs::Reading::entry_in))]
fn entry_in(alloc: Global, v: u32, at: u32, rest: &[u8]) -> Result<Entry, CatalogFault>
    requires { at + 2092 < 2 ^ 32 }
    ensures ok { IfOk result (λ entry. entry_in v at rest.now ≡ Ok entry) }
    ensures refused { IfErr result (λ fault. Tells fault (entry_in v at rest.now)) }
{
    let name = name_in(v, at, rest)?;
    let len = name.len() as u32;
    let blocks = blocks_in(v, at + 4 + len, bytes_from(rest, 4 + name.len()))?;
    let count = count_in(v, at + 8 + len, bytes_from(rest, 8 + name.len()))?;
    let images = sets_in(
        alloc,
        v,
        count,
        at + 12 + len,
        bytes_from(rest, 12 + name.len()),
    )?;
    Ok(Entry::of(alloc, name, blocks, images)?)
}

/// So many entries, and no more bytes.
fn entries_in(alloc: Global, count: u32, rest: &[u8]) -> Result<Vec<Entry>, CatalogFault>
    requires { count ≤ MOST_VOLUMES }
    ensures ok { IfOk result (λ entries. entries_in count 0 12 rest.now ≡ Ok entries.items) }
    ensures few { IfOk result (λ entries. length entries.items ≡ count) }
    ensures refused { IfErr result (λ fault. Tells fault (entries_in count 0 12 rest.now)) }
{
    let mut entries = Vec::new(alloc);
    let mut from = 0;
    for v in 0..count {
        let entry = entry_in(alloc, v, 12 + from as u32, bytes_from(rest, from))?;
        from += entry.size();
        entries.push(entry)?;
    }
    if from < rest.len() {
        return Err(CatalogFault::Rest {
            at: 12 + from as u32,
        });
    }
    Ok(entries)
}

/// The bytes after the letters.
#[tactic(auto, unfolding(crate::specs::Reading::letters_in))]
fn letters_in(body: &[u8]) -> Result<&[u8], CatalogFault>
    ensures ok { IfOk result (λ rest. letters_in body.now ≡ Ok rest.now) }
    ensures refused { IfErr result (λ fault. letters_in body.now ≡ Err fault) }
    ensures known { IsErrOf result CatalogFault.OutOfMemory → ⊥ }
{
    if body.len() < MAGIC.len() {
        return Err(CatalogFault::Short { at: 0 });
    }
    if !body.starts_with(MAGIC.as_slice()) {
        return Err(CatalogFault::Magic);
    }
    Ok(bytes_from(body, MAGIC.len()))
}

/// The number of volumes.
#[tactic(auto, unfolding(crate::specs::Reading::volumes_in))]
fn volumes_in(rest: &[u8]) -> Result<u32, CatalogFault>
    ensures value { result ≡ volumes_in rest.now }
    ensures known { IsErrOf result CatalogFault.OutOfMemory → ⊥ }
    ensures few { IfOk result (λ count. count ≤ MOST_VOLUMES) }
{
    let found = number_in(8, rest)?;
    if !(1 <= found && found <= MOST_VOLUMES) {
        return Err(CatalogFault::Volumes { found });
    }
    Ok(found)
}

/// The entries of a catalog, of all bytes but the digest.
#[tactic(auto, unfolding(crate::specs::Reading::body_in, crate::specs::Reading::is_headed))]
pub fn body_in(alloc: Global, body: &[u8]) -> Result<Vec<Entry>, CatalogFault>
    ensures ok { IfOk result (λ entries. body_in body.now ≡ Ok entries.items) }
    ensures few { IfOk result (λ entries. length entries.items ≤ MOST_VOLUMES) }
    ensures refused { IfErr result (λ fault. Tells fault (body_in body.now)) }
    ensures headed { IsErrOf result CatalogFault.OutOfMemory → IsTrue (is_headed body.now) }
{
    let rest = letters_in(body)?;
    let count = volumes_in(rest)?;
    entries_in(alloc, count, bytes_from(rest, 4))
}

/// The bytes before the digest, where it is theirs.
#[tactic(auto, unfolding(crate::specs::Reading::is_sealed))]
pub fn sealed_in(bytes: &[u8]) -> Option<&[u8]>
    ensures front { IfSome result (λ front. front.now ≡ front_of bytes.now) }
    ensures is_sealed { is_some result ≡ is_sealed bytes.now }
{
    if bytes.len() < DIGEST {
        return None;
    }
    let front = &bytes[..bytes.len() - DIGEST];
    if digest(front).as_slice() == bytes_from(bytes, bytes.len() - DIGEST) {
        return Some(front);
    }
    None
}
