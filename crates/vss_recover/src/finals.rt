//! What is kept beside a volume: the claims of its window, the window where its image stands, and the sets of the final images.

ghost use Rattle.std.specs.Prelude.{◌≡◌, ◌<◌, ◌≤◌, ◌++◌, ◌∷◌, ◌||◌, ◌==◌, [], length, vec_capacity, IfOk};
ghost use Rattle.cow_volume.specs.Calls.{is_among};
ghost use Rattle.vss_recover.specs.Recoveries.{kept_final, kept_window, with_final};

use crate::claim::Claim;
use block_data::BlockBuf;
use std::alloc::Global;
use vss_names::{MOST_IMAGES, OutOfMemory};

/// The most claims of a window.
pub const MOST_CLAIMS: usize = 64;

/// The memory that a volume keeps for its windows, with the sets of the final images.
#[derive(Drop)]
pub(crate) struct Room {
    pub(crate) claims: Vec<Claim>,
    pub(crate) finals: Vec<u32>,
    pub(crate) next_finals: Vec<u32>,
    pub(crate) scratch: BlockBuf,
}

impl Room {
    /// All of it, and no claim.
    pub(crate) fn new(alloc: Global, finals: &[u32]) -> Result<Room, OutOfMemory>
        requires { length finals.now ≤ 512 }
        ensures claims { IfOk result (λ room. room.claims.items ≡ []) }
        ensures finals { IfOk result (λ room. room.finals.items ≡ finals.now) }
        ensures claim_room { IfOk result (λ room. 64 ≤ vec_capacity room.claims) }
        ensures final_room { IfOk result (λ room. 512 ≤ vec_capacity room.finals) }
        ensures next_room { IfOk result (λ room. 512 ≤ vec_capacity room.next_finals) }
    {
        let claims = Vec::with_capacity(alloc, MOST_CLAIMS)?;
        let mut all = Vec::with_capacity(alloc, MOST_IMAGES)?;
        all.extend_from_slice(finals)?;
        let next_finals = Vec::with_capacity(alloc, MOST_IMAGES)?;
        let scratch = BlockBuf::zeroed(alloc)?;
        Ok(Room {
            claims,
            finals: all,
            next_finals,
            scratch,
        })
    }
}

/// The window, where it is that of one of these images.
pub(crate) fn kept_window(images: &[u32], window: Option<u32>) -> Option<u32>
    ensures { result ≡ kept_window images.now window }
{
    let set = window?;
    if images.contains(&set) {
        Some(set)
    } else {
        None
    }
}

/// The sets that have no image among these go.
pub(crate) fn keep_finals(finals: &mut Vec<u32>, images: &[u32])
    ensures finals { finals.new.items ≡ kept_final images.now finals.old.items }
    ensures room { vec_capacity finals.new ≡ vec_capacity finals.old }
{
    finals.retain(|set| images.contains(set));
}

/// Gathers those of these images that are final, and that of a set.
pub(crate) fn final_among(images: &[u32], set: u32, finals: &[u32], out: &mut Vec<u32>)
    requires few { length images.now ≤ MOST_IMAGES }
    requires room { MOST_IMAGES ≤ vec_capacity out.old }
    ensures finals { out.new.items ≡ with_final set images.now finals.now }
    ensures room { vec_capacity out.old ≤ vec_capacity out.new }
{
    out.clear();
    for image in images {
        if is_final(*image, set, finals) {
            push_within(out, *image);
        }
    }
}

/// Whether an image is final, or is that of a set.
fn is_final(image: u32, set: u32, finals: &[u32]) -> bool
    ensures { result ≡ ((image == set) || is_among image finals.now) }
{
    image == set || finals.contains(&image)
}

/// Appends a number to those that there is room for.
fn push_within(numbers: &mut Vec<u32>, number: u32)
    requires { length numbers.old.items < vec_capacity numbers.old }
    ensures items { numbers.new.items ≡ numbers.old.items ++ number ∷ [] }
    ensures room { vec_capacity numbers.old ≤ vec_capacity numbers.new }
{
    let _ = numbers.push(number);
}

/// Takes these claims in place of those before.
pub(crate) fn take_claims(claims: &mut Vec<Claim>, others: &[Claim])
    requires { length others.now ≤ vec_capacity claims.old }
    ensures items { claims.new.items ≡ others.now }
    ensures room { vec_capacity claims.old ≤ vec_capacity claims.new }
{
    claims.clear();
    let _ = claims.extend_from_slice(others);
}
