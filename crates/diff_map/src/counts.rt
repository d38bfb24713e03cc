//! Where an image stands among the others, and which is the first that has a copy.

ghost use Rattle.std.specs.Prelude.{◌≡◌, ◌<◌, ◌≤◌, length, drop, vec_capacity, All, AllPairs, IfSome, IsNone};
ghost use Rattle.std.specs.List.{AllWithin};
ghost use Rattle.diff_map.specs.Counts.{IsFirstUsed};

use crate::image_count::ImageCount;

/// The place of the first of the ascending images from this set on, or of the one that would follow them.
pub fn place_from(images: &[u32], set: u32) -> usize
    requires { AllPairs (λ older newer. older < newer) images.now }
    ensures within { result ≤ length images.now }
    ensures before { AllWithin (λ image. image < set) images.now 0 result }
    ensures onward { AllWithin (λ image. set ≤ image) images.now result (length images.now) }
{
    images.partition_point(|image| *image < set)
}

/// The place of the first of the ascending images after this set, or of the one that would follow them.
pub fn place_after(images: &[u32], set: u32) -> usize
    requires { AllPairs (λ older newer. older < newer) images.now }
    ensures within { result ≤ length images.now }
    ensures before { AllWithin (λ image. image ≤ set) images.now 0 result }
    ensures onward { AllWithin (λ image. set < image) images.now result (length images.now) }
{
    images.partition_point(|image| *image <= set)
}

/// So few items are taken out one by one, each by one move of the others; more by a loop over the others.
const FEW: usize = 8;

/// The first so many items go.
pub fn drop_first<T: Copy + Drop>(items: &mut Vec<T>, count: usize)
    requires { count ≤ length items.old.items }
    ensures items { items.new.items ≡ drop count items.old.items }
    ensures capacity { vec_capacity items.new ≡ vec_capacity items.old }
{
    if count > FEW {
        return write_over_first(items, count);
    }
    for _i in 0..count {
        let _first = items.remove(0);
    }
}

/// The same, where the others are written over the first.
#[tactic(auto, using(crate::proofs::Images::left_in_front))]
fn write_over_first<T: Copy + Drop>(items: &mut Vec<T>, count: usize)
    requires { count ≤ length items.old.items }
    ensures items { items.new.items ≡ drop count items.old.items }
    ensures capacity { vec_capacity items.new ≡ vec_capacity items.old }
{
    let left = items.len() - count;
    items.copy_within(count.., 0);
    items.truncate(left);
}

/// The first image that has a copy.
pub fn first_used(counts: &[ImageCount]) -> Option<u32>
    ensures found { IfSome result (IsFirstUsed counts.now) }
    ensures none { IsNone result → All (λ c. c.used ≡ 0) counts.now }
{
    for count in counts {
        if count.used > 0 {
            return Some(count.set);
        }
    }
    None
}
