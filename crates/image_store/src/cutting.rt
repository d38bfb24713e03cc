//! A set is cut over some volumes of a group.

ghost use Rattle.std.specs.Prelude.{◌≡◌, ◌≢◌, ◌<◌, ◌≤◌, ◌⊎◌, ℕ, List, true, length, All, IfSome, IsNone};
ghost use Rattle.std.specs.List.{AllPairs};
ghost use Rattle.diff_map.specs.Copies.{AreImages};
ghost use Rattle.cow_volume.specs.Calls.{is_among, sets_at};
ghost use Rattle.image_store.specs.Cutting.{IsFirstFull, IsGreatestSet};
ghost use Rattle.image_store.specs.Plain.{Plain, cut_on, on_each};
ghost use Rattle.image_store.specs.StoreValue.{HasPlains};

use cow_volume::CowGroup;
use volume_device::Device;
use vss_names::MOST_IMAGES;

/// The first of these volumes that has as many images as it may have.
pub fn first_full<D: Device>(group: &CowGroup<D>, volumes: &[u32]) -> Option<u32>
    requires { All (λ v. v < length group.now.area.volumes) volumes.now }
    ensures found { IfSome result (λ v. IsFirstFull group.now volumes.now v) }
    ensures none { IsNone result → All (λ v. length (sets_at group.now v) < 512) volumes.now }
{
    for volume in volumes {
        if group.images(*volume).len() >= MOST_IMAGES {
            return Some(*volume);
        }
    }
    None
}

/// The newest of the sets of a volume's images, which rise; 0 where there is none.
pub fn newest_of(sets: &[u32]) -> u32
    requires { AreImages sets.now }
    ensures all { All (λ s. s ≤ result) sets.now }
    ensures one { 0 < result → is_among result sets.now ≡ true }
{
    if sets.is_empty() {
        return 0;
    }
    sets[sets.len() - 1]
}

/// The greater of two sets.
fn greater_of(a: u32, b: u32) -> u32
    ensures first { a ≤ result }
    ensures second { b ≤ result }
    ensures one { (result ≡ a) ⊎ ((result ≡ b) × (0 < b)) }
{
    if a < b {
        return b;
    }
    a
}

/// The greatest of the last set that was given and the sets of all images.
pub fn greatest_set<D: Device>(group: &CowGroup<D>, last: u32) -> u32
    ensures { IsGreatestSet group.now last result }
{
    let mut greatest = last;
    for v in 0..group.volumes() {
        greatest = greater_of(greatest, newest_of(group.images(v)));
    }
    greatest
}

/// Cuts one set over these volumes.
pub fn cut_all<D: Device>(group: &mut CowGroup<D>, volumes: &[u32], set: u32)
    requires within { All (λ v. v < length group.old.area.volumes) volumes.now }
    requires apart { AllPairs (λ u v. u ≢ v) volumes.now }
    requires above_zero { 0 < set }
    requires room { All (λ v. length (sets_at group.old v) < 512) volumes.now }
    requires newest { (v : ℕ) → All (λ s. s < set) (sets_at group.old v) }
    ensures volumes { group.new.area.volumes ≡ group.old.area.volumes }
    ensures area { group.new.area ≡ group.old.area }
    ensures devices { group.new.devices ≡ group.old.devices }
    ensures cut { (ps : List Plain) → HasPlains D.told group.old ps → HasPlains D.told group.new (on_each volumes.now (cut_on set) ps) }
{
    for volume in volumes {
        group.cut(*volume, set);
    }
}
