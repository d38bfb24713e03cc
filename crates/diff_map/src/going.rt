ghost use Rattle.std.specs.Prelude.{◌≡◌, ◌<◌, ◌≤◌, false, length, AllPairs};
ghost use Rattle.std.specs.List.{AllWithin};

use crate::counts::{place_after, place_from};

/// Which images' copies go.
#[derive(Clone, Copy)]
pub enum Going {
    /// Those of the image of this set.
    Image(u32),
    /// Those of the image of this set and of each newer one.
    From(u32),
    /// Those of the images up to this set.
    UpTo(u32),
}

impl Going {
    ghost use Rattle.diff_map.specs.Rules.{takes};

    /// Whether the copies for this set go.
    pub fn takes(self, set: u32) -> bool
        ensures { result ≡ takes self set }
    {
        match self {
            Going::Image(image) => set == image,
            Going::From(oldest) => oldest <= set,
            Going::UpTo(newest) => set <= newest,
        }
    }

    /// Two places of ascending images, between which those stand whose copies go.
    pub fn places(self, images: &[u32]) -> (usize, usize)
        requires { AllPairs (λ older newer. older < newer) images.now }
        ensures before { AllWithin (λ image. takes self image ≡ false) images.now 0 result.0 }
        ensures after { AllWithin (λ image. takes self image ≡ false) images.now result.1 (length images.now) }
        ensures within { result.1 ≤ length images.now }
    {
        match self {
            Going::Image(image) => (place_from(images, image), place_after(images, image)),
            Going::From(oldest) => (place_from(images, oldest), images.len()),
            Going::UpTo(newest) => (0, place_after(images, newest)),
        }
    }
}
