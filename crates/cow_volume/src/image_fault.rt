ghost use Rattle.std.specs.Prelude.{◌≡◌, true, Some, is_some};
ghost use Rattle.cow_volume.specs.Calls.{cause_of};

use crate::cause::Cause;

/// Why a call on an image failed. The earlier of two causes that stand together is told.
#[derive(Clone, Copy, Debug, PartialEq, Eq)]
pub enum ImageFault {
    /// No image of this set stands on the volume.
    NoSuchImage,
    /// The volume has no such block.
    NoSuchBlock,
    /// The volume's device failed, and its count of faults rose.
    Volume,
    /// The diff area's device failed, and its count of faults rose.
    Area,
}

impl ImageFault {
    /// The cause, which is not that there is no such image.
    pub fn cause(self) -> Cause
        requires { is_some (cause_of self) ≡ true }
        ensures { cause_of self ≡ Some result }
    {
        match self {
            ImageFault::NoSuchImage => unreachable!(),
            ImageFault::NoSuchBlock => Cause::NoSuchBlock,
            ImageFault::Volume => Cause::Volume,
            ImageFault::Area => Cause::Area,
        }
    }
}
