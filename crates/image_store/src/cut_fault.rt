/// Why no set was cut. Nothing changed.
#[derive(Clone, Copy, Debug, PartialEq, Eq)]
pub enum CutFault {
    /// The last set that was given has the greatest number.
    NoNextSet,
    /// This volume, the first such, has as many images as a volume may have.
    TooManyImages { volume: u32 },
}
