/// What of a volume is shown.
#[derive(Clone, Copy)]
pub enum Which {
    /// The volume as it is.
    Now,
    /// Its image of this set.
    Of(u32),
}
