/// One volume's part of a cut.
#[derive(Clone, Copy, Debug, PartialEq, Eq)]
pub struct Part {
    pub volume: u32,
    /// The number of the image on its volume.
    pub image: u32,
    /// How many entries the volume's list has at the cut.
    pub count: u32,
}
