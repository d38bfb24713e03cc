/// A part of the drawing from left to right; what follows is in the next, below it.
#[derive(Clone, Copy)]
pub struct Band {
    /// Its right edge, in pixels.
    pub edge: u64,
    /// The most bytes of a label.
    pub longest: usize,
    /// The places among all marks of its first, and of the first behind it.
    pub marks: (usize, usize),
    /// The same of what has ended.
    pub bars: (usize, usize),
}
