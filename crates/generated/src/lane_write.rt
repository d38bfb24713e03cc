/// What one line of a generated lane writes, and where.
#[derive(Clone, Copy, Debug)]
pub struct LaneWrite {
    pub volume: u32,
    pub block: u32,
    pub stamp: u32,
}
