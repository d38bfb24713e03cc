use crate::op::Op;

/// A line of a lane, with its number in the text, from 1; 0 for the `end` that a lane gets without writing it.
#[derive(Clone, Copy, Debug)]
pub struct LaneLine {
    pub number: u32,
    pub op: Op,
}
