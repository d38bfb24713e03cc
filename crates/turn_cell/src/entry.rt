use vss_names::OutOfMemory;

/// One call in the history: who made it, what it asked and what the machine's step answered.
pub struct Entry<C, R> {
    pub caller: u32,
    pub call: C,
    pub answer: Result<R, OutOfMemory>,
}

/// The reply of a call, and the number of entries that the history had with it, this call's the last. The number
/// counts modulo 2^64.
#[derive(Debug, Drop)]
pub struct Answered<R> {
    pub front: u64,
    pub reply: R,
}
