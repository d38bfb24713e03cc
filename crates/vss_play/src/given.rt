/// What a writer of the caller's was given: the number of its last order, and of how many aborts it was told.
#[derive(Clone, Copy)]
pub struct Given {
    pub order: u64,
    pub aborts: u32,
}
