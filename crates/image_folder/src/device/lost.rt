/// Why a file of a folder cannot be opened, though the others are shown. Its line was printed then.
#[derive(Clone, Copy)]
pub enum Lost {
    /// It is not there.
    Missing,
    /// It is no file, or has another size.
    Damaged,
}
