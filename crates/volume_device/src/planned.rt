use vss_names::{Numbers, Text};

/// What is planned of the next device of a name: whether it is refused, and which of its reads, writes and flushes
/// fail, each kind counted from 1.
#[derive(Debug, Drop)]
pub struct Planned {
    pub name: Text,
    pub refused: bool,
    pub reads: Numbers,
    pub writes: Numbers,
    pub flushes: Numbers,
}
