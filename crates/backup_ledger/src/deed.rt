use vss_names::Order;
use writer_calls::Answer;

/// One thing that was done in a backup. Writers and volumes are named by their numbers.
#[derive(Clone, Copy, Debug, PartialEq, Eq)]
pub enum Deed {
    /// A writer was given an order: that of this number in its mailbox, the `nth` of its kind.
    Said {
        writer: u32,
        number: u64,
        order: Order,
        nth: u32,
    },
    /// A writer answered an order that it was given.
    Heard {
        writer: u32,
        order: Order,
        answer: Answer,
    },
    /// A writer was told that the backup is given up.
    ToldAbort {
        writer: u32,
    },
    /// The volumes were brought near their files, while the applications ran.
    Near,
    /// A part of a volume's file was read, each block once; `is_last` says whether no block is left.
    Read {
        volume: u32,
        is_last: bool,
    },
    /// What was read is kept as this set.
    Kept {
        set: u32,
    },
}
