/// How a bar ends.
#[derive(Clone, Copy)]
pub enum Ending<'a> {
    /// As it should.
    Done,
    /// It lasts to the report's end, or goes on in the next band.
    Stands,
    /// The image went since its slots were needed.
    Evicted,
    /// The image was deleted.
    Deleted,
    /// The volume was reverted to an older image.
    Reverted,
    /// The session of context 0 ended, whose set the image is of.
    SessionEnded,
    /// The image is not among those at the end, and nothing that was read tells when it went.
    Unknown,
    /// The set failed with this result; empty for what the set takes with it.
    Failed(&'a str),
}

impl<'a> Ending<'a> {
    /// What is written where the bar ends, before a result if there is one.
    pub fn words(self) -> &'static str {
        match self {
            Ending::Done | Ending::Stands | Ending::Failed("") => "",
            Ending::Evicted => "evicted",
            Ending::Deleted => "deleted",
            Ending::Reverted => "gone by a revert",
            Ending::SessionEnded => "gone with its session",
            Ending::Unknown => "gone, not told when",
            Ending::Failed(_) => "failed: ",
        }
    }

    /// The result with which a set failed, or nothing.
    pub fn result(self) -> &'a str {
        match self {
            Ending::Failed(why) => why,
            _ => "",
        }
    }

    /// The sign at the end, and the class of the words, where it is not as it should: what failed or was evicted looks other than
    /// what was asked for.
    pub fn sign(self) -> Option<(&'static str, &'static str)> {
        match self {
            Ending::Done | Ending::Stands => None,
            Ending::Failed(_) => Some(("refused", "loss")),
            Ending::Evicted => Some(("gone", "loss")),
            Ending::Deleted | Ending::Reverted | Ending::SessionEnded | Ending::Unknown => {
                Some(("deleted", "small"))
            }
        }
    }
}
