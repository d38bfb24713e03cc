/// What lasts for a while, or is noted on a row.
#[derive(Clone, Copy, PartialEq, Eq)]
pub enum BarKind {
    /// A session of a lane, which the scenario alone tells.
    Session,
    /// A set that is being made.
    Set,
    /// A writer that stands frozen.
    Frozen,
    /// A volume whose writes are held.
    Held,
    /// An image whose set is not complete.
    Making,
    /// An image that can be read.
    Image,
    /// A block of a volume is written.
    Write,
    /// A block is written, and what it had is copied before for the newest image.
    Copy,
    /// So many slots are used by an image.
    Used,
    /// So many images are not drawn.
    More,
}

impl BarKind {
    /// The class of its drawing.
    pub fn class(self) -> &'static str {
        match self {
            BarKind::Session => "session",
            BarKind::Set => "set",
            BarKind::Frozen => "frozen",
            BarKind::Held => "held",
            BarKind::Making => "making",
            BarKind::Image => "image",
            BarKind::Write => "write",
            BarKind::Copy => "copy",
            BarKind::Used => "used",
            BarKind::More => "more",
        }
    }

    /// What is written in it, before its number if that is written.
    pub fn words(self) -> &'static str {
        match self {
            BarKind::Session => "session, context ",
            BarKind::Set => "set ",
            BarKind::Frozen => "frozen",
            BarKind::Held => "held",
            BarKind::Making | BarKind::Image => "image of set ",
            BarKind::Used => "used ",
            BarKind::More => "images that are not drawn: ",
            BarKind::Write | BarKind::Copy => "",
        }
    }

    /// Whether its number is written.
    pub fn has_number(self) -> bool {
        !self.is_sign() && !matches!(self, BarKind::Frozen | BarKind::Held)
    }

    /// Whether it is a sign on the line of its row, and no bar.
    pub fn is_sign(self) -> bool {
        matches!(self, BarKind::Write | BarKind::Copy)
    }

    /// Whether it is words alone.
    pub fn is_words(self) -> bool {
        matches!(self, BarKind::Used | BarKind::More)
    }

    /// How many of it a row has at once at most.
    pub fn most(self) -> u64 {
        match self {
            BarKind::Making | BarKind::Image => 512,
            _ => 1,
        }
    }
}
