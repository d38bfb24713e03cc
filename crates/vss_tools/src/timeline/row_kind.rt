/// What a row of the picture is of.
#[derive(Clone, Copy, PartialEq, Eq)]
pub enum RowKind {
    /// The moves by their numbers, and the clock.
    Time,
    Lane,
    /// The provider, and the sets that it makes.
    Provider,
    Writer,
    Volume,
}

impl RowKind {
    ghost use Rattle.std.specs.Prelude.{◌≡◌};
    ghost use Rattle.vss_tools.specs.Refused.{declaring};

    /// The word that declares one in a scenario; empty where nothing does.
    pub fn declaring(self) -> &'static str
        ensures { result.now ≡ declaring self }
    {
        match self {
            RowKind::Time | RowKind::Provider => "",
            RowKind::Lane => "lane",
            RowKind::Writer => "writer",
            RowKind::Volume => "volume",
        }
    }

    /// What stands before the row's name.
    pub fn title(self) -> &'static str {
        match self {
            RowKind::Time => "moves",
            RowKind::Lane => "lane ",
            RowKind::Provider => "provider",
            RowKind::Writer => "writer ",
            RowKind::Volume => "volume ",
        }
    }
}
