ghost use Rattle.std.specs.Prelude.{◌≡◌};
ghost use Rattle.writer_meta.specs.Refusal.{member_name};

/// A place of a metadata document: the whole of it, or a member of it or of one of its components. `Name` is the name
/// of both.
#[derive(Clone, Copy, Debug, PartialEq, Eq, Hash)]
pub enum Field {
    Document,
    Class,
    Name,
    Level,
    Usage,
    Source,
    FreezeTimeout,
    Components,
    Kind,
    Path,
    Selectable,
}

impl Field {
    /// The name of the member. The whole document is no member, and is called `document`.
    pub fn member(self) -> &'static str
        ensures { result.now ≡ member_name self }
    {
        match self {
            Field::Document => "document",
            Field::Class => "class",
            Field::Name => "name",
            Field::Level => "level",
            Field::Usage => "usage",
            Field::Source => "source",
            Field::FreezeTimeout => "freeze_timeout",
            Field::Components => "components",
            Field::Kind => "type",
            Field::Path => "path",
            Field::Selectable => "selectable",
        }
    }
}
