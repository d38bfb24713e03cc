ghost use Rattle.std.specs.Prelude.{◌≡◌};
ghost use Rattle.scenario.specs.Messages.{name_of_kind};

use crate::word::Word;

/// What a name may be of. Names are apart by kind.
#[derive(Clone, Copy)]
pub enum NameKind {
    Area,
    Volume,
    Writer,
    Lane,
}

impl NameKind {
    /// What it is called, which is also the word of the lines that declare one.
    pub fn name(self) -> &'static str
        ensures { result.now ≡ name_of_kind self }
    {
        match self {
            NameKind::Area => Word::Area.name(),
            NameKind::Volume => Word::Volume.name(),
            NameKind::Writer => Word::Writer.name(),
            NameKind::Lane => Word::Lane.name(),
        }
    }
}
