use crate::timeline::bar::Bar;
use crate::timeline::bar_kind::BarKind;

/// Which bars of a row end.
#[derive(Clone, Copy)]
pub enum Pick {
    All,
    /// All of a kind.
    Kind(BarKind),
    /// The image of a set.
    ImageOf(u64),
    /// The images of later sets than this one.
    NewerThan(u64),
}

impl Pick {
    /// Whether a bar is one of these.
    pub fn takes(self, bar: &Bar<'_>) -> bool {
        match self {
            Pick::All => true,
            Pick::Kind(kind) => bar.kind == kind,
            Pick::ImageOf(set) => bar.kind == BarKind::Image && bar.number == set,
            Pick::NewerThan(set) => bar.kind == BarKind::Image && set < bar.number,
        }
    }
}
