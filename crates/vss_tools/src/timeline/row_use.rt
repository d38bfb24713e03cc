use crate::timeline::bar::Bar;

/// What a row of a band has to have room for.
#[derive(Clone, Copy)]
pub struct RowUse {
    /// Whether it has marks.
    pub is_marked: bool,
    /// How many bars lie one below another.
    pub tracks: u64,
}

/// The height of a row with marks, of a track of bars, and of what is free above and below bars.
const ROW: u64 = 26;

const TRACK: u64 = 16;

const FREE: u64 = 5;

impl RowUse {
    /// Nothing.
    pub const NONE: RowUse = RowUse {
        is_marked: false,
        tracks: 0,
    };

    /// Takes a bar.
    pub fn takes(&mut self, bar: &Bar<'_>) {
        if bar.kind.is_sign() {
            self.is_marked = true;
        } else {
            self.tracks = self.tracks.max((bar.track as u64).saturating_add(1));
        }
    }

    /// How far below the upper edge of the row its bars begin, and its lower edge is.
    pub fn height(self) -> (u64, u64) {
        if !self.is_marked && self.tracks == 0 {
            return (0, 0);
        }
        let bars = if self.is_marked { ROW - 3 } else { FREE };
        let end = bars.saturating_add(self.tracks.saturating_mul(TRACK));
        (bars, end.saturating_add(3).max(ROW))
    }
}
