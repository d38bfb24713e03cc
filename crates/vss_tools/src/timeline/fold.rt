/// How closing lines are folded: so many below one another, and then the next column.
#[derive(Clone, Copy)]
pub struct Fold {
    /// How many lines a column has, from 1.
    pub lines: usize,
    /// How wide a column is, in pixels.
    pub width: u64,
}

/// How many lines are not folded, and how wide all columns are together at most.
const SHORT: usize = 12;

const WIDEST: u64 = 1_200;

impl Fold {
    /// For so many lines, of which the longest is so wide.
    pub fn of(count: usize, width: u64) -> Fold {
        if count <= SHORT {
            return Fold {
                lines: SHORT,
                width,
            };
        }
        let columns = (WIDEST / width.max(1)).max(1) as usize;
        Fold {
            lines: (count / columns.max(1)).saturating_add(1).max(SHORT),
            width,
        }
    }

    /// The column of a line, and how many lines are above it there.
    pub fn place(self, line: usize) -> (usize, usize) {
        let lines = self.lines.max(1);
        (line / lines, line % lines)
    }

    /// The left edge of a line, in pixels.
    pub fn left(self, line: usize) -> u64 {
        (self.place(line).0 as u64).saturating_mul(self.width)
    }

    /// The right edge of so many lines.
    pub fn right_of(self, count: usize) -> u64 {
        self.left(count).saturating_add(self.width)
    }
}
