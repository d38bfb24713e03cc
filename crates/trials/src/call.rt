/// A call as a line names it.
#[derive(Clone, Copy)]
pub struct Call<'a> {
    /// Its first word.
    pub word: &'a str,
    /// What stands behind it.
    pub rest: &'a str,
    /// Those of its words that are numbers.
    pub numbers: &'a [u32],
}

impl Call<'_> {
    /// Its number at a place, or 0 where it has not so many.
    pub fn number(self, place: usize) -> u32 {
        self.numbers.get(place).copied().unwrap_or(0)
    }

    /// The lowest byte of that number.
    pub fn byte(self, place: usize) -> u8 {
        (self.number(place) % 256) as u8
    }
}
