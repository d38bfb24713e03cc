use super::piece::Piece;
use std::alloc::Global;
use vss_names::OutOfMemory;

/// What is said to a person, line by line.
#[derive(Drop)]
pub struct Notes {
    alloc: Global,
    text: String,
}

impl Notes {
    /// No line yet.
    pub fn new(alloc: Global) -> Notes {
        Notes {
            alloc,
            text: String::new(alloc),
        }
    }

    /// Where the lines take their memory from.
    pub fn alloc(&self) -> Global {
        self.alloc
    }

    /// A line more: the words of a form, with a piece for each `{}` in it.
    pub fn say(&mut self, form: &str, pieces: &[Piece<'_>]) -> Result<(), OutOfMemory> {
        self.put("     ")?;
        for (place, words) in form.split("{}").enumerate() {
            self.put(words)?;
            if let Some(piece) = pieces.get(place) {
                piece.add_to(&mut self.text, self.alloc)?;
            }
        }
        self.put("\n")
    }

    /// A line more, of fixed words.
    pub fn add(&mut self, line: &str) -> Result<(), OutOfMemory> {
        self.say(line, &[])
    }

    /// Lines more, as they stand.
    pub fn put(&mut self, lines: &str) -> Result<(), OutOfMemory> {
        self.text.push_str(lines)?;
        Ok(())
    }

    /// All lines so far, each with its end.
    pub fn text(&self) -> &str {
        self.text.as_str()
    }
}
