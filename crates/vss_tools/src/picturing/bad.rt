use super::problem::Problem;
use std::fmt;

/// A text that was given, and what is wrong with it.
#[derive(Clone, Copy)]
pub struct Bad<'a> {
    /// Its file, or `standard input`.
    pub file: &'a str,
    /// The number of a line, from 1, or 0.
    pub line: u64,
    pub problem: Problem,
}

impl fmt::Display for Bad<'_> {
    fn fmt<W: fmt::Write>(&self, f: &mut fmt::Formatter<W>) -> fmt::Result {
        write!(f, "{}: ", self.file)?;
        if self.line != 0 {
            write!(f, "line {}: ", self.line)?;
        }
        write!(f, "{}", self.problem)
    }
}
