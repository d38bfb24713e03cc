use crate::timeline::label::Label;
use crate::timeline::place::Place;
use crate::timeline::shape::Shape;

/// The mark of a line of a report.
#[derive(Clone, Copy)]
pub struct Mark<'a> {
    /// The line.
    pub text: &'a str,
    pub label: Label<'a>,
    pub shape: Shape,
    pub place: Place,
    /// How many moves were made with it.
    pub moves: u64,
}
