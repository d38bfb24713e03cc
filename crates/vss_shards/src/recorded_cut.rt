use crate::part::Part;
use std::marker::Model;

/// A cut as the journal stores it.
#[derive(Drop)]
pub(crate) struct RecordedCut {
    /// How many entries the journal had.
    pub(crate) at: u32,
    pub(crate) parts: Vec<Part>,
}

impl Model for RecordedCut {
    ghost use Rattle.vss_shards.specs.Journals.{Cut};

    ghost Value = { Cut };

    ghost view = { λ c. record { at = c.at; parts = c.parts.items } };
}
