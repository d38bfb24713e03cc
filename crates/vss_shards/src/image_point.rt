use std::marker::Model;

/// An image of a shard: its number, and how many entries the shard's list had at the cut.
#[derive(Drop)]
pub(crate) struct ImagePoint {
    pub(crate) image: u32,
    pub(crate) count: u32,
}

impl Model for ImagePoint {
    ghost use Rattle.write_history.specs.History.{Image};

    ghost Value = { Image };

    ghost view = { λ p. record { set = p.image; point = p.count } };
}
