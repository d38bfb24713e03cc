ghost use Rattle.std.specs.Prelude.{◌≡◌, List, length};

use crate::said::Said;
use std::marker::Model;

/// The replies to a list of commands, in their order. Contracts see it as a list.
#[derive(Debug, Drop)]
pub struct ReplyList {
    items: Vec<Said>,
}

impl Model for ReplyList {
    ghost use Rattle.std.specs.Prelude.{List};
    ghost use Rattle.mirror_volume.specs.declared.said.Said.{Said};

    ghost Value = { List Said };

    ghost view = { λ r. r.items.items };
}

impl ReplyList {
    /// These replies, without taking memory.
    pub fn of(items: Vec<Said>) -> ReplyList
        ensures { result ≡ items.items }
    {
        ReplyList { items }
    }

    /// Lends the replies.
    pub fn items(&self) -> &[Said]
        ensures { result.now ≡ self.now }
    {
        &self.items
    }

    /// How many replies there are.
    pub fn len(&self) -> usize
        ensures { result ≡ length self.now }
    {
        self.items.len()
    }

    /// The replies, without taking memory.
    pub fn into_vec(self) -> Vec<Said>
        ensures { result.items ≡ self }
    {
        self.items
    }
}
