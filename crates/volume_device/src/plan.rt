ghost use Rattle.std.specs.Prelude.{◌≡◌, ◌<◌, length, IfSome};
ghost use Rattle.volume_device.specs.InMemory.{place_for, row_for, used_up, is_refused};

use crate::planned::Planned;
use std::marker::Model;

/// The rows that are not used up.
#[derive(Debug, Drop)]
pub struct Plan {
    rows: Vec<Planned>,
}

impl Model for Plan {
    ghost use Rattle.std.specs.Prelude.{List};
    ghost use Rattle.volume_device.specs.declared.planned.Planned.{Planned};

    ghost Value = { List Planned };

    ghost view = { λ p. p.rows.items };
}

/// The place of the first row of a name.
fn find_row(rows: &[Planned], name: &[u8]) -> Option<usize>
    ensures place { result ≡ place_for name.now rows.now }
    ensures in_range { IfSome result (λ place. place < length rows.now) }
{
    rows.iter().position(|row| row.name.bytes() == name)
}

impl Plan {
    /// The plan with these rows.
    pub fn of(rows: Vec<Planned>) -> Plan
        ensures { result ≡ rows.items }
    {
        Plan { rows }
    }

    /// Whether the next device of this name is refused.
    pub fn refuses(&self, name: &[u8]) -> bool
        ensures { result ≡ is_refused (row_for name.now self.now) }
    {
        match find_row(&self.rows, name) {
            Some(place) => self.rows[place].refused,
            None => false,
        }
    }

    /// Takes the first row of this name out.
    pub fn take(&mut self, name: &[u8]) -> Option<Planned>
        ensures row { result ≡ row_for name.now self.old }
        ensures left { self.new ≡ used_up name.now self.old }
    {
        match find_row(&self.rows, name) {
            Some(place) => Some(self.rows.remove(place)),
            None => None,
        }
    }
}
