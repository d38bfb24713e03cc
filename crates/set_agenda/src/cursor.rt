ghost use Rattle.std.specs.Prelude.{◌≡◌, ◌≤◌, Some, drop, length, true};
ghost use Rattle.set_agenda.specs.Agenda.{is_over_volumes, places};
ghost use Rattle.set_agenda.specs.WriterSet.{is_nil};
ghost use Rattle.set_agenda.specs.Cursor.{fresh, here, is_fresh_live, is_held_in, is_live, left_fresh, left_here, steps};

use crate::group::Group;
use crate::kind::Kind;
use crate::place::Place;
use crate::rows::Rows;
use crate::writer_set::WriterSet;

/// How far an agenda has come.
#[derive(Drop)]
pub struct Cursor {
    /// The number of the open group, from 0.
    pub group: usize,
    /// The writers that the open group waits for.
    pub waits: WriterSet,
    /// The provider's steps that are made in the open group.
    pub next: usize,
}

impl Cursor {
    /// The cursor at the first group that asks somebody, from that number on.
    pub fn opened(kind: Kind, rows: &Rows, volumes: &[u32], from: usize) -> Cursor
        requires { from ≤ 16 }
        ensures at_most { result.group ≤ 16 }
        ensures left { left_here rows.now volumes.now result (drop result.group (places kind)) ≡ left_fresh rows.now volumes.now (drop from (places kind)) }
        ensures live { is_live volumes.now result (drop result.group (places kind)) ≡ true }
    {
        let group = first_open(kind, rows, volumes, from);
        let waits = match Place::of_number(kind, group) {
            None => WriterSet::new(),
            Some(place) => rows.asked(place),
        };
        Cursor {
            group,
            waits,
            next: 0,
        }
    }

    /// Goes to the next group that asks somebody, where the open one waits for nobody any more.
    #[tactic(auto, using(crate::proofs::Closings::here_skip))]
    pub fn go_on(&mut self, kind: Kind, rows: &Rows, volumes: &[u32])
        requires { self.old.group ≤ 16 }
        ensures at_most { self.new.group ≤ 16 }
        ensures left { left_here rows.now volumes.now self.new (drop self.new.group (places kind)) ≡ left_here rows.now volumes.now self.old (drop self.old.group (places kind)) }
        ensures live { is_live volumes.now self.new (drop self.new.group (places kind)) ≡ true }
    {
        if let Some(place) = Place::of_number(kind, self.group) {
            if self.is_closed(volumes, place) {
                *self = Cursor::opened(kind, rows, volumes, self.group + 1);
            }
        }
    }

    #[tactic(auto, using(crate::proofs::Closings::closed_steps))]
    fn is_closed(&self, volumes: &[u32], place: Place) -> bool
        ensures { result ≡ is_nil (here volumes.now self.now place) }
    {
        if place.group.is_orders() {
            self.waits.is_empty()
        } else {
            step_count(place.group, volumes) <= self.next
        }
    }

    /// Whether a volume is held where this place is open.
    pub fn holds(&self, place: Place, volumes: &[u32], volume: u32) -> bool
        requires { is_over_volumes place.group ≡ true → self.now.next ≤ length volumes.now }
        ensures { result ≡ is_held_in (Some place) self.now.next volumes.now volume }
    {
        match place.group {
            Group::Hold => volumes.contains(&volume) && !volumes[self.next..].contains(&volume),
            Group::Cut | Group::Commit => volumes.contains(&volume),
            Group::Release => volumes[self.next..].contains(&volume),
            Group::Orders(_) | Group::PreCommit | Group::Flush | Group::PostCommit => false,
        }
    }
}

/// How many steps the provider makes in a group.
fn step_count(group: Group, volumes: &[u32]) -> usize
    ensures { result ≡ length (steps volumes.now group) }
{
    if group.is_over_volumes() {
        volumes.len()
    } else {
        1
    }
}

/// Whether a group closes as it opens.
fn is_empty_group(rows: &Rows, volumes: &[u32], place: Place) -> bool
    ensures { result ≡ is_nil (fresh rows.now volumes.now place) }
{
    if place.group.is_orders() {
        rows.asked(place).is_empty()
    } else {
        step_count(place.group, volumes) == 0
    }
}

/// The number of the first group that asks somebody, from that number on.
#[tactic(auto, using(crate::proofs::Closings::fresh_skip))]
fn first_open(kind: Kind, rows: &Rows, volumes: &[u32], from: usize) -> usize
    requires { from ≤ 16 }
    ensures at_most { result ≤ 16 }
    ensures left { left_fresh rows.now volumes.now (drop result (places kind)) ≡ left_fresh rows.now volumes.now (drop from (places kind)) }
    ensures live { is_fresh_live rows.now volumes.now (drop result (places kind)) ≡ true }
{
    let mut number = from;
    while number < 16 {
        match Place::of_number(kind, number) {
            None => return number,
            Some(place) => {
                if !is_empty_group(rows, volumes, place) {
                    return number;
                }
            }
        }
        number += 1;
    }
    number
}
