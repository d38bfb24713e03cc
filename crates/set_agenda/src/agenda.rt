ghost use Rattle.std.specs.Prelude.{◌≡◌, ℕ, ◌<◌, ◌∷◌, [], All, IfOk, List, map, true, false};
ghost use Rattle.set_agenda.specs.Agenda.{Open, groups_left, is_asked, is_asking, is_done, is_held_now, is_working, next_member, next_step, next_volume, open_group, open_level, open_place, waits_now};
ghost use Rattle.set_agenda.specs.Advance.{advance, are_distinct, by_writer, unspoken};
ghost use Rattle.set_agenda.specs.Cursor.{IsSound, left_of};

use crate::cursor::Cursor;
use crate::group::Group;
use crate::kind::Kind;
use crate::member::Member;
use crate::place::Place;
use crate::rows::Rows;
use crate::writer_set::WriterSet;
use std::alloc::Global;
use std::marker::Model;
use vss_names::{Level, OutOfMemory};

/// An agenda, seen as the groups that are left: those that are not closed, in order, each with those that it waits
/// for. The first of them is open. Nothing that was said is kept but what follows from it.
#[derive(Drop)]
pub struct Agenda {
    kind: Kind,
    rows: Rows,
    volumes: Vec<u32>,
    cursor: Cursor,
}

impl Model for Agenda {
    ghost Value = { List Open };

    ghost view = { λ a. left_of a.kind a.rows a.volumes.items a.cursor };

    ghost invariant = { λ a. IsSound a.kind a.volumes.items a.cursor };
}

impl Agenda {
    /// An agenda that begins. Its first group is open, or the first one that asks somebody. No later call takes
    /// memory.
    pub fn new(
        alloc: Global,
        kind: Kind,
        members: &[Member],
        volumes: &[u32],
    ) -> Result<Agenda, OutOfMemory>
        requires writers { All (λ m. m.writer < 64) members.now }
        requires no_writer_twice { are_distinct (map (λ m. m.writer) members.now) ≡ true }
        requires no_volume_twice { are_distinct volumes.now ≡ true }
        ensures { IfOk result (λ a. (now : ℕ) → a ≡ groups_left (unspoken kind (by_writer members.now) volumes.now now)) }
    {
        let volumes = Vec::from_slice(alloc, volumes)?;
        let rows = Rows::of(members);
        let cursor = Cursor::opened(kind, &rows, &volumes, 0);
        Ok(Agenda {
            kind,
            rows,
            volumes,
            cursor,
        })
    }

    /// Where the agenda stands; the place of PreCommit where it is done.
    pub fn place(&self) -> Place
        ensures { result ≡ open_place self.now }
    {
        match Place::of_number(self.kind, self.cursor.group) {
            None => Place {
                group: Group::PreCommit,
                level: None,
            },
            Some(place) => place,
        }
    }

    /// The open group; none where the agenda is done.
    pub fn open_group(&self) -> Option<Group>
        ensures { result ≡ open_group self.now }
    {
        match Place::of_number(self.kind, self.cursor.group) {
            None => None,
            Some(place) => Some(place.group),
        }
    }

    /// The level of the open group, where it is one of Freeze or Thaw.
    pub fn level(&self) -> Option<Level>
        ensures { result ≡ open_level self.now }
    {
        match Place::of_number(self.kind, self.cursor.group) {
            None => None,
            Some(place) => place.level,
        }
    }

    /// Whether every group of the agenda has closed.
    pub fn is_done(&self) -> bool
        ensures { result ≡ is_done self.now }
    {
        match Place::of_number(self.kind, self.cursor.group) {
            None => true,
            Some(_) => false,
        }
    }

    /// Whether the writer has an open order.
    pub fn is_open(&self, writer: u32) -> bool
        requires { writer < 64 }
        ensures { result ≡ is_asked writer self.now }
    {
        match Place::of_number(self.kind, self.cursor.group) {
            None => false,
            Some(place) => match place.group {
                Group::Orders(_) => self.cursor.waits.contains(writer),
                _ => false,
            },
        }
    }

    /// Whether a group of writers is open.
    pub fn is_asking(&self) -> bool
        ensures { result ≡ is_asking self.now }
    {
        match Place::of_number(self.kind, self.cursor.group) {
            None => false,
            Some(place) => place.group.is_orders(),
        }
    }

    /// Whether the provider has a step to make.
    pub fn is_working(&self) -> bool
        ensures { result ≡ is_working self.now }
    {
        match Place::of_number(self.kind, self.cursor.group) {
            None => false,
            Some(place) => !place.group.is_orders(),
        }
    }

    /// The volume of the provider's next step, where the open group has one step for each volume.
    pub fn next_volume(&self) -> Option<u32>
        ensures { result ≡ next_volume self.now }
    {
        match Place::of_number(self.kind, self.cursor.group) {
            None => None,
            Some(place) => {
                if place.group.is_over_volumes() {
                    Some(self.volumes[self.cursor.next])
                } else {
                    None
                }
            }
        }
    }

    /// The provider's next step, with its volume where the open group has one step for each; none where the provider
    /// has no step to make.
    pub fn next_step(&self) -> Option<(Group, Option<u32>)>
        ensures { result ≡ next_step self.now }
    {
        match Place::of_number(self.kind, self.cursor.group) {
            None => None,
            Some(place) => {
                if place.group.is_orders() {
                    None
                } else {
                    Some((place.group, self.next_volume()))
                }
            }
        }
    }

    /// Whether the writes of the volume are held: its Hold step is made, and its Release step is not.
    #[tactic(auto, using(crate::proofs::Held::held_cursor))]
    pub fn is_held(&self, volume: u32) -> bool
        ensures { result ≡ is_held_now self.now volume }
    {
        match Place::of_number(self.kind, self.cursor.group) {
            None => false,
            Some(place) => self.cursor.holds(place, &self.volumes, volume),
        }
    }

    /// The writers with an open order.
    pub fn waited(&self) -> WriterSet
        requires { is_asking self.now ≡ true }
        ensures { result ≡ waits_now self.now }
    {
        self.cursor.waits.copied()
    }

    /// The writer has answered its open order, or has failed at it.
    pub fn close_writer(&mut self, writer: u32, failed: bool)
        requires small { writer < 64 }
        requires open { is_asked writer self.old ≡ true }
        ensures { self.new ≡ advance (writer ∷ []) failed self.old }
    {
        self.close(&WriterSet::of(writer), failed);
    }

    /// All writers with an open order fail at it, as where no answer ever comes.
    pub fn lose(&mut self)
        requires { is_asking self.old ≡ true }
        ensures { self.new ≡ advance (waits_now self.old) true self.old }
    {
        let writers = self.waited();
        self.close(&writers, true);
    }

    #[tactic(auto, using(crate::proofs::Closings::closed_writers, crate::proofs::Closings::with_waits))]
    fn close(&mut self, writers: &WriterSet, failed: bool)
        requires { is_asking self.old ≡ true }
        ensures { self.new ≡ advance writers.now failed self.old }
    {
        self.rows.close(writers, failed);
        self.cursor.waits = self.cursor.waits.minus(writers);
        self.cursor.go_on(self.kind, &self.rows, &self.volumes);
    }

    /// The provider has made the next step of the open group.
    #[tactic(auto, using(crate::proofs::Closings::closed_step))]
    pub fn close_step(&mut self)
        requires { is_working self.old ≡ true }
        ensures { self.new ≡ advance (next_member self.old ∷ []) false self.old }
    {
        self.cursor.next += 1;
        self.cursor.go_on(self.kind, &self.rows, &self.volumes);
    }
}
