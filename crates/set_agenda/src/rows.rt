ghost use Rattle.std.specs.Prelude.{◌≡◌, ◌<◌, ◌∷◌, ◌++◌, [], All, List};
ghost use Rattle.set_agenda.specs.declared.member.Member.{Member};
ghost use Rattle.set_agenda.specs.Advance.{others_if};
ghost use Rattle.set_agenda.specs.Cursor.{HasLevels, HasRows, asked, row_at, with_unfailed};

use crate::group::Group;
use crate::member::Member;
use crate::place::Place;
use crate::writer_set::WriterSet;
use vss_names::{Level, Order};

/// The members of an agenda, all and by level.
#[derive(Drop)]
pub struct Rows {
    pub all: WriterSet,
    pub system: WriterSet,
    pub back_end: WriterSet,
    pub front_end: WriterSet,
    /// Those that have not failed: PostSnapshot asks them.
    pub unfailed: WriterSet,
}

impl Rows {
    fn empty() -> Rows
        ensures { HasRows result [] }
    {
        Rows {
            all: WriterSet::new(),
            system: WriterSet::new(),
            back_end: WriterSet::new(),
            front_end: WriterSet::new(),
            unfailed: WriterSet::new(),
        }
    }

    /// The rows of these members, of whom none has failed.
    pub fn of(members: &[Member]) -> Rows
        requires { All (λ m. m.writer < 64) members.now }
        ensures { HasRows result members.now }
    {
        let mut rows = Rows::empty();
        for member in members {
            rows.enter(*member);
        }
        rows
    }

    /// One member more.
    fn enter(&mut self, member: Member)
        requires { member.writer < 64 }
        ensures { (ms : List Member) → HasRows self.old ms → HasRows self.new (ms ++ member ∷ []) }
    {
        self.all.insert(member.writer);
        self.unfailed.insert(member.writer);
        self.enter_level(member);
    }

    #[tactic(auto, using(crate::proofs::Closings::row_in, crate::proofs::Closings::row_out))]
    fn enter_level(&mut self, member: Member)
        requires { member.writer < 64 }
        ensures levels { (ms : List Member) → HasLevels self.old ms → HasLevels self.new (ms ++ member ∷ []) }
        ensures all { self.new.all ≡ self.old.all }
        ensures unfailed { self.new.unfailed ≡ self.old.unfailed }
    {
        match member.level {
            Level::System => self.system.insert(member.writer),
            Level::BackEnd => self.back_end.insert(member.writer),
            Level::FrontEnd => self.front_end.insert(member.writer),
        }
    }

    fn at(&self, level: Option<Level>) -> WriterSet
        ensures { result ≡ row_at self.now level }
    {
        match level {
            None => self.all.copied(),
            Some(Level::System) => self.system.copied(),
            Some(Level::BackEnd) => self.back_end.copied(),
            Some(Level::FrontEnd) => self.front_end.copied(),
        }
    }

    /// Whom a group of writers asks as it opens; nobody, for a step of the provider.
    pub fn asked(&self, place: Place) -> WriterSet
        ensures { result ≡ asked self.now place.group place.level }
    {
        match place.group {
            Group::Orders(Order::PostSnapshot) => self.unfailed.copied(),
            Group::Orders(_) => self.at(place.level),
            _ => WriterSet::new(),
        }
    }

    /// These writers have failed, where `failed`.
    pub fn close(&mut self, writers: &WriterSet, failed: bool)
        ensures unfailed { self.new.unfailed ≡ others_if failed writers.now self.old.unfailed }
        ensures others { self.new ≡ with_unfailed self.old self.new.unfailed }
    {
        if failed {
            self.unfailed = self.unfailed.minus(writers);
        }
    }
}
