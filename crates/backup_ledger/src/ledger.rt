ghost use Rattle.std.specs.Prelude.{◌≡◌, ◌++◌, ◌∷◌, ◌+◌, [], true, false, take, IfOk, OnOk, OnErr, IsErrOf};
ghost use Rattle.std.specs.List.{list_any};
ghost use Rattle.backup_ledger.specs.Deeds.{all_told, copied, is_kept, is_told, may_hear, may_keep, may_read, may_say, AreOfOneMoment, IsEnded};

use crate::copier::Copier;
use crate::deed::Deed;
use crate::looking::{may_hear, may_keep, may_read, may_say, was_kept, was_told, writer_at};
use crate::undone::Undone;
use std::alloc::Global;
use std::marker::Model;
use vss_names::{Failed, Order, OutOfMemory};
use writer_calls::{Answer, Standing};

/// The deeds of a backup, and the copier that does its part of them. Contracts see the writers that take part, the volumes of the set, and the
/// deeds in order.
#[derive(Drop)]
pub struct Ledger<C: Copier> {
    writers: Vec<u32>,
    volumes: Vec<u32>,
    deeds: Vec<Deed>,
    copier: C,
}

impl<C: Copier> Model for Ledger<C> {
    ghost use Rattle.std.specs.Prelude.{◌≡◌, [], true};
    ghost use Rattle.backup_ledger.specs.Deeds.{LedgerValue, are_right, copied};

    ghost Value = { LedgerValue };

    ghost view = { λ l. record { writers = l.writers.items; volumes = l.volumes.items; deeds = l.deeds.items } };

    ghost invariant = { λ l. (are_right l.writers.items l.volumes.items [] l.deeds.items ≡ true) × (C.done l.copier ≡ copied l.deeds.items) };
}

impl<C: Copier> Ledger<C> {
    /// The ledger of a backup in which nothing was done, of these writers and volumes.
    pub fn new(alloc: Global, writers: Vec<u32>, volumes: Vec<u32>, copier: C) -> Ledger<C>
        requires { C.done copier ≡ [] }
        ensures { result ≡ record { writers = writers.items; volumes = volumes.items; deeds = [] } }
    {
        Ledger {
            writers,
            volumes,
            deeds: Vec::new(alloc),
            copier,
        }
    }

    /// The deeds, in order. What is kept is of one moment, and the copier did what they say.
    pub fn deeds(&self) -> &[Deed]
        ensures deeds { result.now ≡ self.now.deeds }
        ensures moment { AreOfOneMoment self.now }
    {
        &self.deeds
    }

    /// What the copier is, which did the deeds of the ledger that are its, and no others.
    pub fn copier(&self) -> &C
        ensures { C.done result.now ≡ copied self.now.deeds }
    {
        &self.copier
    }

    /// The copier.
    pub fn into_copier(self) -> C
        ensures { C.done result ≡ copied self.deeds }
    {
        self.copier
    }

    /// The writers that take part.
    pub fn writers(&self) -> &[u32]
        ensures { result.now ≡ self.now.writers }
    {
        &self.writers
    }

    /// Whether a set is kept.
    pub fn is_kept(&self) -> bool
        ensures { result ≡ list_any is_kept self.now.deeds }
    {
        was_kept(&self.deeds)
    }

    /// Whether a writer was told of the abort.
    pub fn was_told(&self, writer: u32) -> bool
        ensures { result ≡ list_any (is_told writer) self.now.deeds }
    {
        was_told(writer, &self.deeds)
    }

    /// Notes that a writer is given an order.
    #[tactic(auto, using(crate::proofs::RightDeeds::right_more, crate::proofs::RightDeeds::copied_same))]
    pub fn say(&mut self, writer: u32, standing: Standing) -> Result<(), Undone>
        ensures said { OnOk result (self.new ≡ record self.old {
          deeds = self.old.deeds
              ++ Deed.Said writer standing.number standing.order standing.nth ∷ [];
        }) }
        ensures not_now { IsErrOf result Undone.NotNow → may_say standing.order self.old.deeds ≡ false }
        ensures same { OnErr result (self.new ≡ self.old) }
    {
        if !may_say(standing.order, &self.deeds) {
            return Err(Undone::NotNow);
        }
        let said = Deed::Said {
            writer,
            number: standing.number,
            order: standing.order,
            nth: standing.nth,
        };
        match self.deeds.reserve(1) {
            Ok(()) => {}
            Err(_) => return Err(Undone::OutOfMemory),
        }
        let _ = self.deeds.push(said);
        Ok(())
    }

    /// Notes the answer of a writer.
    #[tactic(auto, using(crate::proofs::RightDeeds::right_more, crate::proofs::RightDeeds::copied_same))]
    pub fn hear(&mut self, writer: u32, order: Order, answer: Answer) -> Result<(), Undone>
        ensures heard { OnOk result (self.new ≡ record self.old {
          deeds = self.old.deeds
              ++ Deed.Heard writer order answer ∷ [];
        }) }
        ensures not_now { IsErrOf result Undone.NotNow
            → may_hear self.old.deeds writer order ≡ false }
        ensures same { OnErr result (self.new ≡ self.old) }
    {
        if !may_hear(&self.deeds, writer, order) {
            return Err(Undone::NotNow);
        }
        match self.deeds.reserve(1) {
            Ok(()) => {}
            Err(_) => return Err(Undone::OutOfMemory),
        }
        let _ = self.deeds.push(Deed::Heard {
            writer,
            order,
            answer,
        });
        Ok(())
    }

    /// Notes that a writer is told of the abort.
    #[tactic(auto, using(crate::proofs::RightDeeds::right_more, crate::proofs::RightDeeds::copied_same))]
    pub fn tell_abort(&mut self, writer: u32) -> Result<(), OutOfMemory>
        ensures told { OnOk result (self.new ≡ record self.old {
          deeds = self.old.deeds
              ++ Deed.ToldAbort writer ∷ [];
        }) }
        ensures same { OnErr result (self.new ≡ self.old) }
    {
        match self.deeds.reserve(1) {
            Ok(()) => {}
            Err(_) => return Err(OutOfMemory),
        }
        let _ = self.deeds.push(Deed::ToldAbort { writer });
        Ok(())
    }

    /// Brings the volumes near their files.
    #[tactic(auto, using(crate::proofs::RightDeeds::right_more, crate::proofs::RightDeeds::copied_more))]
    pub fn bring_near(&mut self) -> Result<(), Undone>
        ensures near { OnOk result (self.new ≡ record self.old { deeds = self.old.deeds ++ Deed.Near ∷ [] }) }
        ensures same { OnErr result (self.new ≡ self.old) }
    {
        match self.deeds.reserve(1) {
            Ok(()) => {}
            Err(_) => return Err(Undone::OutOfMemory),
        }
        match self.copier.bring_near() {
            Err(Failed) => return Err(Undone::Failed),
            Ok(()) => {}
        }
        let _ = self.deeds.push(Deed::Near);
        Ok(())
    }

    /// Reads the next part of a volume's file. Whether it was the last is answered.
    #[tactic(auto, using(crate::proofs::RightDeeds::right_more, crate::proofs::RightDeeds::copied_more))]
    pub fn read(&mut self, volume: u32) -> Result<bool, Undone>
        ensures read { IfOk result (λ is_last. self.new ≡ record self.old {
          deeds = self.old.deeds
              ++ Deed.Read volume is_last ∷ [];
        }) }
        ensures not_now { IsErrOf result Undone.NotNow → may_read self.old.writers self.old.deeds volume ≡ false }
        ensures same { OnErr result (self.new ≡ self.old) }
    {
        if !may_read(&self.writers, &self.deeds, volume) {
            return Err(Undone::NotNow);
        }
        match self.deeds.reserve(1) {
            Ok(()) => {}
            Err(_) => return Err(Undone::OutOfMemory),
        }
        let is_last = match self.copier.capture(volume) {
            Err(Failed) => return Err(Undone::Failed),
            Ok(is_last) => is_last,
        };
        let _ = self.deeds.push(Deed::Read { volume, is_last });
        Ok(is_last)
    }

    /// That no file has changed since its first block was read.
    pub fn stood_still(&mut self) -> Result<(), Failed>
        ensures { self.new ≡ self.old }
    {
        self.copier.stood_still()
    }

    /// Keeps what was read as a set, and answers its number.
    #[tactic(auto, using(crate::proofs::RightDeeds::right_more, crate::proofs::RightDeeds::copied_more))]
    pub fn keep(&mut self) -> Result<u32, Undone>
        ensures kept { IfOk result (λ set. self.new ≡ record self.old { deeds = self.old.deeds ++ Deed.Kept set ∷ [] }) }
        ensures not_now { IsErrOf result Undone.NotNow
            → may_keep self.old.writers self.old.volumes self.old.deeds ≡ false }
        ensures same { OnErr result (self.new ≡ self.old) }
    {
        if !may_keep(&self.writers, &self.volumes, &self.deeds) {
            return Err(Undone::NotNow);
        }
        match self.deeds.reserve(1) {
            Ok(()) => {}
            Err(_) => return Err(Undone::OutOfMemory),
        }
        let set = match self.copier.keep() {
            Err(Failed) => return Err(Undone::Failed),
            Ok(set) => set,
        };
        let _ = self.deeds.push(Deed::Kept { set });
        Ok(set)
    }

    /// Tells the writer of this place of the abort, if it was not told.
    #[tactic(auto, using(crate::proofs::RightDeeds::told_next, crate::proofs::RightDeeds::told_end, crate::proofs::RightDeeds::told_on))]
    fn tell_at(&mut self, place: usize) -> Result<(), OutOfMemory>
        ensures writers { self.new.writers ≡ self.old.writers }
        ensures told { OnOk result (all_told (take place self.old.writers) self.old.deeds ≡ true
            → all_told (take (place + 1) self.old.writers) self.new.deeds ≡ true) }
    {
        let Some(writer) = writer_at(&self.writers, place) else {
            return Ok(());
        };
        if self.was_told(writer) {
            return Ok(());
        }
        self.tell_abort(writer)?;
        Ok(())
    }

    /// Ends the backup: if nothing is kept, each writer that takes part is told of the abort.
    pub fn finish(&mut self) -> Result<(), OutOfMemory>
        ensures ended { OnOk result (IsEnded self.new) }
    {
        if self.is_kept() {
            return Ok(());
        }
        for place in 0..self.writers.len() {
            self.tell_at(place)?;
        }
        Ok(())
    }
}
