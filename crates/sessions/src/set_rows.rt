ghost use Rattle.std.specs.Prelude.{◌≡◌, ◌+◌, ◌++◌, ◌∷◌, ◌==◌, [], length, map, find, option_map, OnOk, OnErr, None};
ghost use Rattle.vss_model.specs.Steps.{row_settled, with_cut};
ghost use Rattle.vss_model.specs.Sessions.{new_set};
ghost use Rattle.vss_model.specs.State.{SetRow};
ghost use Rattle.sessions.specs.Sets.{current_of, facts_of, is_complete_in, running_changed, running_in};

use crate::set_entry::SetEntry;
use crate::set_facts::SetFacts;
use std::alloc::Global;
use std::marker::Model;
use vss_names::{Context, OutOfMemory, SetOutcome};

/// The sets that were started, by their numbers from 1 on. Only the newest can be in progress.
#[derive(Drop)]
pub(crate) struct SetRows {
    rows: Vec<SetEntry>,
}

impl Model for SetRows {
    ghost use Rattle.std.specs.Prelude.{List};
    ghost use Rattle.vss_model.specs.State.{SetRow};
    ghost use Rattle.sessions.specs.Sets.{AreSets};

    ghost Value = { List SetRow };

    ghost view = { λ a. a.rows.items };

    ghost invariant = { λ a. AreSets a.rows.items };
}

impl SetRows {
    /// No set was started.
    pub(crate) fn new(alloc: Global) -> SetRows
        ensures { result ≡ [] }
    {
        SetRows {
            rows: Vec::new(alloc),
        }
    }

    /// The set in progress.
    fn in_progress(&self) -> Option<&SetEntry>
        ensures { option_map (λ set. set.now) result ≡ running_in self.now }
    {
        let count = self.rows.len();
        if count == 0 {
            return None;
        }
        let newest = &self.rows[count - 1];
        if newest.is_running() {
            Some(newest)
        } else {
            None
        }
    }

    /// The number of the set in progress.
    pub(crate) fn current(&self) -> Option<u32>
        ensures { result ≡ current_of self.now }
    {
        let set = self.in_progress()?;
        Some(set.number())
    }

    /// The facts of a set.
    pub(crate) fn facts(&self, set: u32) -> Option<SetFacts>
        ensures { result ≡ option_map facts_of (find (λ (r : SetRow). r.number == set) self.now) }
    {
        let count = self.rows.len();
        if set == 0 {
            return None;
        }
        let at = set as usize - 1;
        if at >= count {
            return None;
        }
        let row = &self.rows[at];
        Some(row.facts())
    }

    /// Whether the set is complete.
    pub(crate) fn is_complete(&self, set: u32) -> bool
        ensures { result ≡ is_complete_in self.now set }
    {
        let _rows = &self.rows;
        match self.facts(set) {
            None => false,
            Some(facts) => facts.complete,
        }
    }

    /// A set is started. Its number is the next one.
    pub(crate) fn start(&mut self, number: u32, context: Context) -> Result<(), OutOfMemory>
        requires number { number ≡ length self.old + 1 }
        requires rest { running_in self.old ≡ None }
        ensures started { OnOk result (self.new ≡ self.old ++ new_set number context ∷ []) }
        ensures unchanged { OnErr result (self.new ≡ self.old) }
    {
        self.rows.push(SetEntry::new(number, context))?;
        Ok(())
    }

    /// The set in progress comes to this.
    pub(crate) fn settle(&mut self, outcome: SetOutcome)
        ensures { self.new ≡ map (row_settled outcome) self.old }
    {
        let count = self.rows.len();
        if count > 0 {
            let newest = &mut self.rows[count - 1];
            newest.settle(outcome);
        }
    }

    /// The images of the set in progress are cut at the tick `now`.
    pub(crate) fn cut(&mut self, now: u64)
        ensures { self.new ≡ map (running_changed (with_cut now)) self.old }
    {
        let count = self.rows.len();
        if count > 0 {
            let newest = &mut self.rows[count - 1];
            newest.cut(now);
        }
    }
}
