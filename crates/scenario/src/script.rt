ghost use Rattle.std.specs.Prelude.{◌≡◌, ◌≤◌, ◌<◌, ◌++◌, ◌∷◌, [], None, find, OnErr, OnOk};
ghost use Rattle.set_agenda.specs.Agenda.{order_code};
ghost use Rattle.writer_calls.specs.Script.{is_row_for, scripted_answer};
ghost use Rattle.scenario.specs.Keys.{key_of};

use indexmap::IndexMap;
use std::alloc::Global;
use std::marker::Model;
use vss_names::{Order, OutOfMemory};
use writer_calls::{Answer, Scripted};

/// What a writer answers, in order of the `answer` lines. The row for an order is found in a table.
#[derive(Drop)]
pub struct Script {
    rows: IndexMap<u64, Scripted>,
}

impl Model for Script {
    ghost use Rattle.std.specs.Prelude.{List, All, map};
    ghost use Rattle.writer_calls.specs.declared.scripted.Scripted.{Scripted as Row};
    ghost use Rattle.scenario.specs.Keys.{row_in, IsKeyed};

    ghost Value = { List Row };

    ghost view = { λ s. map row_in s.rows.entries };

    ghost invariant = { λ s. All IsKeyed s.rows.entries };
}

/// The place of a kind of order among all kinds.
fn order_code(order: Order) -> u64
    ensures value { result ≡ order_code order }
    ensures few { result < 7 }
{
    match order {
        Order::Identify => 0,
        Order::PrepareBackup => 1,
        Order::PrepareSnapshot => 2,
        Order::Freeze => 3,
        Order::Thaw => 4,
        Order::PostSnapshot => 5,
        Order::BackupComplete => 6,
    }
}

/// The key of the row for an order.
fn key_of(order: Order, nth: u32) -> u64
    ensures { result ≡ key_of order nth }
{
    order_code(order) * 4_294_967_296 + u64::from(nth)
}

impl Script {
    /// No rows, which has taken no memory.
    pub(crate) fn new(alloc: Global) -> Script
        ensures { result ≡ [] }
    {
        Script {
            rows: IndexMap::new(alloc),
        }
    }

    /// The row for the `nth` order of this kind, if there is one.
    pub(crate) fn row_for(&self, order: Order, nth: u32) -> Option<Scripted>
        ensures { result ≡ find (is_row_for order nth) self.now }
    {
        self.rows.get(&key_of(order, nth)).copied()
    }

    /// The answer to the `nth` order of this kind: ok where no row speaks of it; none is a lost answer.
    pub(crate) fn answer(&self, order: Order, nth: u32) -> Option<Answer>
        ensures { result ≡ scripted_answer self.now order nth }
    {
        match self.row_for(order, nth) {
            Some(row) => row.answer,
            None => Some(Answer::Ok),
        }
    }

    /// One row more, for an order that no row speaks of.
    pub(crate) fn add(&mut self, row: Scripted) -> Result<(), OutOfMemory>
        requires new { find (is_row_for row.order row.nth) self.old ≡ None }
        requires nth { row.nth ≤ 2000 }
        ensures added { OnOk result (self.new ≡ self.old ++ row ∷ []) }
        ensures unchanged { OnErr result (self.new ≡ self.old) }
    {
        self.rows.insert(key_of(row.order, row.nth), row)?;
        Ok(())
    }
}
