ghost use Rattle.std.specs.Prelude.{◌≡◌};

use crate::answer::Answer;
use crate::scripted::Scripted;
use crate::vss_writer::VssWriter;
use std::marker::Model;
use vss_names::Order;

/// A writer that answers by a script: the first row of that order and nth decides, and where there is none it
/// answers ok. It takes no memory.
#[derive(Debug, Drop)]
pub struct ScriptedWriter {
    script: Vec<Scripted>,
    aborts: u32,
}

impl Model for ScriptedWriter {
    ghost use Rattle.writer_calls.specs.Script.{ScriptState};

    ghost Value = { ScriptState };

    ghost view = { λ w. record { rows = w.script.items; aborts = w.aborts } };
}

impl ScriptedWriter {
    /// A writer with this script that was told of no abort.
    pub fn new(script: Vec<Scripted>) -> ScriptedWriter
        ensures { result ≡ record { rows = script.items; aborts = 0 } }
    {
        ScriptedWriter { script, aborts: 0 }
    }

    /// The number of aborts that the writer was told of. It stands still at 2^32 - 1.
    pub fn aborts(&self) -> u32
        ensures { result ≡ self.now.aborts }
    {
        self.aborts
    }
}

impl VssWriter for ScriptedWriter {
    ghost use Rattle.std.specs.Prelude.{◌≡◌};
    ghost use Rattle.writer_calls.specs.Script.{scripted_answer};
    ghost use Rattle.writer_state.specs.WriterState.{one_more};

    ghost may_answer = { λ w order nth answer. answer ≡ scripted_answer w.rows order nth };

    ghost aborts_told = { λ w. w.aborts };

    fn on_order(&mut self, order: Order, nth: u32) -> Option<Answer>
        ensures answer { result ≡ scripted_answer self.old.rows order nth }
        ensures same_aborts { self.new.aborts ≡ self.old.aborts }
        ensures same_script { self.new.rows ≡ self.old.rows }
    {
        match Scripted::first_for(&self.script, order, nth) {
            Some(row) => row.answer,
            None => Some(Answer::Ok),
        }
    }

    fn on_abort(&mut self)
        ensures aborts { self.new.aborts ≡ one_more self.old.aborts }
        ensures same_script { self.new.rows ≡ self.old.rows }
    {
        self.aborts = self.aborts.saturating_add(1);
    }
}
