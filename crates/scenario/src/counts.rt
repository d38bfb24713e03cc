ghost use Rattle.std.specs.Prelude.{◌≡◌, ◌<◌, ◌+◌, true};
ghost use Rattle.scenario.specs.Bounds.{begins_agenda};

use crate::op::Op;

/// How many there are so far of what is limited.
#[derive(Clone, Copy)]
pub(crate) struct Counts {
    /// The lines of all lanes.
    pub lines: usize,
    /// Those of them that may begin an agenda.
    pub agenda_lines: usize,
    /// The `answer` lines.
    pub answers: usize,
}

pub(crate) fn begins_agenda(op: Op) -> bool
    ensures { result ≡ begins_agenda op }
{
    match op {
        Op::Gather | Op::Prepare | Op::Snapshot | Op::Complete => true,
        _ => false,
    }
}

impl Counts {
    ghost use Rattle.scenario.specs.Drafts.{agendas_with};

    /// The counts with one line more.
    pub(crate) fn with_line(self, op: Op) -> Counts
        requires lines { self.lines < 100000 }
        requires agendas { begins_agenda op ≡ true → self.agenda_lines < 2000 }
        ensures { result ≡ record self { lines = self.lines + 1; agenda_lines = agendas_with self.agenda_lines op } }
    {
        let agenda_lines = if begins_agenda(op) {
            self.agenda_lines + 1
        } else {
            self.agenda_lines
        };
        Counts {
            lines: self.lines + 1,
            agenda_lines,
            answers: self.answers,
        }
    }
}
