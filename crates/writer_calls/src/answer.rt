ghost use Rattle.std.specs.Prelude.{◌≡◌};
ghost use Rattle.writer_calls.specs.Script.{said_of};

use vss_names::WriterError;
use writer_state::Said;

/// A writer's answer to an order. An order that is never answered is lost, which is no answer.
#[derive(Clone, Copy, Debug, PartialEq, Eq)]
pub enum Answer {
    Ok,
    Veto(WriterError),
}

impl Answer {
    /// The answer as the log of an agenda has it.
    pub fn said(self) -> Said
        ensures { result ≡ said_of self }
    {
        match self {
            Answer::Ok => Said::Ok,
            Answer::Veto(error) => Said::Veto(error),
        }
    }
}
