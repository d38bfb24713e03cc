ghost use Rattle.std.specs.Prelude.{◌≡◌};
ghost use Rattle.writer_state.specs.WriterState.{code_after, is_ok};

use vss_names::WriterError;

/// What comes of an order that a writer was given.
#[derive(Clone, Copy, Debug, PartialEq, Eq)]
pub enum Said {
    /// The writer has carried the order out.
    Ok,
    /// The writer refuses, for this reason.
    Veto(WriterError),
    /// No answer: none came in time, or none ever will.
    Lost,
}

impl Said {
    /// Whether the writer has carried the order out.
    pub fn is_ok(self) -> bool
        ensures { result ≡ is_ok self }
    {
        match self {
            Said::Ok => true,
            Said::Veto(_) | Said::Lost => false,
        }
    }

    /// The code that the writer keeps, if it fails by this.
    pub fn code(self) -> Option<WriterError>
        ensures { result ≡ code_after self }
    {
        match self {
            Said::Ok => None,
            Said::Veto(code) => Some(code),
            Said::Lost => Some(WriterError::Timeout),
        }
    }
}
