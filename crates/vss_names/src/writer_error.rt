ghost use Rattle.std.specs.Prelude.{◌≡◌, Some};
ghost use Rattle.std.specs.Fmt.{padded};
ghost use Rattle.vss_names.specs.Names.{IsLookUp};
ghost use Rattle.vss_names.specs.WriterError.{number_of, name_of, error_of_number, error_of_name};

use std::fmt;

/// Why a writer vetoed an order: the SDK's codes `VSS_E_WRITERERROR_*`.
#[derive(Clone, Copy, Debug, PartialEq, Eq, Hash)]
pub enum WriterError {
    /// The snapshot lacks a volume that the writer needs.
    InconsistentSnapshot,
    /// The writer ran out of memory or of another resource.
    OutOfResources,
    /// The time between freeze and thaw ran out.
    Timeout,
    /// The error may be gone at another try.
    Retryable,
    /// Another try would meet the same error.
    NonRetryable,
}

impl WriterError {
    /// All errors, in the order of their numbers.
    pub const ALL: [WriterError; 5] = [
        WriterError::InconsistentSnapshot,
        WriterError::OutOfResources,
        WriterError::Timeout,
        WriterError::Retryable,
        WriterError::NonRetryable,
    ];

    /// The SDK's number.
    pub fn number(self) -> u32
        ensures { result ≡ number_of self }
    {
        match self {
            WriterError::InconsistentSnapshot => 0x8004_23F0,
            WriterError::OutOfResources => 0x8004_23F1,
            WriterError::Timeout => 0x8004_23F2,
            WriterError::Retryable => 0x8004_23F3,
            WriterError::NonRetryable => 0x8004_23F4,
        }
    }

    /// The error with this number, if there is one.
    pub fn of_number(number: u32) -> Option<WriterError>
        ensures value { result ≡ error_of_number number }
        ensures row { IsLookUp number_of number result }
    {
        WriterError::ALL
            .iter()
            .find(|error| error.number() == number)
            .copied()
    }

    /// The SDK's name.
    pub fn name(self) -> &'static str
        ensures { result.now ≡ name_of self }
    {
        match self {
            WriterError::InconsistentSnapshot => "VSS_E_WRITERERROR_INCONSISTENTSNAPSHOT",
            WriterError::OutOfResources => "VSS_E_WRITERERROR_OUTOFRESOURCES",
            WriterError::Timeout => "VSS_E_WRITERERROR_TIMEOUT",
            WriterError::Retryable => "VSS_E_WRITERERROR_RETRYABLE",
            WriterError::NonRetryable => "VSS_E_WRITERERROR_NONRETRYABLE",
        }
    }

    /// The error with this name, if there is one.
    pub fn of_name(name: &[u8]) -> Option<WriterError>
        ensures value { result ≡ error_of_name name.now }
        ensures row { IsLookUp name_of name.now result }
    {
        WriterError::ALL
            .iter()
            .find(|error| error.name().as_bytes() == name)
            .copied()
    }
}

/// Writes the name.
impl fmt::Display for WriterError {
    ghost output = { λ error. Some (name_of error) };

    ghost styled_output = { λ error spec. Some (padded spec (name_of error)) };

    fn fmt<W: fmt::Write>(&self, f: &mut fmt::Formatter<W>) -> fmt::Result {
        f.pad(self.name())
    }
}
