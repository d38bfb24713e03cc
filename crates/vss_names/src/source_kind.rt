ghost use Rattle.std.specs.Prelude.{◌≡◌, Some};
ghost use Rattle.std.specs.Fmt.{padded};
ghost use Rattle.vss_names.specs.Names.{IsLookUp};
ghost use Rattle.vss_names.specs.SourceKind.{number_of, name_of, source_kind_of_number, source_kind_of_name};

use std::fmt;

/// What kind of data source a writer looks after: members of the SDK's `VSS_SOURCE_TYPE`.
#[derive(Clone, Copy, Debug, PartialEq, Eq, Hash)]
pub enum SourceKind {
    /// A database with transactions.
    TransactedDb,
    /// A database without transactions.
    NonTransactedDb,
    Other,
}

impl SourceKind {
    /// All source kinds, in the order of their numbers.
    pub const ALL: [SourceKind; 3] = [
        SourceKind::TransactedDb,
        SourceKind::NonTransactedDb,
        SourceKind::Other,
    ];

    /// The SDK's number.
    pub fn number(self) -> u32
        ensures { result ≡ number_of self }
    {
        match self {
            SourceKind::TransactedDb => 1,
            SourceKind::NonTransactedDb => 2,
            SourceKind::Other => 3,
        }
    }

    /// The source kind with this number, if there is one.
    pub fn of_number(number: u32) -> Option<SourceKind>
        ensures value { result ≡ source_kind_of_number number }
        ensures row { IsLookUp number_of number result }
    {
        SourceKind::ALL
            .iter()
            .find(|source_kind| source_kind.number() == number)
            .copied()
    }

    /// The SDK's name.
    pub fn name(self) -> &'static str
        ensures { result.now ≡ name_of self }
    {
        match self {
            SourceKind::TransactedDb => "VSS_ST_TRANSACTEDDB",
            SourceKind::NonTransactedDb => "VSS_ST_NONTRANSACTEDDB",
            SourceKind::Other => "VSS_ST_OTHER",
        }
    }

    /// The source kind with this name, if there is one.
    pub fn of_name(name: &[u8]) -> Option<SourceKind>
        ensures value { result ≡ source_kind_of_name name.now }
        ensures row { IsLookUp name_of name.now result }
    {
        SourceKind::ALL
            .iter()
            .find(|source_kind| source_kind.name().as_bytes() == name)
            .copied()
    }
}

/// Writes the name.
impl fmt::Display for SourceKind {
    ghost output = { λ source_kind. Some (name_of source_kind) };

    ghost styled_output = { λ source_kind spec. Some (padded spec (name_of source_kind)) };

    fn fmt<W: fmt::Write>(&self, f: &mut fmt::Formatter<W>) -> fmt::Result {
        f.pad(self.name())
    }
}
