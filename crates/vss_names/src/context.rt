ghost use Rattle.std.specs.Prelude.{◌≡◌, Some};
ghost use Rattle.std.specs.Fmt.{padded};
ghost use Rattle.vss_names.specs.Names.{IsLookUp};
ghost use Rattle.vss_names.specs.Context.{number_of, name_of, context_of_number, context_of_name};

use std::fmt;

/// What a session makes snapshots for: members of the SDK's `VSS_SNAPSHOT_CONTEXT`.
#[derive(Clone, Copy, Debug, PartialEq, Eq, Hash)]
pub enum Context {
    /// With writers; the images go when the session ends.
    Backup,
    /// With writers; the images stay.
    AppRollback,
    /// Without writers; the images stay.
    NasRollback,
}

impl Context {
    /// All contexts, in the order of their numbers.
    pub const ALL: [Context; 3] = [Context::Backup, Context::AppRollback, Context::NasRollback];

    /// The SDK's number.
    pub fn number(self) -> u32
        ensures { result ≡ number_of self }
    {
        match self {
            Context::Backup => 0,
            Context::AppRollback => 9,
            Context::NasRollback => 25,
        }
    }

    /// The context with this number, if there is one.
    pub fn of_number(number: u32) -> Option<Context>
        ensures value { result ≡ context_of_number number }
        ensures row { IsLookUp number_of number result }
    {
        Context::ALL
            .iter()
            .find(|context| context.number() == number)
            .copied()
    }

    /// The SDK's name.
    pub fn name(self) -> &'static str
        ensures { result.now ≡ name_of self }
    {
        match self {
            Context::Backup => "VSS_CTX_BACKUP",
            Context::AppRollback => "VSS_CTX_APP_ROLLBACK",
            Context::NasRollback => "VSS_CTX_NAS_ROLLBACK",
        }
    }

    /// The context with this name, if there is one.
    pub fn of_name(name: &[u8]) -> Option<Context>
        ensures value { result ≡ context_of_name name.now }
        ensures row { IsLookUp name_of name.now result }
    {
        Context::ALL
            .iter()
            .find(|context| context.name().as_bytes() == name)
            .copied()
    }
}

/// Writes the name.
impl fmt::Display for Context {
    ghost output = { λ context. Some (name_of context) };

    ghost styled_output = { λ context spec. Some (padded spec (name_of context)) };

    fn fmt<W: fmt::Write>(&self, f: &mut fmt::Formatter<W>) -> fmt::Result {
        f.pad(self.name())
    }
}
