ghost use Rattle.std.specs.Prelude.{◌≡◌, Some};
ghost use Rattle.std.specs.Fmt.{padded};
ghost use Rattle.vss_names.specs.Names.{IsLookUp};
ghost use Rattle.vss_names.specs.Level.{number_of, name_of, level_of_number, level_of_name};

use std::fmt;

/// When a writer freezes beside the others of a set: the front end first, the system last; they thaw the other
/// way round. Members of the SDK's `VSS_APPLICATION_LEVEL`.
#[derive(Clone, Copy, Debug, PartialEq, Eq, Hash)]
pub enum Level {
    System,
    BackEnd,
    FrontEnd,
}

impl Level {
    /// All levels, in the order of their numbers.
    pub const ALL: [Level; 3] = [Level::System, Level::BackEnd, Level::FrontEnd];

    /// The SDK's number.
    pub fn number(self) -> u32
        ensures { result ≡ number_of self }
    {
        match self {
            Level::System => 1,
            Level::BackEnd => 2,
            Level::FrontEnd => 3,
        }
    }

    /// The level with this number, if there is one.
    pub fn of_number(number: u32) -> Option<Level>
        ensures value { result ≡ level_of_number number }
        ensures row { IsLookUp number_of number result }
    {
        Level::ALL
            .iter()
            .find(|level| level.number() == number)
            .copied()
    }

    /// The SDK's name.
    pub fn name(self) -> &'static str
        ensures { result.now ≡ name_of self }
    {
        match self {
            Level::System => "VSS_APP_SYSTEM",
            Level::BackEnd => "VSS_APP_BACK_END",
            Level::FrontEnd => "VSS_APP_FRONT_END",
        }
    }

    /// The level with this name, if there is one.
    pub fn of_name(name: &[u8]) -> Option<Level>
        ensures value { result ≡ level_of_name name.now }
        ensures row { IsLookUp name_of name.now result }
    {
        Level::ALL
            .iter()
            .find(|level| level.name().as_bytes() == name)
            .copied()
    }
}

/// Writes the name.
impl fmt::Display for Level {
    ghost output = { λ level. Some (name_of level) };

    ghost styled_output = { λ level spec. Some (padded spec (name_of level)) };

    fn fmt<W: fmt::Write>(&self, f: &mut fmt::Formatter<W>) -> fmt::Result {
        f.pad(self.name())
    }
}
