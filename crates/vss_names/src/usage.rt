ghost use Rattle.std.specs.Prelude.{◌≡◌, Some};
ghost use Rattle.std.specs.Fmt.{padded};
ghost use Rattle.vss_names.specs.Names.{IsLookUp};
ghost use Rattle.vss_names.specs.Usage.{number_of, name_of, usage_of_number, usage_of_name};

use std::fmt;

/// What a writer's data is used for: members of the SDK's `VSS_USAGE_TYPE`.
#[derive(Clone, Copy, Debug, PartialEq, Eq, Hash)]
pub enum Usage {
    BootableSystemState,
    SystemService,
    UserData,
    Other,
}

impl Usage {
    /// All usages, in the order of their numbers.
    pub const ALL: [Usage; 4] = [
        Usage::BootableSystemState,
        Usage::SystemService,
        Usage::UserData,
        Usage::Other,
    ];

    /// The SDK's number.
    pub fn number(self) -> u32
        ensures { result ≡ number_of self }
    {
        match self {
            Usage::BootableSystemState => 1,
            Usage::SystemService => 2,
            Usage::UserData => 3,
            Usage::Other => 4,
        }
    }

    /// The usage with this number, if there is one.
    pub fn of_number(number: u32) -> Option<Usage>
        ensures value { result ≡ usage_of_number number }
        ensures row { IsLookUp number_of number result }
    {
        Usage::ALL
            .iter()
            .find(|usage| usage.number() == number)
            .copied()
    }

    /// The SDK's name.
    pub fn name(self) -> &'static str
        ensures { result.now ≡ name_of self }
    {
        match self {
            Usage::BootableSystemState => "VSS_UT_BOOTABLESYSTEMSTATE",
            Usage::SystemService => "VSS_UT_SYSTEMSERVICE",
            Usage::UserData => "VSS_UT_USERDATA",
            Usage::Other => "VSS_UT_OTHER",
        }
    }

    /// The usage with this name, if there is one.
    pub fn of_name(name: &[u8]) -> Option<Usage>
        ensures value { result ≡ usage_of_name name.now }
        ensures row { IsLookUp name_of name.now result }
    {
        Usage::ALL
            .iter()
            .find(|usage| usage.name().as_bytes() == name)
            .copied()
    }
}

/// Writes the name.
impl fmt::Display for Usage {
    ghost output = { λ usage. Some (name_of usage) };

    ghost styled_output = { λ usage spec. Some (padded spec (name_of usage)) };

    fn fmt<W: fmt::Write>(&self, f: &mut fmt::Formatter<W>) -> fmt::Result {
        f.pad(self.name())
    }
}
