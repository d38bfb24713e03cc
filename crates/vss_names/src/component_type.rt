ghost use Rattle.std.specs.Prelude.{◌≡◌, Some};
ghost use Rattle.std.specs.Fmt.{padded};
ghost use Rattle.vss_names.specs.Names.{IsLookUp};
ghost use Rattle.vss_names.specs.ComponentType.{number_of, name_of, component_type_of_number, component_type_of_name};

use std::fmt;

/// What a component of a writer is: members of the SDK's `VSS_COMPONENT_TYPE`.
#[derive(Clone, Copy, Debug, PartialEq, Eq, Hash)]
pub enum ComponentType {
    Database,
    FileGroup,
}

impl ComponentType {
    /// All component types, in the order of their numbers.
    pub const ALL: [ComponentType; 2] = [ComponentType::Database, ComponentType::FileGroup];

    /// The SDK's number.
    pub fn number(self) -> u32
        ensures { result ≡ number_of self }
    {
        match self {
            ComponentType::Database => 1,
            ComponentType::FileGroup => 2,
        }
    }

    /// The component type with this number, if there is one.
    pub fn of_number(number: u32) -> Option<ComponentType>
        ensures value { result ≡ component_type_of_number number }
        ensures row { IsLookUp number_of number result }
    {
        ComponentType::ALL
            .iter()
            .find(|component_type| component_type.number() == number)
            .copied()
    }

    /// The SDK's name.
    pub fn name(self) -> &'static str
        ensures { result.now ≡ name_of self }
    {
        match self {
            ComponentType::Database => "VSS_CT_DATABASE",
            ComponentType::FileGroup => "VSS_CT_FILEGROUP",
        }
    }

    /// The component type with this name, if there is one.
    pub fn of_name(name: &[u8]) -> Option<ComponentType>
        ensures value { result ≡ component_type_of_name name.now }
        ensures row { IsLookUp name_of name.now result }
    {
        ComponentType::ALL
            .iter()
            .find(|component_type| component_type.name().as_bytes() == name)
            .copied()
    }
}

/// Writes the name.
impl fmt::Display for ComponentType {
    ghost output = { λ component_type. Some (name_of component_type) };

    ghost styled_output = { λ component_type spec. Some (padded spec (name_of component_type)) };

    fn fmt<W: fmt::Write>(&self, f: &mut fmt::Formatter<W>) -> fmt::Result {
        f.pad(self.name())
    }
}
