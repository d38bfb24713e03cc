ghost use Rattle.std.specs.Prelude.{Some};
ghost use Rattle.component_doc.specs.Refusal.{message_of};

use std::error::Error;
use std::fmt;
use vss_names::OutOfMemory;

/// Why a component is not added to a selection. The first cause in this order is told.
#[derive(Debug, Drop)]
pub enum AddFault {
    /// The writer has no component of that full name, or its metadata are not known.
    NotFound,
    /// The component comes only with others.
    NotSelectable,
    /// It was added before.
    AlreadyExists,
    OutOfMemory,
}

impl fmt::Display for AddFault {
    ghost output = { λ fault. Some (message_of fault) };

    fn fmt<W: fmt::Write>(&self, f: &mut fmt::Formatter<W>) -> fmt::Result {
        f.write_str(match self {
            AddFault::NotFound => "no such component",
            AddFault::NotSelectable => "the component cannot be selected",
            AddFault::AlreadyExists => "the component is selected already",
            AddFault::OutOfMemory => "out of memory",
        })
    }
}

impl Error for AddFault {}

impl From<OutOfMemory> for AddFault {
    ghost use Rattle.std.specs.Prelude.{◌≡◌};
    ghost use Rattle.component_doc.specs.declared.add_fault.AddFault.TheVariants.{OutOfMemory as memory};

    ghost from_gives = { λ _ fault. fault ≡ memory };

    fn from(_error: OutOfMemory) -> AddFault {
        AddFault::OutOfMemory
    }
}
