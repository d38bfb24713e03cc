ghost use Rattle.std.specs.Prelude.{Some};
ghost use Rattle.component_doc.specs.Refusal.{message_of_text};

use std::error::Error;
use std::fmt;
use vss_names::OutOfMemory;

/// Why a text is no component document.
#[derive(Debug, Drop)]
pub enum DocFault {
    /// The text is no JSON, or nests deeper than 127 levels.
    NotJson,
    /// The text is JSON, but not, byte for byte, the document of a selection over these metadata.
    NotDocument,
    OutOfMemory,
}

impl fmt::Display for DocFault {
    ghost output = { λ fault. Some (message_of_text fault) };

    fn fmt<W: fmt::Write>(&self, f: &mut fmt::Formatter<W>) -> fmt::Result {
        f.write_str(match self {
            DocFault::NotJson => "no JSON",
            DocFault::NotDocument => "no component document",
            DocFault::OutOfMemory => "out of memory",
        })
    }
}

impl Error for DocFault {}

impl From<OutOfMemory> for DocFault {
    ghost use Rattle.std.specs.Prelude.{◌≡◌};
    ghost use Rattle.component_doc.specs.declared.doc_fault.DocFault.TheVariants.{OutOfMemory as memory};

    ghost from_gives = { λ _ fault. fault ≡ memory };

    fn from(_error: OutOfMemory) -> DocFault {
        DocFault::OutOfMemory
    }
}
