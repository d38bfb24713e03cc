//! What is said of a call on an area that failed.

ghost use Rattle.std.specs.Prelude.{Some};
ghost use Rattle.diff_area.specs.Refusals.{field_name, message_of};

use crate::area_fault::AreaFault;
use crate::header_field::HeaderField;
use std::error::Error;
use std::fmt;

impl fmt::Display for HeaderField {
    ghost output = { λ field. Some (field_name field) };

    fn fmt<W: fmt::Write>(&self, f: &mut fmt::Formatter<W>) -> fmt::Result {
        f.write_str(match self {
            HeaderField::Magic => "Magic",
            HeaderField::Layout => "Layout",
            HeaderField::Slots => "Slots",
            HeaderField::Used => "Used",
            HeaderField::Volumes => "Volumes",
            HeaderField::Blocks => "Blocks",
            HeaderField::Rest => "Rest",
        })
    }
}

impl fmt::Display for AreaFault {
    ghost output = { λ fault. Some (message_of fault) };

    fn fmt<W: fmt::Write>(&self, f: &mut fmt::Formatter<W>) -> fmt::Result {
        match self {
            AreaFault::Device => f.write_str("the device failed"),
            AreaFault::BadHeader { field, found } => {
                write!(f, "the header has {found} in field {field}")
            }
            AreaFault::BadRecord {
                slot,
                set,
                block,
                volume,
            } => {
                write!(
                    f,
                    "slot {slot} has set {set}, block {block}, volume {volume}"
                )
            }
            AreaFault::OutOfMemory => f.write_str("out of memory"),
        }
    }
}

impl Error for AreaFault {}
