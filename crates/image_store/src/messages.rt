//! What is said of a call on a store that failed.

ghost use Rattle.std.specs.Prelude.{Some};
ghost use Rattle.image_store.specs.Messages.{cut_message, new_message, open_message, pass_message, show_message};

use crate::cut_fault::CutFault;
use crate::new_fault::NewFault;
use crate::open_fault::OpenFault;
use crate::pass_fault::PassFault;
use crate::show_fault::ShowFault;
use std::error::Error;
use std::fmt;

impl fmt::Display for NewFault {
    ghost output = { λ fault. Some (new_message fault) };

    fn fmt<W: fmt::Write>(&self, f: &mut fmt::Formatter<W>) -> fmt::Result {
        f.write_str(match self {
            NewFault::Names => "the names are none for the volumes",
            NewFault::OutOfMemory => "out of memory",
        })
    }
}

impl Error for NewFault {}

impl fmt::Display for OpenFault {
    ghost output = { λ fault. Some (open_message fault) };

    fn fmt<W: fmt::Write>(&self, f: &mut fmt::Formatter<W>) -> fmt::Result {
        match self {
            OpenFault::Length { found } => write!(f, "length: {found} bytes"),
            OpenFault::Letters => f.write_str("letters: others"),
            OpenFault::Catalog(fault) => write!(f, "catalog: {fault}"),
            OpenFault::Devices { found } => write!(f, "devices: {found}"),
            OpenFault::DoubleName { volume } => write!(
                f,
                "catalog: volume {volume} has the name of an earlier one"
            ),
            OpenFault::Set { volume, set } => write!(
                f,
                "catalog: volume {volume} has an image of set {set}, which was not given"
            ),
            OpenFault::Area(fault) => write!(f, "{fault}"),
            OpenFault::Volumes { found } => write!(f, "header: {found} volumes"),
            OpenFault::Blocks { volume, found } => write!(f, "volume {volume}: {found} blocks"),
            OpenFault::Image { slot, set } => write!(f, "slot {slot}: set {set} has no image"),
            OpenFault::OutOfMemory => f.write_str("out of memory"),
        }
    }
}

impl Error for OpenFault {}

impl fmt::Display for CutFault {
    ghost output = { λ fault. Some (cut_message fault) };

    fn fmt<W: fmt::Write>(&self, f: &mut fmt::Formatter<W>) -> fmt::Result {
        match self {
            CutFault::NoNextSet => f.write_str("there is no next set"),
            CutFault::TooManyImages { volume } => write!(f, "volume {volume} has too many images"),
        }
    }
}

impl Error for CutFault {}

impl fmt::Display for PassFault {
    ghost output = { λ fault. Some (pass_message fault) };

    fn fmt<W: fmt::Write>(&self, f: &mut fmt::Formatter<W>) -> fmt::Result {
        f.write_str(match self {
            PassFault::Input => "the input's device failed",
            PassFault::Volume => "the volume's device failed",
            PassFault::Area => "the diff area's device failed",
        })
    }
}

impl Error for PassFault {}

impl fmt::Display for ShowFault {
    ghost output = { λ fault. Some (show_message fault) };

    fn fmt<W: fmt::Write>(&self, f: &mut fmt::Formatter<W>) -> fmt::Result {
        match self {
            ShowFault::NoSuchImage => f.write_str("no such image"),
            ShowFault::BadLength { found } => write!(f, "length: {found} bytes"),
            ShowFault::Volume => f.write_str("the volume's device failed"),
            ShowFault::Area => f.write_str("the diff area's device failed"),
            ShowFault::Sink => f.write_str("the sink failed"),
        }
    }
}

impl Error for ShowFault {}
