//! What is said of a call on a volume that failed.

ghost use Rattle.std.specs.Prelude.{Some};
ghost use Rattle.cow_volume.specs.Calls.{cause_message, image_message, write_message, revert_message, resume_message};

use crate::cause::Cause;
use crate::image_fault::ImageFault;
use crate::resume_fault::ResumeFault;
use crate::revert_fault::RevertFault;
use crate::write_fault::WriteFault;
use std::error::Error;
use std::fmt;

impl fmt::Display for Cause {
    ghost output = { λ cause. Some (cause_message cause) };

    fn fmt<W: fmt::Write>(&self, f: &mut fmt::Formatter<W>) -> fmt::Result {
        f.write_str(match self {
            Cause::NoSuchBlock => "no such block",
            Cause::Volume => "the volume's device failed",
            Cause::Area => "the diff area's device failed",
        })
    }
}

impl Error for Cause {}

impl fmt::Display for ImageFault {
    ghost output = { λ fault. Some (image_message fault) };

    fn fmt<W: fmt::Write>(&self, f: &mut fmt::Formatter<W>) -> fmt::Result {
        f.write_str(match self {
            ImageFault::NoSuchImage => "no such image",
            ImageFault::NoSuchBlock => "no such block",
            ImageFault::Volume => "the volume's device failed",
            ImageFault::Area => "the diff area's device failed",
        })
    }
}

impl Error for ImageFault {}

impl fmt::Display for WriteFault {
    ghost output = { λ fault. Some (write_message fault) };

    fn fmt<W: fmt::Write>(&self, f: &mut fmt::Formatter<W>) -> fmt::Result {
        match self.evicted_up_to {
            0 => write!(f, "{}", self.cause),
            set => write!(f, "{}, and images up to set {set} went", self.cause),
        }
    }
}

impl Error for WriteFault {}

impl fmt::Display for RevertFault {
    ghost output = { λ fault. Some (revert_message fault) };

    fn fmt<W: fmt::Write>(&self, f: &mut fmt::Formatter<W>) -> fmt::Result {
        match self {
            RevertFault::NoSuchImage => f.write_str("no such image"),
            RevertFault::Fault { restored, cause } => {
                write!(f, "{cause}, after {restored} blocks were restored")
            }
        }
    }
}

impl Error for RevertFault {}

impl fmt::Display for ResumeFault {
    ghost output = { λ fault. Some (resume_message fault) };

    fn fmt<W: fmt::Write>(&self, f: &mut fmt::Formatter<W>) -> fmt::Result {
        match self {
            ResumeFault::NoImage { slot, set } => {
                write!(f, "slot {slot} is of set {set}, which has no image")
            }
            ResumeFault::OutOfMemory => f.write_str("out of memory"),
        }
    }
}

impl Error for ResumeFault {}
