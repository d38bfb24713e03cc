use crate::file_call::FileCall;
use std::{fmt, io};

/// The last failed call on the file of a device: which file, which call, and the system's reason.
#[derive(Debug, Drop)]
pub struct FileFault {
    pub path: String,
    pub call: FileCall,
    pub error: io::Error,
}

impl fmt::Display for FileFault {
    fn fmt<W: fmt::Write>(&self, f: &mut fmt::Formatter<W>) -> fmt::Result {
        write!(f, "{} {}: {}", self.path, self.call, self.error)
    }
}
