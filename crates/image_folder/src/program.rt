use std::alloc::Global;
use std::fmt;

/// The name of a program that works on a folder, which is before each line that it says to the standard error.
#[derive(Clone, Copy)]
pub enum ProgramName {
    Images,
    Backup,
}

impl fmt::Display for ProgramName {
    fn fmt<W: fmt::Write>(&self, f: &mut fmt::Formatter<W>) -> fmt::Result {
        f.write_str(match self {
            ProgramName::Images => "images",
            ProgramName::Backup => "backup",
        })
    }
}

/// The program that runs: its runtime and its name.
#[derive(Clone, Copy)]
pub struct Program {
    pub rt: HostRuntime,
    pub name: ProgramName,
}

impl Program {
    /// The allocator.
    pub fn alloc(&self) -> Global {
        self.rt.alloc()
    }
}
