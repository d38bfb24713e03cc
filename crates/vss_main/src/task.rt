/// What the program is to do.
#[derive(Clone, Copy, Debug, PartialEq, Eq)]
pub enum Task {
    /// Run a scenario from the standard input.
    Run,
    /// Run the generated scenario of a number.
    Generate { number: u32 },
    /// List an area from the standard input.
    Inspect,
}
