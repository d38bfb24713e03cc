use crate::task::Task;

/// What the words of a command ask for.
#[derive(Clone, Copy, Debug, PartialEq, Eq)]
pub struct Command<'a> {
    pub task: Task,
    /// The folder in which the devices are files, by its name; without one they are in memory.
    pub folder: Option<&'a str>,
}
