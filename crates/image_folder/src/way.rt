/// How a folder is opened.
#[derive(Clone, Copy)]
pub enum Way {
    /// Beside others who read, and all its files are read.
    Checking,
    /// Beside others who read.
    Showing,
    /// Beside others who read: what is there is compared, and not shown.
    Comparing,
    /// Beside others who read, and beside one who writes: images alone are read.
    Beside,
    /// Alone.
    Writing,
}
