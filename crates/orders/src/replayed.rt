use scenario::Reason;
use vss_names::Text;

/// How a replay of a report ended.
#[derive(Debug, Drop)]
pub enum Replayed {
    /// The text is the report of a run.
    Same,
    /// This is the first line, from 1, that is another than that of the replayed run, and that run's line in its place. It is empty where
    /// the report has no such line.
    Differs { line: u32, wanted: Text },
    /// The text is no scenario: its first bad line, and why it is refused.
    ScenarioRefused { line: u32, reason: Reason },
    /// A device could not be made, or could not be read for the closing lines.
    DeviceFault,
    OutOfMemory,
}
