use crate::op::Op;
use writer_calls::Scripted;
use writer_meta::Metadata;

/// What a call of a builder adds, beside a name.
#[derive(Drop)]
pub(crate) enum Value {
    Area { slots: u32 },
    /// A volume with an area of its own.
    OwnVolume { blocks: u32, slots: u32 },
    /// A volume in the declared area of this number.
    SharedVolume { blocks: u32, area: u32 },
    Writer(Metadata),
    /// A row of the script of the writer with this number.
    Answer { writer: u32, row: Scripted },
    /// A lane begins, which may act as a writer.
    Lane { acts_as: Option<u32> },
    Line(Op),
    /// The line that chooses a component of the writer with this number, by its full name.
    Component { writer: u32 },
}
