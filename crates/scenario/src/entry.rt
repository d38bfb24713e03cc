use crate::area_row::AreaRow;
use crate::group_row::GroupRow;
use crate::lane_line::LaneLine;
use crate::span::Span;
use crate::volume_row::VolumeRow;
use writer_calls::Scripted;
use writer_meta::Metadata;

/// What a line of the text says.
#[derive(Drop)]
pub(crate) enum Entry {
    /// Nothing: the line is skipped.
    Skipped,
    /// The `scenario` line.
    Opening,
    /// A declared area.
    Area(GroupRow),
    /// A volume with an area of its own.
    OwnVolume(VolumeRow),
    /// A volume in the declared area of this number, which stands so.
    SharedVolume(VolumeRow, u32, AreaRow),
    /// A writer by its name, with what it tells of itself.
    Writer(Span, Metadata),
    /// A row of the script of the writer with this number.
    Answer(u32, Scripted),
    /// A lane begins, and acts as the writer with this number.
    Lane(Span, Option<u32>),
    /// A line of the lane at hand.
    Line(LaneLine),
}
