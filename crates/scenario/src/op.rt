ghost use Rattle.std.specs.Prelude.{◌≡◌};
ghost use Rattle.scenario.specs.Calls.{call_of, line_of};

use crate::line::Line;
use crate::span::Span;
use block_data::Payload;
use requestor::SessionCall;

/// A line of a lane. Volumes and writers are named by their numbers, in order of declaration.
#[derive(Clone, Copy, Debug)]
pub enum Op {
    /// Writes a block full of one byte.
    WriteFill {
        volume: u32,
        block: u32,
        byte: u8,
    },
    /// Writes a block full of one number, as eight little-endian bytes over and over.
    WriteStamp {
        volume: u32,
        block: u32,
        number: u64,
    },
    Read {
        volume: u32,
        block: u32,
    },
    /// The digest of the image of a set on a volume.
    ImageDigest {
        set: u32,
        volume: u32,
    },
    ImageBlock {
        set: u32,
        volume: u32,
        block: u32,
    },
    /// The sets whose images are kept on a volume.
    Query {
        volume: u32,
    },
    Properties {
        set: u32,
        volume: u32,
    },
    Revert {
        set: u32,
        volume: u32,
    },
    DeleteSet {
        set: u32,
    },
    DeleteImage {
        set: u32,
        volume: u32,
    },
    /// The clock goes on by so many ticks of one millisecond.
    Tick {
        ticks: u32,
    },
    Begin {
        context: u32,
        all: bool,
    },
    /// Disables the class of a writer.
    Disable {
        writer: u32,
    },
    Gather,
    /// Chooses a component by its full name.
    Component {
        writer: u32,
        full: Span,
    },
    Document,
    Start,
    Add {
        volume: u32,
    },
    Prepare,
    Snapshot,
    Await,
    Status,
    Complete,
    Abort,
    End,
}

impl Op {
    /// What the line does. It is the only place that goes through all lines.
    pub fn line(self) -> Line
        ensures { result ≡ line_of self }
    {
        match self {
            Op::WriteFill {
                volume,
                block,
                byte,
            } => Line::Writes {
                volume,
                block,
                payload: Payload::Fill(byte),
            },
            Op::WriteStamp {
                volume,
                block,
                number,
            } => Line::Writes {
                volume,
                block,
                payload: Payload::Stamp(number),
            },
            Op::Read { volume, block } => Line::Reads { volume, block },
            Op::ImageDigest { set, volume } => Line::ShowsImage { set, volume },
            Op::ImageBlock { set, volume, block } => Line::ShowsBlock { set, volume, block },
            Op::Query { volume } => Line::ShowsSets { volume },
            Op::Properties { set, volume } => Line::ShowsProperties { set, volume },
            Op::Revert { set, volume } => Line::Reverts { set, volume },
            Op::DeleteSet { set } => Line::DeletesSet { set },
            Op::DeleteImage { set, volume } => Line::DeletesImage { set, volume },
            Op::Tick { ticks } => Line::Ticks { ticks },
            Op::Begin { context, all } => Line::Calls(SessionCall::Begin { context, all }),
            Op::Disable { .. } => Line::Calls(SessionCall::Disable),
            Op::Gather => Line::Calls(SessionCall::Gather),
            Op::Component { .. } => Line::Calls(SessionCall::Component),
            Op::Document => Line::Calls(SessionCall::Document),
            Op::Start => Line::Calls(SessionCall::Start),
            Op::Add { .. } => Line::Calls(SessionCall::Add),
            Op::Prepare => Line::Calls(SessionCall::Prepare),
            Op::Snapshot => Line::Calls(SessionCall::Snapshot),
            Op::Await => Line::Calls(SessionCall::Await),
            Op::Status => Line::Calls(SessionCall::Status),
            Op::Complete => Line::Calls(SessionCall::Complete),
            Op::Abort => Line::Calls(SessionCall::Abort),
            Op::End => Line::Calls(SessionCall::End),
        }
    }

    /// The session call that the line makes, if it makes one.
    pub fn session_call(self) -> Option<SessionCall>
        ensures { result ≡ call_of self }
    {
        match self.line() {
            Line::Calls(call) => Some(call),
            _ => None,
        }
    }
}
