ghost use Rattle.std.specs.Prelude.{◌≡◌, ◌<◌, ◌≤◌, ◌↔◌, ◌⊎◌, ◌++◌, [], length, IfOk, IfSome, OnOk, IsErrOf, Some};
ghost use Rattle.io_edge.specs.Streams.{message_of, Gave, GaveSome, IfGave};
ghost use Rattle.io_edge.specs.declared.reading.ReadError.TheVariants as error;
ghost use Rattle.vss_names.specs.Faults.{Rose};

use crate::source::Source;
use std::alloc::Global;
use std::error::Error;
use std::fmt;
use vss_names::{Failed, OutOfMemory, Text};

/// Why a source was not read to its end.
#[derive(Clone, Copy, Debug, PartialEq, Eq, Hash)]
pub enum ReadError {
    /// A call of the source failed.
    Failed,
    /// The source gave more bytes than the limit.
    TooLong,
    OutOfMemory,
}

impl fmt::Display for ReadError {
    ghost output = { λ error. Some (message_of error) };

    fn fmt<W: fmt::Write>(&self, f: &mut fmt::Formatter<W>) -> fmt::Result {
        f.write_str(match self {
            ReadError::Failed => "a read failed",
            ReadError::TooLong => "the input is too long",
            ReadError::OutOfMemory => "out of memory",
        })
    }
}

impl Error for ReadError {}

impl From<Failed> for ReadError {
    ghost from_gives = { λ _ e. e ≡ error.Failed };

    fn from(_failed: Failed) -> ReadError {
        ReadError::Failed
    }
}

impl From<OutOfMemory> for ReadError {
    ghost from_gives = { λ _ e. e ≡ error.OutOfMemory };

    fn from(_refused: OutOfMemory) -> ReadError {
        ReadError::OutOfMemory
    }
}

/// How many bytes one call of a source is asked for.
const PIECE: usize = 16384;

/// Appends a piece. Where it lacks room, the room is made an eighth larger than the bytes and the piece: twice as much would take
/// the memory of the bytes again.
fn append(bytes: &mut Vec<u8>, piece: &[u8]) -> Result<(), OutOfMemory>
    ensures { OnOk result (bytes.new.items ≡ bytes.old.items ++ piece.now) }
{
    if bytes.capacity() - bytes.len() < piece.len() {
        bytes.reserve_exact(piece.len() + bytes.len() / 8)?;
    }
    bytes.extend_from_slice(piece)?;
    Ok(())
}

/// Reads a source to its end, if that comes within `limit` bytes. After an error the bytes that were read are
/// gone; a source that is too long may have given a piece past the limit.
pub fn read_all<S: Source>(alloc: Global, source: &mut S, limit: usize) -> Result<Text, ReadError>
    ensures read { IfOk result (λ text. Gave (S.left source.old) text.bytes (S.left source.new)) }
    ensures to_the_end { OnOk result (IfSome (S.left source.new) (λ rest. rest ≡ [])) }
    ensures within { IfOk result (λ text. length text.bytes ≤ limit) }
    ensures gave { GaveSome (S.left source.old) (S.left source.new) }
    ensures too_long { IfGave (S.left source.old) (S.left source.new) (λ n.
        IsErrOf result ReadError.TooLong ↔ (limit < n)) }
    ensures later { S.count source.old ≤ S.count source.new }
    ensures same { OnOk result (S.count source.new ≡ S.count source.old) }
    ensures unfailed { IsErrOf result ReadError.TooLong ⊎ IsErrOf result ReadError.OutOfMemory → S.count source.new ≡ S.count source.old }
    ensures failed { IsErrOf result ReadError.Failed → Rose (S.count source.old) (S.count source.new) }
{
    let mut bytes = Vec::new(alloc);
    let mut buffer = [0u8; PIECE];
    'pieces: loop {
        let n = source.read(&mut buffer)?;
        if n == 0 {
            return Ok(Text::of(bytes));
        }
        if limit - bytes.len() < n {
            return Err(ReadError::TooLong);
        }
        append(&mut bytes, &buffer[..n])?;
    }
}
