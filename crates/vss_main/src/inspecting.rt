ghost use Rattle.std.specs.Prelude.{◌≡◌, ◌<◌, ◌↔◌};
ghost use Rattle.io_edge.specs.Streams.{IfGave};
ghost use Rattle.vss_main.specs.Command.{most_area_bytes};
ghost use Rattle.vss_main.specs.Inspected.{ended_by, status_of, IsInspected, IsListedWhereItCan};

use crate::inspection::Inspection;
use crate::listing::list_area;
use crate::status::Status;
use diff_area::AreaFault;
use io_edge::{ReadError, Sink, Source, read_all, write_all};
use std::alloc::Global;

/// The most bytes of an area: its header, 64 pages of its table and 65,536 slots, of 16,384 bytes each.
pub const MOST_AREA_BYTES: usize = 1_074_806_784;

/// How an inspection ends that has no listing.
fn refused(fault: AreaFault) -> Inspection
    ensures { result ≡ ended_by fault }
{
    match fault {
        AreaFault::OutOfMemory => Inspection::OutOfMemory,
        AreaFault::Device => Inspection::Refused(fault),
        AreaFault::BadHeader { .. } => Inspection::Refused(fault),
        AreaFault::BadRecord { .. } => Inspection::Refused(fault),
    }
}

/// Reads an area to its end, and writes its listing. Of bytes that are no area nothing is written.
pub fn inspect<S: Source, K: Sink>(alloc: Global, source: &mut S, sink: &mut K) -> Inspection
    ensures too_long { IfGave (S.left source.old) (S.left source.new) (λ n. (result ≡ Inspection.TooLong) ↔ (most_area_bytes < n)) }
    ensures inspected { IsInspected (record {
      left_first = S.left source.old;
      left_last = S.left source.new;
      reads_first = S.count source.old;
      reads_last = S.count source.new;
      taken_first = K.taken sink.old;
      taken_last = K.taken sink.new;
      writes_first = K.count sink.old;
      writes_last = K.count sink.new;
    }) result }
    ensures complete { IsListedWhereItCan (record {
      left_first = S.left source.old;
      left_last = S.left source.new;
      reads_first = S.count source.old;
      reads_last = S.count source.new;
      taken_first = K.taken sink.old;
      taken_last = K.taken sink.new;
      writes_first = K.count sink.old;
      writes_last = K.count sink.new;
    }) result }
{
    let bytes = match read_all(alloc, source, MOST_AREA_BYTES) {
        Ok(bytes) => bytes,
        Err(ReadError::Failed) => return Inspection::ReadFault,
        Err(ReadError::OutOfMemory) => return Inspection::OutOfMemory,
        Err(ReadError::TooLong) => return Inspection::TooLong,
    };
    let text = match list_area(alloc, bytes.bytes()) {
        Ok(text) => text,
        Err(fault) => return refused(fault),
    };
    match write_all(sink, text.bytes()) {
        Ok(()) => Inspection::Listed,
        Err(_) => Inspection::WriteFault,
    }
}

/// The status with which an inspection ends.
pub fn status_of(ended: Inspection) -> Status
    ensures { result ≡ status_of ended }
{
    match ended {
        Inspection::Listed => Status::Done,
        Inspection::Refused(fault) => Status::AreaRefused(fault),
        Inspection::ReadFault => Status::ReadFault,
        Inspection::WriteFault => Status::WriteFault,
        Inspection::TooLong => Status::TooLong,
        Inspection::OutOfMemory => Status::OutOfMemory,
    }
}
