ghost use Rattle.std.specs.Prelude.{OnOk, OnErr};
ghost use Rattle.io_edge.specs.Streams.{Took, TookPart};
ghost use Rattle.vss_names.specs.Faults.{HasCause};

use crate::sink::Sink;
use vss_names::Failed;

/// Writes all these bytes. Where a call of the sink fails, it took a first part of them.
pub fn write_all<K: Sink>(sink: &mut K, bytes: &[u8]) -> Result<(), Failed>
    ensures ok { OnOk result (Took (K.taken sink.old) bytes.now (K.taken sink.new)) }
    ensures err { OnErr result (TookPart (K.taken sink.old) bytes.now (K.taken sink.new)) }
    ensures cause { HasCause (K.count sink.old) (K.count sink.new) result }
{
    let mut at = 0;
    'pieces: while at < bytes.len() {
        at += sink.write(&bytes[at..])?;
    }
    Ok(())
}
