//! What the parts of a file have is shown as the one file.

ghost use Rattle.std.specs.Prelude.{ℕ, List, OnOk};
ghost use Rattle.io_edge.specs.Streams.{Took};
ghost use Rattle.image_store.specs.Plain.{PlainStore};
ghost use Rattle.image_store.specs.StoreValue.{StandsAs};
ghost use Rattle.image_folder.specs.Parts.{ArePieces};

use image_store::{ShowFault, Store, Which};
use io_edge::Sink;
use volume_device::Device;

/// Writes what these volumes, or their images of a set, have into a sink, one behind another. If it fails the volume is answered, too.
pub fn show_parts<D: Device, K: Sink>(
    store: &mut Store<D>,
    volumes: &[u32],
    which: Which,
    sink: &mut K,
) -> Result<(), (u32, ShowFault)>
    ensures { OnOk result ((p : PlainStore) (file : List ℕ) → StandsAs D.told store.old p
        → ArePieces 1073725440 0 p.volumes which volumes.now file
        → Took (K.taken sink.old) file (K.taken sink.new)) }
{
    for volume in volumes {
        if *volume >= store.volumes() {
            return Err((*volume, ShowFault::NoSuchImage));
        }
        match store.show(*volume, which, sink) {
            Ok(()) => {}
            Err(fault) => return Err((*volume, fault)),
        }
    }
    Ok(())
}
