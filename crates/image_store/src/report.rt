ghost use Rattle.std.specs.Prelude.{◌≡◌, None, OnOk};

use crate::pass_fault::PassFault;
use crate::store::Store;
use volume_device::Device;
use write_history::Evicted;

/// What a program shows of an update, and what it makes of a fault.
pub trait Report<D: Device, I: Device, E>: Drop {
    /// A pass over so many blocks begins. The word says what becomes of them.
    fn begin(&self, input: &mut I, word: &'static str, blocks: u32)
        ensures { I.told input.new ≡ I.told input.old };

    /// So many blocks more are done.
    fn step(&self, input: &mut I, blocks: u32)
        ensures { I.told input.new ≡ I.told input.old };

    /// The pass stops before its end.
    fn stop(&self, input: &mut I)
        ensures { I.told input.new ≡ I.told input.old };

    /// A volume was overwritten, or it was not for a fault. Then the call fails.
    fn end(&self, input: &mut I, fault: Option<PassFault>) -> Result<(), E>
        ensures told { I.told input.new ≡ I.told input.old }
        ensures whole { OnOk result (fault ≡ None) };

    /// That enough images are left in memory. Else what went is not committed, so it is still there.
    fn check_left(&self, store: &Store<D>) -> Result<(), E>;

    /// Says which images went, once that is committed.
    fn say_gone(&self, store: &Store<D>, gone: &[Evicted]) -> Result<(), E>;
}
