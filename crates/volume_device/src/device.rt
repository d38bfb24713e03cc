//! What every device of blocks promises.

ghost use Rattle.std.specs.Prelude.{◌≡◌, ◌<◌, ℕ, Bool, true, List, length, Option, Some, is_some, slice_get, slice_set, OnOk, OnErr, IfSome, option_map};
ghost use Rattle.vss_names.specs.Faults.{HasCause};
ghost use Rattle.volume_device.specs.InMemory.{AreBlocks};

use block_data::BLOCK;
use vss_names::Failed;

/// A row of blocks of `BLOCK` bytes, whose calls may fail. Each failed call raises the device's count of faults
/// and leaves the contents, and what lasts of them, as they were; a call that is answered Ok leaves the count as it was.
pub trait Device: Drop {
    /// Its blocks, where it tells them. Whether it tells never changes.
    ghost told: { Self → Option (List (List ℕ)) };

    /// How many blocks it has, which never changes.
    ghost size: { Self → ℕ };

    /// How many of its calls failed.
    ghost count: { Self → ℕ };

    /// Whether it lends its blocks, which never changes.
    ghost lending: { Self → Bool };

    /// The blocks that last as they are, where it tells them. An accepted flush alone makes all its blocks last.
    ghost lasting: { Self → Option (List (List ℕ)) };

    /// How many blocks it has. Those that it tells are as many, each of `BLOCK` bytes.
    fn blocks(&self) -> u32
        ensures size { result ≡ size self.now }
        ensures whole { IfSome (told self.now) (AreBlocks (size self.now)) };

    /// Fills `out` with a block. After a failed read `out` holds any bytes.
    fn read_into(&mut self, index: u32, out: &mut [u8]) -> Result<(), Failed>
        requires in_range { index < size self.old }
        requires whole { length out.old ≡ BLOCK }
        ensures block { OnOk result (IfSome (told self.old) (λ blocks. slice_get blocks index ≡ Some out.new)) }
        ensures told { told self.new ≡ told self.old }
        ensures size { size self.new ≡ size self.old }
        ensures lending { lending self.new ≡ lending self.old }
        ensures lasting { lasting self.new ≡ lasting self.old }
        ensures cause { HasCause (count self.old) (count self.new) result };

    /// Fills `out` with a block, while other threads may read the device too. False if it cannot be read so, or the read
    /// failed; then `out` holds any bytes. A failed read is counted by the next `read_into`, which fails too.
    fn read_shared(&self, index: u32, out: &mut [u8]) -> bool
        requires in_range { index < size self.now }
        requires whole { length out.old ≡ BLOCK }
        ensures block { result ≡ true → IfSome (told self.now) (λ blocks. slice_get blocks index ≡ Some out.new) }
    {
        let _ = (index, out.len());
        false
    }

    /// Writes a block. After a failed write the block is as before.
    fn write(&mut self, index: u32, block: &[u8]) -> Result<(), Failed>
        requires in_range { index < size self.old }
        requires whole { length block.now ≡ BLOCK }
        ensures written { OnOk result (told self.new ≡ option_map (λ blocks. slice_set blocks index block.now) (told self.old)) }
        ensures kept { OnErr result (told self.new ≡ told self.old) }
        ensures lasting { OnErr result (lasting self.new ≡ lasting self.old) }
        ensures size { size self.new ≡ size self.old }
        ensures lending { lending self.new ≡ lending self.old }
        ensures cause { HasCause (count self.old) (count self.new) result };

    /// Brings all accepted writes to where they last.
    fn flush(&mut self) -> Result<(), Failed>
        ensures lasts { OnOk result (lasting self.new ≡ told self.new) }
        ensures lasting { OnErr result (lasting self.new ≡ lasting self.old) }
        ensures told { told self.new ≡ told self.old }
        ensures size { size self.new ≡ size self.old }
        ensures lending { lending self.new ≡ lending self.old }
        ensures cause { HasCause (count self.old) (count self.new) result };

    fn lends(&self) -> bool
        ensures { result ≡ lending self.now };

    /// Lends a block in place, which cannot fail.
    fn lend(&self, index: u32) -> Option<&[u8]>
        requires { index < size self.now }
        ensures lends { is_some result ≡ lending self.now }
        ensures block { IfSome result (λ block. IfSome (told self.now) (λ blocks. slice_get blocks index ≡ Some block.now)) }
        ensures whole { IfSome result (λ block. length block.now ≡ BLOCK) };

    /// How many calls failed. The number stands still at the greatest `u64`.
    fn faults(&self) -> u64
        ensures { result ≡ count self.now };
}
