ghost use Rattle.std.specs.Prelude.{ℕ, ◌≡◌, ◌<◌, ◌≤◌, ◌↔◌, List, [], length, take, Option, IfOk, OnErr, IfSome};
ghost use Rattle.io_edge.specs.Streams.{Gave};
ghost use Rattle.vss_names.specs.Faults.{HasCause};

use vss_names::Failed;

/// Bytes that come in, in order. Whether it tells them never changes.
pub trait Source: Drop {
    /// The bytes that are left, where it tells them.
    ghost left: { Self → Option (List ℕ) };

    /// How many of its calls failed.
    ghost count: { Self → ℕ };

    /// Fills the front of `out` with the next bytes and answers how many; 0 is the end of the input. The rest of
    /// `out`, and after an error all of it, may hold any bytes. A call that failed has taken nothing.
    fn read(&mut self, out: &mut [u8]) -> Result<usize, Failed>
        requires room { 0 < length out.old }
        ensures within { IfOk result (λ n. n ≤ length out.old) }
        ensures given { IfOk result (λ n. Gave (left self.old) (take n out.new) (left self.new)) }
        ensures ends { IfOk result (λ n. IfSome (left self.old) (λ bytes. (n ≡ 0) ↔ (bytes ≡ []))) }
        ensures kept { OnErr result (left self.new ≡ left self.old) }
        ensures cause { HasCause (count self.old) (count self.new) result };

    /// How many of its calls failed, as far as 2^64 - 1, where the count stands still.
    fn faults(&self) -> u64
        ensures { result ≡ count self.now };
}
