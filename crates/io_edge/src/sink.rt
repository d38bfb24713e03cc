ghost use Rattle.std.specs.Prelude.{ℕ, ◌≡◌, ◌<◌, ◌≤◌, List, length, take, Option, IfOk, OnErr};
ghost use Rattle.io_edge.specs.Streams.{Took};
ghost use Rattle.vss_names.specs.Faults.{HasCause};

use vss_names::Failed;

/// Bytes that go out, in order. Whether it tells them never changes.
pub trait Sink: Drop {
    /// The bytes that it took, where it tells them.
    ghost taken: { Self → Option (List ℕ) };

    /// How many of its calls failed.
    ghost count: { Self → ℕ };

    /// Takes the front of `piece` and answers how many bytes. What it took is out: nothing waits for a flush. A
    /// call that failed has taken nothing.
    fn write(&mut self, piece: &[u8]) -> Result<usize, Failed>
        requires some { 0 < length piece.now }
        ensures least { IfOk result (λ n. 0 < n) }
        ensures within { IfOk result (λ n. n ≤ length piece.now) }
        ensures took { IfOk result (λ n. Took (taken self.old) (take n piece.now) (taken self.new)) }
        ensures kept { OnErr result (taken self.new ≡ taken self.old) }
        ensures cause { HasCause (count self.old) (count self.new) result };

    /// How many of its calls failed, as far as 2^64 - 1, where the count stands still.
    fn faults(&self) -> u64
        ensures { result ≡ count self.now };
}
