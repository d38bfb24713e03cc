ghost use Rattle.std.specs.Prelude.{◌≡◌, ℕ, IfOk, OnErr};

use vss_names::OutOfMemory;

/// What a turn owns: an object that one caller at a time steps.
pub trait Machine {
    type Call;

    type Reply;

    // Of the state before, the caller's number, its call, the reply and the state after: such a move is the machine's.
    ghost steps: { Self → ℕ → Self.Call → Self.Reply → Self → Type 0 };

    /// One move, made for the caller of this number. Without memory the machine stays as it was.
    fn step(&mut self, caller: u32, call: Self::Call) -> Result<Self::Reply, OutOfMemory>
        ensures ok { IfOk result (λ reply. steps self.old caller call reply self.new) }
        ensures err { OnErr result (self.new ≡ self.old) };
}
