ghost use Rattle.std.specs.Prelude.{◌≡◌, ℕ, List, [], ◌++◌, length};
ghost use Rattle.block_data.specs.BlockBytes.{sha256};

use sha2::{Digest, Sha256};

/// The SHA-256 of these bytes, of any number.
pub fn digest(bytes: &[u8]) -> [u8; 32]
    ensures digest { result ≡ sha256 bytes.now }
    ensures len { length result ≡ 32 }
{
    Sha256::digest(bytes)
}

/// Computes the SHA-256 of bytes that come part by part, as the blocks of a volume do.
#[derive(Debug, Drop)]
pub struct Hasher {
    state: Sha256,
}

#[tactic(auto, unfolding(crate::specs::BlockBytes::HasTaken))]
impl Hasher {
    ghost use Rattle.block_data.specs.BlockBytes.{HasTaken};

    /// A hasher that has taken no bytes.
    pub fn new() -> Hasher
        ensures { HasTaken result [] }
    {
        Hasher {
            state: Sha256::new(),
        }
    }

    /// Takes one more part, of any length.
    pub fn add(&mut self, part: &[u8])
        ensures { (bytes : List ℕ) → HasTaken self.old bytes → HasTaken self.new (bytes ++ part.now) }
    {
        self.state.update(part);
    }

    /// The SHA-256 of the parts joined in order.
    pub fn finish(self) -> [u8; 32]
        ensures digest { (bytes : List ℕ) → HasTaken self bytes → result ≡ sha256 bytes }
        ensures len { length result ≡ 32 }
    {
        self.state.finalize()
    }
}

impl Default for Hasher {
    ghost use Rattle.std.specs.Prelude.{[]};
    ghost use Rattle.block_data.specs.BlockBytes.{HasTaken};

    ghost is_default = { λ hasher. HasTaken hasher [] };

    fn default() -> Hasher {
        Hasher::new()
    }
}
