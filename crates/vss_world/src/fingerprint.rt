ghost use Rattle.std.specs.Prelude.{◌≡◌, length};
ghost use Rattle.hex.specs.Hex.{IsBytes};
ghost use Rattle.vss_world.specs.Changes.{IsFingerprint, IsWide};

use block_data::{BLOCK, digest};
use vss_model::Told;

/// What is told of a block: its first eight bytes and its SHA-256.
#[derive(Clone, Copy, Debug, PartialEq, Eq)]
pub(crate) struct Fingerprint {
    pub(crate) first: [u8; 8],
    pub(crate) digest: [u8; 32],
}

/// Says to contracts that bytes are bytes.
fn are_bytes(bytes: &[u8])
    ensures { IsBytes bytes.now }
{
    let _ = bytes;
}

impl Fingerprint {
    pub(crate) fn of(block: &[u8]) -> Fingerprint
        requires { length block.now ≡ BLOCK }
        ensures exact { IsFingerprint block.now result }
        ensures wide { IsWide result }
    {
        let mut first = [0; 8];
        first.copy_from_slice(&block[..8]);
        let digest = digest(block);
        are_bytes(&first);
        are_bytes(&digest);
        Fingerprint { first, digest }
    }

    /// The answer to a read of the block.
    pub(crate) fn told(self) -> Told
        ensures { result ≡ Told.Block self.first self.digest }
    {
        let first = self.first;
        let digest = self.digest;
        Told::Block { first, digest }
    }
}
