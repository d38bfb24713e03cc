//! What is asked of the claims for a window, and which writer claimed a block.

ghost use Rattle.std.specs.Prelude.{◌≡◌, ◌<◌, ◌≤◌, Some, slice_get, length, IfSome, IsNone};
ghost use Rattle.vss_recover.specs.Steps.{AreWithin, AreApart, IsFirstOut, IsFirstOverlap, IsFirstMet, MeetsNone, owner_of};

use crate::claim::Claim;

/// The writer whose claim has the block.
pub(crate) fn owner_of(claims: &[Claim], block: u32) -> Option<u32>
    ensures { result ≡ owner_of claims.now block }
{
    for claim in claims {
        if claim.has_block(block) {
            return Some(claim.writer);
        }
    }
    None
}

/// The first claim that is not within a volume of so many blocks.
pub(crate) fn first_out(claims: &[Claim], blocks: u32) -> Option<u32>
    requires few { length claims.now ≤ 64 }
    ensures out { IfSome result (IsFirstOut blocks claims.now) }
    ensures none { IsNone result → AreWithin blocks claims.now }
{
    for (k, claim) in claims.iter().enumerate() {
        if !claim.is_within(blocks) {
            return Some(k as u32);
        }
    }
    None
}

/// The earliest of these claims that meets another.
fn first_met(claims: &[Claim], later: Claim) -> Option<u32>
    requires few { length claims.now ≤ 64 }
    ensures met { IfSome result (IsFirstMet claims.now later) }
    ensures none { IsNone result → MeetsNone claims.now later }
{
    for (i, claim) in claims.iter().enumerate() {
        if claim.meets(later) {
            return Some(i as u32);
        }
    }
    None
}

/// The first claim that meets an earlier one, after the earliest such.
pub(crate) fn first_overlap(claims: &[Claim]) -> Option<(u32, u32)>
    requires few { length claims.now ≤ 64 }
    ensures overlap { IfSome result (λ pair. IsFirstOverlap claims.now pair.0 pair.1) }
    ensures none { IsNone result → AreApart claims.now }
{
    for second in 0..claims.len() {
        if let Some(first) = first_met(&claims[..second], claims[second]) {
            return Some((first, second as u32));
        }
    }
    None
}
