//! What the types of the numbers that a program tells say of them: they have at most eight bytes. The calls do nothing but say so
//! to contracts.

ghost use Rattle.std.specs.Prelude.{◌≡◌, All, length};
ghost use Rattle.hex.specs.Hex.{IsBytes};
ghost use Rattle.vss_report.specs.Legible.{IsShort, IsShortTold, AreShortSets, AreShort};

use vss_model::{Evicted, Lists, Outcome, Told};

/// Of one number.
fn is_short_number(n: u64)
    ensures { IsShort n }
{
    let _ = n;
}

/// Of the sets that are listed.
fn are_short(listed: &[u32])
    ensures { All IsShort listed.now }
{
    let _ = listed;
}

/// Of bytes: each is one.
fn are_bytes(bytes: &[u8])
    ensures { IsBytes bytes.now }
{
    let _ = bytes;
}

/// Of the first bytes of a block.
fn is_head(first: &[u8; 8])
    ensures long { length first.now ≡ 8 }
    ensures bytes { IsBytes first.now }
{
    are_bytes(first);
}

/// Of the sets of evicted images.
fn are_short_sets(evicted: &[Evicted])
    ensures { AreShortSets evicted.now }
{
    for image in evicted {
        is_short_number(u64::from(image.set));
    }
}

/// Of what is told.
fn is_short_told(told: Told, listed: &[u32])
    ensures { IsShortTold told listed.now }
{
    match told {
        Told::Set(set) => is_short_number(u64::from(set)),
        Told::Block { first, digest: _ } => is_head(&first),
        Told::Images => are_short(listed),
        Told::Properties {
            context: _,
            cut,
            used,
        } => {
            is_short_number(cut);
            is_short_number(u64::from(used));
        }
        Told::Deleted(images) => is_short_number(u64::from(images)),
        Told::Document { length, digest: _ } => is_short_number(u64::from(length)),
        Told::Ticks(ticks) => is_short_number(ticks),
        Told::Ok
        | Told::Fault
        | Told::FaultAfter(_)
        | Told::Result(_)
        | Told::NotSelectable
        | Told::Digest(_)
        | Told::Status
        | Told::Answered {
            order: _,
            answer: _,
        }
        | Told::Step {
            group: _,
            volume: _,
            fault: _,
        } => {}
    }
}

/// Of a whole outcome and its lists.
pub fn is_short(outcome: &Outcome, lists: &Lists<'_>)
    ensures { AreShort outcome.now lists.now.listed.now lists.now.evicted.now }
{
    is_short_told(outcome.told, lists.listed);
    are_short_sets(lists.evicted);
    is_short_number(u64::from(outcome.set));
}
