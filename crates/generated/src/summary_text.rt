//! The text of the summary of a generated scenario.

ghost use Rattle.std.specs.Prelude.{◌≡◌, ◌++◌, IfOk, OnOk};
ghost use Rattle.generated.specs.Contents.{volume_line, summary_head, summary_with, summary};

use crate::final_contents::final_digest;
use crate::pieces::{add_digest, add_number};
use block_data::BlockBuf;
use std::alloc::Global;
use vss_names::{OutOfMemory, Text};

/// More bytes than a summary has, so that memory is asked for once.
const MOST_BYTES: usize = 1024;

/// Appends the lines that come before those of the volumes.
fn add_head(out: &mut Text, number: u32) -> Result<(), OutOfMemory>
    ensures { OnOk result (out.new.bytes ≡ out.old.bytes ++ summary_head number) }
{
    out.add(b"gen ")?;
    add_number(out, number)?;
    out.add(b"\nlanes 16 lines 3088\nsets complete 4\nimages 32\n")
}

/// Appends the line of a volume.
fn add_volume(out: &mut Text, volume: u32, digest: &[u8; 32]) -> Result<(), OutOfMemory>
    ensures { OnOk result (out.new.bytes ≡ out.old.bytes ++ volume_line volume digest.now) }
{
    out.add(b"volume v")?;
    add_number(out, volume)?;
    out.add(b" ")?;
    add_digest(out, digest)?;
    out.add(b"\n")
}

/// The summary of a number with these digests of the volumes, one for each in order, as those that a run has left.
pub fn summary_of(alloc: Global, number: u32, digests: &[[u8; 32]; 8]) -> Result<Text, OutOfMemory>
    ensures { IfOk result (λ text. text.bytes ≡ summary_with number digests.now) }
{
    let mut out = Text::new(alloc);
    out.reserve(MOST_BYTES)?;
    add_head(&mut out, number)?;
    for volume in 0..8 {
        add_volume(&mut out, volume, &digests[volume as usize])?;
    }
    Ok(out)
}

/// The summary of a number, from the number alone: no run is made for it. It costs the digests of eight volumes of 256 blocks.
pub fn summary(alloc: Global, number: u32) -> Result<Text, OutOfMemory>
    ensures { IfOk result (λ text. text.bytes ≡ summary number) }
{
    let mut buffer = BlockBuf::zeroed(alloc)?.into_vec();
    let mut out = Text::new(alloc);
    out.reserve(MOST_BYTES)?;
    add_head(&mut out, number)?;
    for volume in 0..8 {
        let digest = final_digest(number, volume, &mut buffer);
        add_volume(&mut out, volume, &digest)?;
    }
    Ok(out)
}
