ghost use Rattle.std.specs.Prelude.{◌≡◌, ◌≤◌, ℕ, length, OnOk, IfErr};
ghost use Rattle.vss_shards.specs.Journals.{part_of, most_entries};
ghost use Rattle.vss_shards.specs.OneMoment.{IsFree, IsPart, IsFirstHeld, IsGathered, IsHeldOne, IsOffIn};

use crate::entry::Entry;
use crate::gather_fault::GatherFault;
use crate::journal::Journal;
use crate::shard::Shard;
use volume_device::Device;

/// Whether shards and a journal are one whole: no shard is held, and each list is the journal's part of its volume. It goes through
/// the journal once for each shard, and takes no memory.
pub fn gather<D: Device>(shards: &[Shard<D>], journal: &Journal) -> Result<(), GatherFault>
    ensures { IsGathered shards.now journal.now.entries result }
{
    all_free(shards)?;
    for shard in shards {
        compare(shard.number, &shard.entries, &journal.entries)?;
    }
    Ok(())
}

/// Looks for the first shard that is held.
fn all_free<D: Device>(shards: &[Shard<D>]) -> Result<(), GatherFault>
    ensures free { OnOk result ((k : ℕ) → IsFree shards.now k) }
    ensures held { IfErr result (IsHeldOne shards.now) }
{
    for shard in shards {
        if shard.held.is_some() {
            return Err(GatherFault::Held {
                volume: shard.number,
            });
        }
    }
    Ok(())
}

/// Looks for the first place where the list of a volume and the journal's part of it differ.
fn compare(volume: u32, listed: &[Entry], journal: &[Entry]) -> Result<(), GatherFault>
    requires { length listed.now ≤ most_entries }
    ensures same { OnOk result (listed.now ≡ part_of volume journal.now) }
    ensures differ { IfErr result (IsOffIn volume listed.now (part_of volume journal.now)) }
{
    let mut at = 0;
    for entry in journal {
        if entry.volume == volume {
            let own = listed.get(at).copied();
            let differs = own != Some(*entry);
            if differs {
                return Err(GatherFault::Differs {
                    volume,
                    at: at as u32,
                    listed: own,
                    journalled: Some(*entry),
                });
            }
            at += 1;
        }
    }
    if at < listed.len() {
        return Err(GatherFault::Differs {
            volume,
            at: at as u32,
            listed: Some(listed[at]),
            journalled: None,
        });
    }
    Ok(())
}
