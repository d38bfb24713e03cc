//! The replies of a volume with images to a list of commands.

ghost use Rattle.std.specs.Prelude.{◌≡◌, ◌<◌, length, All, IfOk, OnErr};
ghost use Rattle.write_history.specs.History.{History};
ghost use Rattle.mirror_volume.specs.Replies.{IsAllowed, MayBeGiven, after, after_all, kind_of, IsRun, IsStep};
ghost use Rattle.mirror_volume.specs.declared.command.Command.TheVariants.{Write, Read, Cut, Image, Drop};

use crate::command::Command;
use crate::image_volume::ImageVolume;
use crate::reply_list::ReplyList;
use crate::said::Said;
use block_data::{BlockBuf, Payload, digest};
use cow_volume::ImageFault;
use std::alloc::Global;
use vss_names::OutOfMemory;

/// Fills a block.
fn say_write<V: ImageVolume>(volume: &mut V, block: u32, fill: u8) -> Said
    requires { block < V.size volume.old }
    ensures step { (h : History) → V.stands volume.old h → IsStep (kind_of V.size V.slots V.per_cut volume.old) (V.tells volume.old) h (Write block fill) result (V.ready_for volume.old) (V.count volume.old) (V.ready_for volume.new) (V.count volume.new) }
    ensures stands { (h : History) → V.stands volume.old h → V.stands volume.new (after h (Write block fill) result) }
    ensures tells { V.tells volume.new ≡ V.tells volume.old }
    ensures size { V.size volume.new ≡ V.size volume.old }
    ensures slots { V.slots volume.new ≡ V.slots volume.old }
{
    match volume.write(block, &Payload::Fill(fill)) {
        Ok(done) => Said::Wrote {
            evicted_up_to: done.evicted_up_to,
        },
        Err(fault) => Said::Fault {
            evicted_up_to: fault.evicted_up_to,
        },
    }
}

/// Reads a block as it is.
fn say_read<V: ImageVolume>(volume: &mut V, scratch: &mut BlockBuf, block: u32) -> Said
    requires { block < V.size volume.old }
    ensures step { (h : History) → V.stands volume.old h → IsStep (kind_of V.size V.slots V.per_cut volume.old) (V.tells volume.old) h (Read block) result (V.ready_for volume.old) (V.count volume.old) (V.ready_for volume.new) (V.count volume.new) }
    ensures stands { (h : History) → V.stands volume.old h → V.stands volume.new h }
    ensures tells { V.tells volume.new ≡ V.tells volume.old }
    ensures size { V.size volume.new ≡ V.size volume.old }
    ensures slots { V.slots volume.new ≡ V.slots volume.old }
{
    match volume.read_into(block, scratch.bytes_mut()) {
        Ok(()) => Said::Bytes(digest(scratch.bytes())),
        Err(_) => Said::Fault { evicted_up_to: 0 },
    }
}

/// Reads a block as the image of a set shows it.
fn say_image<V: ImageVolume>(volume: &mut V, scratch: &mut BlockBuf, set: u32, block: u32) -> Said
    requires { block < V.size volume.old }
    ensures step { (h : History) → V.stands volume.old h → IsStep (kind_of V.size V.slots V.per_cut volume.old) (V.tells volume.old) h (Image set block) result (V.ready_for volume.old) (V.count volume.old) (V.ready_for volume.new) (V.count volume.new) }
    ensures stands { (h : History) → V.stands volume.old h → V.stands volume.new h }
    ensures tells { V.tells volume.new ≡ V.tells volume.old }
    ensures size { V.size volume.new ≡ V.size volume.old }
    ensures slots { V.slots volume.new ≡ V.slots volume.old }
{
    match volume.read_image_into(set, block, scratch.bytes_mut()) {
        Ok(()) => Said::Bytes(digest(scratch.bytes())),
        Err(ImageFault::NoSuchImage) => Said::NoSuchImage,
        Err(ImageFault::NoSuchBlock) => unreachable!(),
        Err(ImageFault::Volume) => Said::Fault { evicted_up_to: 0 },
        Err(ImageFault::Area) => Said::Fault { evicted_up_to: 0 },
    }
}

/// Cuts an image.
fn say_cut<V: ImageVolume>(volume: &mut V, set: u32) -> Said
    requires room { length (V.sets volume.old) < 512 }
    requires above_zero { 0 < set }
    requires newest { All (λ s. s < set) (V.sets volume.old) }
    ensures step { (h : History) → V.stands volume.old h → IsStep (kind_of V.size V.slots V.per_cut volume.old) (V.tells volume.old) h (Cut set) result (V.ready_for volume.old) (V.count volume.old) (V.ready_for volume.new) (V.count volume.new) }
    ensures stands { (h : History) → V.stands volume.old h → V.stands volume.new (after h (Cut set) result) }
    ensures tells { V.tells volume.new ≡ V.tells volume.old }
    ensures size { V.size volume.new ≡ V.size volume.old }
    ensures slots { V.slots volume.new ≡ V.slots volume.old }
{
    match volume.cut(set) {
        Ok(()) => Said::Ok,
        Err(_) => Said::NoMirror,
    }
}

/// Drops an image.
fn say_drop<V: ImageVolume>(volume: &mut V, set: u32) -> Said
    ensures step { (h : History) → V.stands volume.old h → IsStep (kind_of V.size V.slots V.per_cut volume.old) (V.tells volume.old) h (Drop set) result (V.ready_for volume.old) (V.count volume.old) (V.ready_for volume.new) (V.count volume.new) }
    ensures stands { (h : History) → V.stands volume.old h → V.stands volume.new (after h (Drop set) result) }
    ensures tells { V.tells volume.new ≡ V.tells volume.old }
    ensures size { V.size volume.new ≡ V.size volume.old }
    ensures slots { V.slots volume.new ≡ V.slots volume.old }
{
    match volume.drop_image(set) {
        Ok(()) => Said::Ok,
        Err(_) => Said::NoSuchImage,
    }
}

/// What a volume says to a command.
fn reply_to<V: ImageVolume>(volume: &mut V, scratch: &mut BlockBuf, command: Command) -> Said
    requires { IsAllowed (V.size volume.old) (V.sets volume.old) command }
    ensures step { (h : History) → V.stands volume.old h → IsStep (kind_of V.size V.slots V.per_cut volume.old) (V.tells volume.old) h command result (V.ready_for volume.old) (V.count volume.old) (V.ready_for volume.new) (V.count volume.new) }
    ensures stands { (h : History) → V.stands volume.old h → V.stands volume.new (after h command result) }
    ensures tells { V.tells volume.new ≡ V.tells volume.old }
    ensures size { V.size volume.new ≡ V.size volume.old }
    ensures slots { V.slots volume.new ≡ V.slots volume.old }
{
    match command {
        Command::Write { block, fill } => say_write(volume, block, fill),
        Command::Read { block } => say_read(volume, scratch, block),
        Command::Cut { set } => say_cut(volume, set),
        Command::Image { set, block } => say_image(volume, scratch, set, block),
        Command::Drop { set } => say_drop(volume, set),
    }
}

/// Gives these commands to a volume that stands for some history, one after another, and answers what it said to each. Where memory
/// is refused, no command was given.
pub fn replies<V: ImageVolume>(
    alloc: Global,
    volume: &mut V,
    commands: &[Command],
) -> Result<ReplyList, OutOfMemory>
    requires stands { (h : History) × V.stands volume.old h }
    requires allowed { MayBeGiven (V.size volume.old) (V.sets volume.old) commands.now }
    ensures run { IfOk result (λ said. (h : History) → V.stands volume.old h → IsRun (kind_of V.size V.slots V.per_cut volume.old) (V.tells volume.old) h (V.ready_for volume.old) (V.count volume.old) commands.now said (V.ready_for volume.new) (V.count volume.new)) }
    ensures stands { IfOk result (λ said. (h : History) → V.stands volume.old h → V.stands volume.new (after_all h commands.now said)) }
    ensures each { IfOk result (λ said. length said ≡ length commands.now) }
    ensures refused { OnErr result (volume.new ≡ volume.old) }
{
    let mut scratch = BlockBuf::zeroed(alloc)?;
    let mut said = Vec::with_capacity(alloc, commands.len())?;
    for command in commands {
        let _ = said.push(reply_to(volume, &mut scratch, *command));
    }
    Ok(ReplyList::of(said))
}
