//! What another repository writes to use the crates: a device and its maker (`own_device`), and writers (`own_writers`). `stdout` has what
//! it prints.
#![tactic(auto)]

mod ledger;
mod own_device;
mod own_writers;
mod ram_disk;
mod ram_maker;

fn main(rt: HostRuntime) -> anyhow::Result<()> {
    own_device::try_device(&rt)?;
    own_writers::try_writers(&rt)
}
