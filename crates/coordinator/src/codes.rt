ghost use Rattle.std.specs.Prelude.{◌≡◌};
ghost use Rattle.set_agenda.specs.Agenda.{group_code, is_freeze, is_snapshot, is_thaw, level_code, same_place};
ghost use Rattle.set_agenda.specs.Limits.{answer_runs, freeze_runs, hold_runs, is_hold, is_prepare_snapshot};

use set_agenda::{Group, Kind, Place};
use vss_names::{Level, Order};

fn group_code(group: Group) -> u32
    ensures { result ≡ group_code group }
{
    match group {
        Group::Orders(Order::Identify) => 0,
        Group::Orders(Order::PrepareBackup) => 1,
        Group::Orders(Order::PrepareSnapshot) => 2,
        Group::Orders(Order::Freeze) => 3,
        Group::Orders(Order::Thaw) => 4,
        Group::Orders(Order::PostSnapshot) => 5,
        Group::Orders(Order::BackupComplete) => 6,
        Group::PreCommit => 7,
        Group::Flush => 8,
        Group::Hold => 9,
        Group::Cut => 10,
        Group::Commit => 11,
        Group::Release => 12,
        Group::PostCommit => 13,
    }
}

fn level_code(level: Option<Level>) -> u32
    ensures { result ≡ level_code level }
{
    match level {
        None => 0,
        Some(level) => level.number(),
    }
}

/// Whether two places are the same.
pub fn is_same_place(p: Place, q: Place) -> bool
    ensures { result ≡ same_place p q }
{
    group_code(p.group) == group_code(q.group) && level_code(p.level) == level_code(q.level)
}

/// Whether the group asks writers to freeze.
pub fn is_freeze(group: Group) -> bool
    ensures { result ≡ is_freeze group }
{
    match group {
        Group::Orders(Order::Freeze) => true,
        _ => false,
    }
}

/// Whether the group asks writers to thaw.
pub fn is_thaw(group: Group) -> bool
    ensures { result ≡ is_thaw group }
{
    match group {
        Group::Orders(Order::Thaw) => true,
        _ => false,
    }
}

/// Whether the group asks writers to prepare for a snapshot.
pub fn is_prepare_snapshot(group: Group) -> bool
    ensures { result ≡ is_prepare_snapshot group }
{
    match group {
        Group::Orders(Order::PrepareSnapshot) => true,
        _ => false,
    }
}

/// Whether the group holds volumes.
pub fn is_hold(group: Group) -> bool
    ensures { result ≡ is_hold group }
{
    match group {
        Group::Hold => true,
        _ => false,
    }
}

/// Whether the agenda is that of a snapshot.
pub fn is_snapshot(kind: Kind) -> bool
    ensures { result ≡ is_snapshot kind }
{
    match kind {
        Kind::Snapshot => true,
        _ => false,
    }
}

/// Whether the hold limit runs while the group is open, if the volumes are held.
pub fn hold_runs(group: Group) -> bool
    ensures { result ≡ hold_runs group }
{
    match group {
        Group::Hold | Group::Cut | Group::Commit | Group::Release => true,
        _ => false,
    }
}

/// Whether the freeze limit runs while the group is open.
pub fn freeze_runs(group: Group) -> bool
    ensures { result ≡ freeze_runs group }
{
    match group {
        Group::Orders(Order::Freeze) => true,
        Group::Orders(_) => false,
        _ => true,
    }
}

/// Whether the answer limit runs while the group is open.
pub fn answer_runs(group: Group) -> bool
    ensures { result ≡ answer_runs group }
{
    match group {
        Group::Orders(Order::Freeze) => false,
        Group::Orders(_) => true,
        _ => false,
    }
}
