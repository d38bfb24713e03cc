ghost use Rattle.std.specs.Prelude.{◌≡◌, false, not, true};
ghost use Rattle.writer_state.specs.WriterState.{after_ok, failed_at, is_failed, is_ok, stable_again, state_after};

use crate::said::Said;
use vss_names::{Order, WriterState};

/// The state of a writer after it said this to this order.
pub fn after(order: Order, said: Said) -> WriterState
    ensures state { result ≡ state_after order said }
    ensures failed { is_failed result ≡ not (is_ok said) }
{
    match said {
        Said::Ok => after_ok(order),
        Said::Veto(_) | Said::Lost => failed_at(order),
    }
}

/// The state after a writer has carried the order out.
fn after_ok(order: Order) -> WriterState
    ensures state { result ≡ after_ok order }
    ensures failed { is_failed result ≡ false }
{
    match order {
        Order::Identify | Order::PrepareBackup | Order::BackupComplete => WriterState::Stable,
        Order::PrepareSnapshot => WriterState::WaitingForFreeze,
        Order::Freeze => WriterState::WaitingForThaw,
        Order::Thaw => WriterState::WaitingForPostSnapshot,
        Order::PostSnapshot => WriterState::WaitingForBackupComplete,
    }
}

/// The state after a writer has failed at the order.
fn failed_at(order: Order) -> WriterState
    ensures state { result ≡ failed_at order }
    ensures failed { is_failed result ≡ true }
{
    match order {
        Order::Identify => WriterState::FailedAtIdentify,
        Order::PrepareBackup => WriterState::FailedAtPrepareBackup,
        Order::PrepareSnapshot => WriterState::FailedAtPrepareSnapshot,
        Order::Freeze => WriterState::FailedAtFreeze,
        Order::Thaw => WriterState::FailedAtThaw,
        Order::PostSnapshot => WriterState::FailedAtPostSnapshot,
        Order::BackupComplete => WriterState::FailedAtBackupComplete,
    }
}

/// Whether a writer in this state has failed. It is then given no further order of its session.
pub fn is_failed(state: WriterState) -> bool
    ensures { result ≡ is_failed state }
{
    match state {
        WriterState::Unknown
        | WriterState::Stable
        | WriterState::WaitingForFreeze
        | WriterState::WaitingForThaw
        | WriterState::WaitingForPostSnapshot
        | WriterState::WaitingForBackupComplete => false,
        WriterState::FailedAtIdentify
        | WriterState::FailedAtPrepareBackup
        | WriterState::FailedAtPrepareSnapshot
        | WriterState::FailedAtFreeze
        | WriterState::FailedAtThaw
        | WriterState::FailedAtPostSnapshot
        | WriterState::FailedAtBackupComplete
        | WriterState::FailedAtPreRestore
        | WriterState::FailedAtPostRestore
        | WriterState::FailedAtBackupShutdown => true,
    }
}

/// The state that a writer in this state has once it is told that the set failed: a failed writer and one that is
/// UNKNOWN stay as they are, and any other is STABLE.
pub fn aborted(state: WriterState) -> WriterState
    ensures state { result ≡ stable_again state }
    ensures failed { is_failed result ≡ is_failed state }
{
    match state {
        WriterState::Stable
        | WriterState::WaitingForFreeze
        | WriterState::WaitingForThaw
        | WriterState::WaitingForPostSnapshot
        | WriterState::WaitingForBackupComplete => WriterState::Stable,
        WriterState::Unknown
        | WriterState::FailedAtIdentify
        | WriterState::FailedAtPrepareBackup
        | WriterState::FailedAtPrepareSnapshot
        | WriterState::FailedAtFreeze
        | WriterState::FailedAtThaw
        | WriterState::FailedAtPostSnapshot
        | WriterState::FailedAtBackupComplete
        | WriterState::FailedAtPreRestore
        | WriterState::FailedAtPostRestore
        | WriterState::FailedAtBackupShutdown => state,
    }
}
