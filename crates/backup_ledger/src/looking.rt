//! What is looked for in a list of deeds.

ghost use Rattle.std.specs.Prelude.{◌≡◌, slice_get};
ghost use Rattle.std.specs.List.{list_any};
ghost use Rattle.backup_ledger.specs.Deeds.{all_froze, all_read, all_stood, is_abort, is_freeze_said, is_froze, is_kept, is_later, is_read_out, is_stood, is_thaw, is_thaw_said, is_told, may_hear, may_keep, may_read, may_say};

use crate::deed::Deed;
use vss_names::Order;
use writer_calls::Answer;

/// Whether a writer says here that it is frozen.
fn is_froze(writer: u32, deed: Deed) -> bool
    ensures { result ≡ is_froze writer deed }
{
    match deed {
        Deed::Heard {
            writer: other,
            order: Order::Freeze,
            answer: Answer::Ok,
        } => other == writer,
        _ => false,
    }
}

/// Whether a writer says here that it stood frozen to its thaw.
fn is_stood(writer: u32, deed: Deed) -> bool
    ensures { result ≡ is_stood writer deed }
{
    match deed {
        Deed::Heard {
            writer: other,
            order: Order::Thaw,
            answer: Answer::Ok,
        } => other == writer,
        _ => false,
    }
}

/// Whether a writer is told to freeze here.
fn is_freeze_said(writer: u32, deed: Deed) -> bool
    ensures { result ≡ is_freeze_said writer deed }
{
    match deed {
        Deed::Said {
            writer: other,
            order: Order::Freeze,
            ..
        } => other == writer,
        _ => false,
    }
}

/// Whether a writer is told to thaw here.
fn is_thaw_said(writer: u32, deed: Deed) -> bool
    ensures { result ≡ is_thaw_said writer deed }
{
    match deed {
        Deed::Said {
            writer: other,
            order: Order::Thaw,
            ..
        } => other == writer,
        _ => false,
    }
}

/// Whether a writer is let go here: it is told to thaw, or of an abort.
fn is_thaw(deed: Deed) -> bool
    ensures { result ≡ is_thaw deed }
{
    match deed {
        Deed::Said {
            order: Order::Thaw,
            ..
        } => true,
        Deed::ToldAbort { .. } => true,
        _ => false,
    }
}

/// Whether a writer is told of the abort here.
fn is_told(writer: u32, deed: Deed) -> bool
    ensures { result ≡ is_told writer deed }
{
    match deed {
        Deed::ToldAbort { writer: other } => other == writer,
        _ => false,
    }
}

/// Whether some writer is.
fn is_abort(deed: Deed) -> bool
    ensures { result ≡ is_abort deed }
{
    match deed {
        Deed::ToldAbort { .. } => true,
        _ => false,
    }
}

/// Whether the last part of a volume is read here.
fn is_read_out(volume: u32, deed: Deed) -> bool
    ensures { result ≡ is_read_out volume deed }
{
    match deed {
        Deed::Read {
            volume: other,
            is_last: true,
        } => other == volume,
        _ => false,
    }
}

/// Whether a set is kept here.
fn is_kept(deed: Deed) -> bool
    ensures { result ≡ is_kept deed }
{
    match deed {
        Deed::Kept { .. } => true,
        _ => false,
    }
}

/// Whether an order tells a writer that there is a set.
fn is_later(order: Order) -> bool
    ensures { result ≡ is_later order }
{
    match order {
        Order::PostSnapshot | Order::BackupComplete => true,
        _ => false,
    }
}

/// Whether a writer has said that it is frozen.
fn has_frozen(writer: u32, deeds: &[Deed]) -> bool
    ensures { result ≡ list_any (is_froze writer) deeds.now }
{
    deeds.iter().any(|deed| is_froze(writer, *deed))
}

/// Whether a writer has said that it stood frozen to its thaw.
fn has_stood(writer: u32, deeds: &[Deed]) -> bool
    ensures { result ≡ list_any (is_stood writer) deeds.now }
{
    deeds.iter().any(|deed| is_stood(writer, *deed))
}

/// Whether a writer was told to freeze.
fn was_told_to_freeze(writer: u32, deeds: &[Deed]) -> bool
    ensures { result ≡ list_any (is_freeze_said writer) deeds.now }
{
    deeds.iter().any(|deed| is_freeze_said(writer, *deed))
}

/// Whether a writer was told to thaw.
fn was_told_to_thaw(writer: u32, deeds: &[Deed]) -> bool
    ensures { result ≡ list_any (is_thaw_said writer) deeds.now }
{
    deeds.iter().any(|deed| is_thaw_said(writer, *deed))
}

/// Whether a writer was told of the abort.
pub fn was_told(writer: u32, deeds: &[Deed]) -> bool
    ensures { result ≡ list_any (is_told writer) deeds.now }
{
    deeds.iter().any(|deed| is_told(writer, *deed))
}

/// Whether a volume was read to its end.
fn was_read_out(volume: u32, deeds: &[Deed]) -> bool
    ensures { result ≡ list_any (is_read_out volume) deeds.now }
{
    deeds.iter().any(|deed| is_read_out(volume, *deed))
}

/// Whether some writer was let go.
fn was_any_let_go(deeds: &[Deed]) -> bool
    ensures { result ≡ list_any is_thaw deeds.now }
{
    deeds.iter().any(|deed| is_thaw(*deed))
}

/// Whether some writer was told of an abort.
fn was_any_told(deeds: &[Deed]) -> bool
    ensures { result ≡ list_any is_abort deeds.now }
{
    deeds.iter().any(|deed| is_abort(*deed))
}

/// Whether a set was kept.
pub fn was_kept(deeds: &[Deed]) -> bool
    ensures { result ≡ list_any is_kept deeds.now }
{
    deeds.iter().any(|deed| is_kept(*deed))
}

/// Whether each of these writers has said that it is frozen.
fn have_frozen(writers: &[u32], deeds: &[Deed]) -> bool
    ensures { result ≡ all_froze writers.now deeds.now }
{
    writers.iter().all(|writer| has_frozen(*writer, deeds))
}

/// Whether each of these writers has said that it stood frozen to its thaw.
fn have_stood(writers: &[u32], deeds: &[Deed]) -> bool
    ensures { result ≡ all_stood writers.now deeds.now }
{
    writers.iter().all(|writer| has_stood(*writer, deeds))
}

/// Whether each of these volumes was read to its end.
fn were_read(volumes: &[u32], deeds: &[Deed]) -> bool
    ensures { result ≡ all_read volumes.now deeds.now }
{
    volumes.iter().all(|volume| was_read_out(*volume, deeds))
}

/// Whether a volume may be read.
pub fn may_read(writers: &[u32], deeds: &[Deed], volume: u32) -> bool
    ensures { result ≡ may_read writers.now deeds.now volume }
{
    have_frozen(writers, deeds) && !was_any_let_go(deeds) && !was_read_out(volume, deeds)
}

/// Whether a set may be kept.
pub fn may_keep(writers: &[u32], volumes: &[u32], deeds: &[Deed]) -> bool
    ensures { result ≡ may_keep writers.now volumes.now deeds.now }
{
    were_read(volumes, deeds)
        && have_stood(writers, deeds)
        && !was_any_told(deeds)
        && !was_kept(deeds)
}

/// Whether an order may be said.
pub fn may_say(order: Order, deeds: &[Deed]) -> bool
    ensures { result ≡ may_say order deeds.now }
{
    if is_later(order) {
        return was_kept(deeds);
    }
    true
}

/// Whether an answer of a writer to an order may be heard.
pub fn may_hear(deeds: &[Deed], writer: u32, order: Order) -> bool
    ensures { result ≡ may_hear deeds.now writer order }
{
    match order {
        Order::Freeze => was_told_to_freeze(writer, deeds),
        Order::Thaw => was_told_to_thaw(writer, deeds),
        _ => true,
    }
}

/// The writer of a place, if there is one.
pub fn writer_at(writers: &[u32], place: usize) -> Option<u32>
    ensures { result ≡ slice_get writers.now place }
{
    writers.get(place).copied()
}
