//! The lines of a move's effects: evicted images, lost writers, and the set that ends.

ghost use Rattle.std.specs.Prelude.{◌≡◌, ◌+◌, ◌*◌, ◌≤◌, ◌<◌, ◌++◌, length, codes, All, [], Some, if◌then◌else◌};
ghost use Rattle.std.specs.List.{flat_map};
ghost use Rattle.set_agenda.specs.WriterSet.{has_bit, writers_of};
ghost use Rattle.vss_report.specs.Words.{evicted_text, lost_text, outcome_text};
ghost use Rattle.vss_report.specs.ToldLines.{told_end};

use crate::names::{volume_name, writer_name};
use crate::words::{add, add_number, add_short_number};
use scenario::Scenario;
use vss_model::Evicted;
use vss_names::{MOST_WRITERS, Order, SetOutcome, Text};

/// Appends the line of an evicted image.
fn add_evicted(scenario: &Scenario, image: Evicted, out: &mut Text)
    requires range { image.volume < length scenario.now.volumes }
    requires room { 54 ≤ out.old.spare }
    ensures bytes { out.new.bytes ≡ out.old.bytes ++ evicted_text scenario.now image }
    ensures spare { out.old.spare ≤ out.new.spare + 54 }
{
    add(out, b"= evicted ");
    add_short_number(out, image.set);
    add(out, b" ");
    add(out, volume_name(scenario, image.volume));
    add(out, b"\n");
}

/// Appends the lines of the evicted images.
pub fn add_all_evicted(scenario: &Scenario, evicted: &[Evicted], out: &mut Text)
    requires range { All (λ (e : Evicted). e.volume < length scenario.now.volumes) evicted.now }
    requires room { 54 * length evicted.now ≤ out.old.spare }
    ensures bytes { out.new.bytes ≡ out.old.bytes ++ flat_map (evicted_text scenario.now) evicted.now }
    ensures spare { out.old.spare ≤ out.new.spare + 54 * length evicted.now }
{
    for image in evicted {
        add_evicted(scenario, *image, out);
    }
}

/// Appends the line of a lost writer.
fn add_lost(scenario: &Scenario, order: Order, writer: u32, out: &mut Text)
    requires range { writer < length scenario.now.writers }
    requires room { 64 ≤ out.old.spare }
    ensures bytes { out.new.bytes ≡ out.old.bytes ++ lost_text scenario.now (Some order) writer }
    ensures spare { out.old.spare ≤ out.new.spare + 64 }
{
    add(out, b"= writer ");
    add(out, writer_name(scenario, writer));
    add(out, b" lost ");
    add(out, order.name().as_bytes());
    add(out, b"\n");
}

/// Appends how a set ended.
fn add_outcome(out: &mut Text, outcome: SetOutcome)
    requires { 50 ≤ out.old.spare }
    ensures bytes { out.new.bytes ≡ out.old.bytes ++ outcome_text outcome }
    ensures spare { out.old.spare ≤ out.new.spare + 50 }
{
    match outcome {
        SetOutcome::Running => {}
        SetOutcome::Complete => add(out, b" complete"),
        SetOutcome::Failed(why) => {
            add(out, b" failed ");
            add(out, why.name().as_bytes());
        }
    }
}

/// Appends the line of the set that ended, where one did.
pub fn add_end(out: &mut Text, set: u32, outcome: SetOutcome)
    requires { 77 ≤ out.old.spare }
    ensures bytes { out.new.bytes ≡ out.old.bytes ++ told_end set outcome }
    ensures spare { out.old.spare ≤ out.new.spare + 77 }
{
    if set == 0 {
        return;
    }
    add(out, b"= set ");
    add_number(out, set as u64);
    add_outcome(out, outcome);
    add(out, b"\n");
}

/// Appends the line of a writer, where its bit says that it was lost.
#[tactic(auto, using(crate::proofs::Telling::bit_is))]
fn add_lost_if(scenario: &Scenario, order: Order, lost: u64, writer: u32, out: &mut Text)
    requires below { writer < 64 }
    requires range { All (λ w. w < length scenario.now.writers) (writers_of lost) }
    requires room { 64 ≤ out.old.spare }
    ensures bytes { out.new.bytes ≡ out.old.bytes ++ (if has_bit lost writer then lost_text scenario.now (Some order) writer else []) }
    ensures spare { out.old.spare ≤ out.new.spare + 64 }
{
    if (lost >> writer) & 1 == 1 {
        add_lost(scenario, order, writer, out);
    }
}

/// Appends the lines of the writers that were lost over an order.
#[tactic(auto, using(crate::proofs::Telling::from_first))]
fn add_all_lost(scenario: &Scenario, order: Order, lost: u64, out: &mut Text)
    requires range { All (λ w. w < length scenario.now.writers) (writers_of lost) }
    requires room { 4096 ≤ out.old.spare }
    ensures bytes { out.new.bytes ≡ out.old.bytes ++ flat_map (lost_text scenario.now (Some order)) (writers_of lost) }
    ensures spare { out.old.spare ≤ out.new.spare + 4096 }
{
    for writer in 0..MOST_WRITERS {
        add_lost_if(scenario, order, lost, writer, out);
    }
}

/// Appends the lines of the lost writers. Without an order none is lost.
pub fn add_losses(scenario: &Scenario, order: Option<Order>, lost: u64, out: &mut Text)
    requires range { All (λ w. w < length scenario.now.writers) (writers_of lost) }
    requires room { 4096 ≤ out.old.spare }
    ensures bytes { out.new.bytes ≡ out.old.bytes ++ flat_map (lost_text scenario.now order) (writers_of lost) }
    ensures spare { out.old.spare ≤ out.new.spare + 4096 }
{
    let order = match order {
        None => return,
        Some(order) => order,
    };
    add_all_lost(scenario, order, lost, out);
}
