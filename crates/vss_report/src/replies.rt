//! What a move is told, in words: one function for each kind of reply.

ghost use Rattle.std.specs.Prelude.{◌≡◌, ◌+◌, ◌*◌, ◌≤◌, ◌<◌, ◌++◌, length, codes};
ghost use Rattle.std.specs.Fmt.{decimal};
ghost use Rattle.hex.specs.Hex.{encode_lower};
ghost use Rattle.vss_names.specs.Context as contexts;
ghost use Rattle.vss_names.specs.Order as orders;
ghost use Rattle.vss_report.specs.Words.{spaced, writer_text, state_text, answer_text, step_text, of_volume, fault_if, sets_text, states_text};
ghost use Rattle.vss_report.specs.ToldLines.{told_text, HasRowsIfTold, IsTold, IsVolumeNumber};

use crate::names::{volume_name, writer_name};
use crate::words::{add, add_digest, add_first, add_number, add_spaced_number, add_state};
use scenario::Scenario;
use set_agenda::Group;
use vss_model::{Lists, Told};
use vss_names::{Context, Order, Text};
use writer_calls::Answer;
use writer_state::WriterRow;

/// Appends a word and a number.
fn add_counted(out: &mut Text, word: &[u8], n: u64)
    requires short { length word.now ≤ 16 }
    requires room { 36 ≤ out.old.spare }
    ensures bytes { out.new.bytes ≡ out.old.bytes ++ word.now ++ decimal n }
    ensures spare { out.old.spare ≤ out.new.spare + 36 }
{
    add(out, word);
    add_number(out, n);
}

/// Appends a block, by its first eight bytes and its digest.
fn add_block(out: &mut Text, first: &[u8; 8], digest: &[u8; 32])
    requires { 86 ≤ out.old.spare }
    ensures bytes { out.new.bytes ≡ out.old.bytes ++ codes "data " ++ encode_lower first.now ++ spaced (encode_lower digest.now) }
    ensures spare { out.old.spare ≤ out.new.spare + 86 }
{
    add(out, b"data ");
    add_first(out, first);
    add(out, b" ");
    add_digest(out, digest);
}

/// Appends the digest of an image.
fn add_image_digest(out: &mut Text, digest: &[u8; 32])
    requires { 71 ≤ out.old.spare }
    ensures bytes { out.new.bytes ≡ out.old.bytes ++ codes "digest " ++ encode_lower digest.now }
    ensures spare { out.old.spare ≤ out.new.spare + 71 }
{
    add(out, b"digest ");
    add_digest(out, digest);
}

/// Appends the sets whose images are listed.
fn add_sets(out: &mut Text, listed: &[u32])
    requires { 21 * length listed.now ≤ out.old.spare }
    ensures bytes { out.new.bytes ≡ out.old.bytes ++ sets_text listed.now }
    ensures spare { out.old.spare ≤ out.new.spare + 21 * length listed.now }
{
    for set in listed {
        add_spaced_number(out, *set as u64);
    }
}

/// Appends the images that are listed.
fn add_images(out: &mut Text, listed: &[u32])
    requires few { length listed.now < 513 }
    requires room { 10758 ≤ out.old.spare }
    ensures bytes { out.new.bytes ≡ out.old.bytes ++ codes "images" ++ sets_text listed.now }
    ensures spare { out.old.spare ≤ out.new.spare + 10758 }
{
    add(out, b"images");
    add_sets(out, listed);
}

/// Appends the properties of an image.
fn add_properties(out: &mut Text, context: Context, cut: u64, used: u32)
    requires { 90 ≤ out.old.spare }
    ensures bytes { out.new.bytes ≡ out.old.bytes
        ++ codes "properties context " ++ decimal (contexts.number_of context) ++ codes " cut " ++ decimal cut ++ codes " used " ++ decimal used }
    ensures spare { out.old.spare ≤ out.new.spare + 90 }
{
    add(out, b"properties context ");
    add_number(out, context.number() as u64);
    add(out, b" cut ");
    add_number(out, cut);
    add(out, b" used ");
    add_number(out, used as u64);
}

/// Appends a component document, by its length and its digest.
fn add_document(out: &mut Text, size: u32, digest: &[u8; 32])
    requires { 94 ≤ out.old.spare }
    ensures bytes { out.new.bytes ≡ out.old.bytes ++ codes "document " ++ decimal size ++ spaced (encode_lower digest.now) }
    ensures spare { out.old.spare ≤ out.new.spare + 94 }
{
    add(out, b"document ");
    add_number(out, size as u64);
    add(out, b" ");
    add_digest(out, digest);
}

/// Appends what a writer answered to an order.
fn add_answer(out: &mut Text, order: Order, answer: Answer)
    requires { 64 ≤ out.old.spare }
    ensures bytes { out.new.bytes ≡ out.old.bytes ++ orders.name_of order ++ spaced (answer_text answer) }
    ensures spare { out.old.spare ≤ out.new.spare + 64 }
{
    add(out, order.name().as_bytes());
    match answer {
        Answer::Ok => add(out, b" ok"),
        Answer::Veto(error) => {
            add(out, b" ");
            add(out, error.name().as_bytes());
        }
    }
}

/// A step of the provider in a word. An order to writers is none.
fn step_name(group: Group) -> &'static str
    ensures text { result.now ≡ step_text group }
    ensures short { length result.now ≤ 16 }
{
    match group {
        Group::Orders(_) => "",
        Group::PreCommit => "precommit",
        Group::Flush => "flush",
        Group::Hold => "hold",
        Group::Cut => "cut",
        Group::Commit => "commit",
        Group::Release => "release",
        Group::PostCommit => "postcommit",
    }
}

/// Appends a space and the name of a volume, where there is one.
fn add_volume(scenario: &Scenario, volume: Option<u32>, out: &mut Text)
    requires range { IsVolumeNumber scenario.now volume }
    requires room { 33 ≤ out.old.spare }
    ensures bytes { out.new.bytes ≡ out.old.bytes ++ of_volume scenario.now volume }
    ensures spare { out.old.spare ≤ out.new.spare + 33 }
{
    let volume = match volume {
        None => return,
        Some(volume) => volume,
    };
    add(out, b" ");
    add(out, volume_name(scenario, volume));
}

/// Appends the word for a device that failed, where it did.
fn add_fault_if(out: &mut Text, fault: bool)
    requires { 6 ≤ out.old.spare }
    ensures bytes { out.new.bytes ≡ out.old.bytes ++ fault_if fault }
    ensures spare { out.old.spare ≤ out.new.spare + 6 }
{
    if fault {
        add(out, b" fault");
    }
}

/// Appends a step of the provider.
fn add_step(scenario: &Scenario, group: Group, volume: Option<u32>, fault: bool, out: &mut Text)
    requires range { IsVolumeNumber scenario.now volume }
    requires room { 64 ≤ out.old.spare }
    ensures bytes { out.new.bytes ≡ out.old.bytes ++ step_text group ++ of_volume scenario.now volume ++ fault_if fault }
    ensures spare { out.old.spare ≤ out.new.spare + 64 }
{
    add(out, step_name(group).as_bytes());
    add_volume(scenario, volume, out);
    add_fault_if(out, fault);
}

/// Appends a space, the name of a writer, and its state.
fn add_writer_state(scenario: &Scenario, writer: u32, row: &WriterRow, out: &mut Text)
    requires range { writer < length scenario.now.writers }
    requires room { 79 ≤ out.old.spare }
    ensures bytes { out.new.bytes ≡ out.old.bytes ++ spaced (writer_text scenario.now writer) ++ codes "=" ++ state_text row.now }
    ensures spare { out.old.spare ≤ out.new.spare + 79 }
{
    add(out, b" ");
    add(out, writer_name(scenario, writer));
    add(out, b"=");
    add_state(out, row);
}

/// Appends the states of all writers.
fn add_states(scenario: &Scenario, rows: &[WriterRow], out: &mut Text)
    requires all { length rows.now ≡ length scenario.now.writers }
    requires few { length rows.now ≤ 64 }
    requires room { 79 * length rows.now ≤ out.old.spare }
    ensures bytes { out.new.bytes ≡ out.old.bytes ++ states_text scenario.now scenario.now.writers rows.now }
    ensures spare { out.old.spare ≤ out.new.spare + 79 * length rows.now }
{
    for (writer, row) in rows.iter().enumerate() {
        add_writer_state(scenario, writer as u32, row, out);
    }
}

/// Appends the status of all writers.
fn add_status(scenario: &Scenario, rows: &[WriterRow], out: &mut Text)
    requires all { length rows.now ≡ length scenario.now.writers }
    requires room { 5062 ≤ out.old.spare }
    ensures bytes { out.new.bytes ≡ out.old.bytes ++ codes "status" ++ states_text scenario.now scenario.now.writers rows.now }
    ensures spare { out.old.spare ≤ out.new.spare + 5062 }
{
    let _count = scenario.volumes();
    add(out, b"status");
    add_states(scenario, rows, out);
}

/// Appends what a move is told.
pub fn add_told(scenario: &Scenario, told: Told, lists: &Lists<'_>, out: &mut Text)
    requires range { IsTold scenario.now told }
    requires few { length lists.now.listed.now < 513 }
    requires all { HasRowsIfTold scenario.now told lists.now.rows.now }
    requires room { 11000 ≤ out.old.spare }
    ensures bytes { out.new.bytes ≡ out.old.bytes ++ told_text scenario.now lists.now.listed.now lists.now.rows.now told }
    ensures spare { out.old.spare ≤ out.new.spare + 11000 }
{
    match told {
        Told::Ok => add(out, b"ok"),
        Told::Fault => add(out, b"fault"),
        Told::FaultAfter(restored) => add_counted(out, b"fault ", restored as u64),
        Told::Set(set) => add_counted(out, b"set ", set as u64),
        Told::Result(why) => add(out, why.name().as_bytes()),
        Told::NotSelectable => add(out, b"NOT_SELECTABLE"),
        Told::Block { first, digest } => add_block(out, &first, &digest),
        Told::Digest(digest) => add_image_digest(out, &digest),
        Told::Images => add_images(out, lists.listed),
        Told::Properties { context, cut, used } => add_properties(out, context, cut, used),
        Told::Deleted(images) => add_counted(out, b"deleted ", images as u64),
        Told::Document { length, digest } => add_document(out, length, &digest),
        Told::Status => add_status(scenario, lists.rows, out),
        Told::Answered { order, answer } => add_answer(out, order, answer),
        Told::Step {
            group,
            volume,
            fault,
        } => add_step(scenario, group, volume, fault, out),
        Told::Ticks(ticks) => add_number(out, ticks),
    }
}
