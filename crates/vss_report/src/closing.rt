//! The closing lines: how many moves there were, and how each volume, image and writer stands.

ghost use Rattle.std.specs.Prelude.{◌≡◌, ◌+◌, ◌≤◌, ◌<◌, ◌++◌, length, codes};
ghost use Rattle.std.specs.Fmt.{decimal};
ghost use Rattle.hex.specs.Hex.{encode_lower};
ghost use Rattle.scenario.specs.Plan as plan;
ghost use Rattle.vss_report.specs.Words.{spaced, as_line, volume_text, writer_text, state_text};
ghost use Rattle.vss_report.specs.ToldLines.{closing_text, IsClosingRow};

use crate::names::{volume_name, writer_name};
use crate::words::{add, add_digest, add_number, add_state};
use scenario::Scenario;
use vss_model::ClosingRow;
use vss_names::Text;
use writer_state::WriterRow;

/// Appends the line that ends the moves.
fn add_end_line(out: &mut Text, moves: u32, clock: u64)
    requires { 60 ≤ out.old.spare }
    ensures bytes { out.new.bytes ≡ out.old.bytes ++ as_line (codes "end moves " ++ decimal moves ++ codes " clock " ++ decimal clock) }
    ensures spare { out.old.spare ≤ out.new.spare + 60 }
{
    add(out, b"end moves ");
    add_number(out, moves as u64);
    add(out, b" clock ");
    add_number(out, clock);
    add(out, b"\n");
}

/// The slots of a volume's diff area.
fn slots_of(scenario: &Scenario, volume: u32) -> u32
    requires { volume < length scenario.now.volumes }
    ensures { result ≡ plan.slots_of scenario.now volume }
{
    scenario.volume(volume).slots
}

/// Appends how a volume stands.
fn add_volume_line(scenario: &Scenario, volume: u32, used: u32, digest: &[u8; 32], out: &mut Text)
    requires range { volume < length scenario.now.volumes }
    requires room { 160 ≤ out.old.spare }
    ensures bytes { out.new.bytes ≡ out.old.bytes
        ++ as_line (codes "volume " ++ volume_text scenario.now volume ++ codes " used " ++ decimal used
        ++ codes " of " ++ decimal (plan.slots_of scenario.now volume) ++ spaced (encode_lower digest.now)) }
    ensures spare { out.old.spare ≤ out.new.spare + 160 }
{
    add(out, b"volume ");
    add(out, volume_name(scenario, volume));
    add(out, b" used ");
    add_number(out, used as u64);
    add(out, b" of ");
    add_number(out, slots_of(scenario, volume) as u64);
    add(out, b" ");
    add_digest(out, digest);
    add(out, b"\n");
}

/// Appends how an image stands.
fn add_image_line(scenario: &Scenario, set: u32, volume: u32, digest: &[u8; 32], out: &mut Text)
    requires range { volume < length scenario.now.volumes }
    requires room { 130 ≤ out.old.spare }
    ensures bytes { out.new.bytes ≡ out.old.bytes
        ++ as_line (codes "image " ++ decimal set ++ spaced (volume_text scenario.now volume) ++ spaced (encode_lower digest.now)) }
    ensures spare { out.old.spare ≤ out.new.spare + 130 }
{
    add(out, b"image ");
    add_number(out, set as u64);
    add(out, b" ");
    add(out, volume_name(scenario, volume));
    add(out, b" ");
    add_digest(out, digest);
    add(out, b"\n");
}

/// Appends how a writer stands.
fn add_writer_line(scenario: &Scenario, writer: u32, row: &WriterRow, out: &mut Text)
    requires range { writer < length scenario.now.writers }
    requires room { 120 ≤ out.old.spare }
    ensures bytes { out.new.bytes ≡ out.old.bytes
        ++ as_line (codes "writer " ++ writer_text scenario.now writer ++ spaced (state_text row.now) ++ codes " aborts " ++ decimal row.now.aborts) }
    ensures spare { out.old.spare ≤ out.new.spare + 120 }
{
    add(out, b"writer ");
    add(out, writer_name(scenario, writer));
    add(out, b" ");
    add_state(out, row);
    add(out, b" aborts ");
    add_number(out, row.aborts as u64);
    add(out, b"\n");
}

/// Appends a closing line.
pub fn add_closing(scenario: &Scenario, row: &ClosingRow, out: &mut Text)
    requires range { IsClosingRow scenario.now row.now }
    requires room { 160 ≤ out.old.spare }
    ensures { out.new.bytes ≡ out.old.bytes ++ closing_text scenario.now row.now }
{
    match row {
        ClosingRow::End { moves, clock } => add_end_line(out, *moves, *clock),
        ClosingRow::Volume {
            volume,
            used,
            digest,
        } => add_volume_line(scenario, *volume, *used, digest, out),
        ClosingRow::Image {
            set,
            volume,
            digest,
        } => add_image_line(scenario, *set, *volume, digest, out),
        ClosingRow::Writer { writer, row } => add_writer_line(scenario, *writer, row, out),
    }
}
