//! The text of a generated scenario.

ghost use Rattle.std.specs.Prelude.{◌≡◌, ◌<◌, ◌++◌, codes, IfOk, OnOk};
ghost use Rattle.generated.specs.ScenarioText.{as_line, as_lines, declarations, set_lines, acting, lane_text, write_text, writes_text, lanes_text, gen_text};

use crate::draws::Draws;
use crate::lane_write::LaneWrite;
use crate::pieces::add_number;
use std::alloc::Global;
use vss_names::{OutOfMemory, Text};

/// More bytes than a generated scenario has, so that memory is asked for once.
const MOST_BYTES: usize = 131_072;

/// Appends what is declared.
fn add_declarations(out: &mut Text) -> Result<(), OutOfMemory>
    ensures { OnOk result (out.new.bytes ≡ out.old.bytes ++ as_lines declarations) }
{
    out.add(
        b"scenario 1
volume v0 256 1024
volume v1 256 1024
volume v2 256 1024
volume v3 256 1024
volume v4 256 1024
volume v5 256 1024
volume v6 256 1024
volume v7 256 1024
writer sys {\"class\":\"11111111-1111-4111-8111-111111111111\",\"components\":[{\"name\":\"main\",\"path\":\"\",\"selectable\":true,\"type\":2}],\"level\":1,\"name\":\"System\",\"source\":3,\"usage\":2}
writer db {\"class\":\"22222222-2222-4222-8222-222222222222\",\"components\":[{\"name\":\"main\",\"path\":\"\",\"selectable\":true,\"type\":1}],\"level\":2,\"name\":\"Database\",\"source\":1,\"usage\":3}
writer web {\"class\":\"33333333-3333-4333-8333-333333333333\",\"components\":[{\"name\":\"main\",\"path\":\"\",\"selectable\":true,\"type\":2}],\"level\":3,\"name\":\"Web\",\"source\":3,\"usage\":3}
",
    )
}

/// Appends the lines that make one set.
fn add_set(out: &mut Text) -> Result<(), OutOfMemory>
    ensures { OnOk result (out.new.bytes ≡ out.old.bytes ++ as_lines set_lines) }
{
    out.add(
        b"begin 9
gather
await
component sys main
component db main
component web main
start
add v0
add v1
add v2
add v3
add v4
add v5
add v6
add v7
prepare
await
snapshot
await
complete
await
end
",
    )
}

/// Appends one write of a lane.
fn add_write(out: &mut Text, write: LaneWrite) -> Result<(), OutOfMemory>
    ensures { OnOk result (out.new.bytes ≡ out.old.bytes ++ write_text write.volume write.block write.stamp) }
{
    out.add(b"write v")?;
    add_number(out, write.volume)?;
    out.add(b" ")?;
    add_number(out, write.block)?;
    out.add(b" stamp ")?;
    add_number(out, write.stamp)?;
    out.add(b"\n")
}

/// Appends the writes of a lane.
#[tactic(auto, unfolding(crate::specs::ScenarioText::writes_text))]
fn add_writes(out: &mut Text, number: u32, lane: u32) -> Result<(), OutOfMemory>
    requires { lane < 16 }
    ensures { OnOk result (out.new.bytes ≡ out.old.bytes ++ writes_text number lane) }
{
    let mut draws = Draws::new(number, lane);
    for _k in 0..200u32 {
        add_write(out, draws.next())?;
    }
    Ok(())
}

/// As whom a lane that writes acts.
fn acting(lane: u32) -> &'static [u8]
    ensures { result.now ≡ acting lane }
{
    if lane < 4 {
        b" as web"
    } else if lane < 7 {
        b" as db"
    } else if lane < 10 {
        b" as sys"
    } else {
        b""
    }
}

/// Appends a lane that writes.
fn add_lane(out: &mut Text, number: u32, lane: u32) -> Result<(), OutOfMemory>
    requires { lane < 16 }
    ensures { OnOk result (out.new.bytes ≡ out.old.bytes ++ lane_text number lane) }
{
    out.add(b"lane l")?;
    add_number(out, lane)?;
    out.add(acting(lane))?;
    out.add(b"\n")?;
    add_writes(out, number, lane)?;
    Ok(())
}

/// Appends the lanes that write.
fn add_lanes(out: &mut Text, number: u32) -> Result<(), OutOfMemory>
    ensures { OnOk result (out.new.bytes ≡ out.old.bytes ++ lanes_text number) }
{
    for lane in 1..16 {
        add_lane(out, number, lane)?;
    }
    Ok(())
}

/// The scenario of a number: eight volumes of 256 blocks with 1,024 slots each, a writer of each level, a lane that makes
/// four sets over all volumes, and fifteen lanes of two hundred writes, nine of which act as a writer. Memory is asked for
/// before anything is written. (This project's own.)
pub fn gen_scenario(alloc: Global, number: u32) -> Result<Text, OutOfMemory>
    ensures { IfOk result (λ text. text.bytes ≡ gen_text number) }
{
    let mut out = Text::new(alloc);
    out.reserve(MOST_BYTES)?;
    add_declarations(&mut out)?;
    out.add(b"lane l0\n")?;
    add_set(&mut out)?;
    add_set(&mut out)?;
    add_set(&mut out)?;
    add_set(&mut out)?;
    add_lanes(&mut out, number)?;
    Ok(out)
}
