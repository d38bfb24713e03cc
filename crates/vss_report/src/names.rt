//! The names of a scenario, each of at most 32 bytes.

ghost use Rattle.std.specs.Prelude.{◌≡◌, ◌≤◌, ◌<◌, length};
ghost use Rattle.vss_report.specs.Words.{volume_text, writer_text, lane_text};

use scenario::Scenario;

/// The name of a volume.
pub fn volume_name(scenario: &Scenario, volume: u32) -> &[u8]
    requires { volume < length scenario.now.volumes }
    ensures text { result.now ≡ volume_text scenario.now volume }
    ensures short { length result.now ≤ 32 }
{
    let _count = scenario.volumes();
    let row = scenario.volume(volume);
    scenario.token(row.name)
}

/// The name of a lane.
pub fn lane_name(scenario: &Scenario, lane: u32) -> &[u8]
    requires { lane < length scenario.now.lanes }
    ensures text { result.now ≡ lane_text scenario.now lane }
    ensures short { length result.now ≤ 32 }
{
    let _count = scenario.lanes();
    scenario.token(scenario.lane_name(lane))
}

/// The name of a writer.
pub fn writer_name(scenario: &Scenario, writer: u32) -> &[u8]
    requires { writer < length scenario.now.writers }
    ensures text { result.now ≡ writer_text scenario.now writer }
    ensures short { length result.now ≤ 32 }
{
    let _count = scenario.writers();
    scenario.token(scenario.writer_name(writer))
}
