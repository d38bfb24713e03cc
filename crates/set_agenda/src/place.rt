ghost use Rattle.std.specs.Prelude.{◌≡◌, Some, None, drop, false};
ghost use Rattle.set_agenda.specs.declared.group.Group.TheVariants.{Orders};
ghost use Rattle.set_agenda.specs.declared.kind.Kind.TheVariants.{Snapshot};
ghost use Rattle.set_agenda.specs.Agenda.{at_level, is_snapshot, places, plain};
ghost use Rattle.set_agenda.specs.Cursor.{first_place};

use crate::group::Group;
use crate::kind::Kind;
use vss_names::{Level, Order};

/// Where an agenda stands: a group, and the level that it is for where there is one group a level.
#[derive(Clone, Copy, Debug, PartialEq, Eq)]
pub struct Place {
    pub group: Group,
    pub level: Option<Level>,
}

impl Place {
    /// The place of the group with this number in agendas of this kind, from 0; none after the last.
    pub fn of_number(kind: Kind, number: usize) -> Option<Place>
        ensures { result ≡ first_place (drop number (places kind)) }
    {
        match kind {
            Kind::Snapshot => of_snapshot(number),
            _ => of_lone_group(kind, number),
        }
    }
}

fn plain(group: Group) -> Option<Place>
    ensures { result ≡ Some (plain group) }
{
    Some(Place { group, level: None })
}

fn at_level(order: Order, level: Level) -> Option<Place>
    ensures { result ≡ Some (at_level order level) }
{
    Some(Place {
        group: Group::Orders(order),
        level: Some(level),
    })
}

/// All kinds but Snapshot have one group.
fn of_lone_group(kind: Kind, number: usize) -> Option<Place>
    requires { is_snapshot kind ≡ false }
    ensures { result ≡ first_place (drop number (places kind)) }
{
    if number > 0 {
        return None;
    }
    match kind {
        Kind::Gather => plain(Group::Orders(Order::Identify)),
        Kind::Prepare => plain(Group::Orders(Order::PrepareBackup)),
        Kind::Complete => plain(Group::Orders(Order::BackupComplete)),
        Kind::Snapshot => None,
    }
}

/// Writers freeze from the front end down to the system and thaw in the opposite order. The volumes are held for
/// the cut and the commits alone.
fn of_snapshot(number: usize) -> Option<Place>
    ensures { result ≡ first_place (drop number (places Snapshot)) }
{
    match number {
        0 => plain(Group::Orders(Order::PrepareSnapshot)),
        1 => at_level(Order::Freeze, Level::FrontEnd),
        2 => at_level(Order::Freeze, Level::BackEnd),
        3 => at_level(Order::Freeze, Level::System),
        4 => plain(Group::PreCommit),
        5 => plain(Group::Flush),
        6 => plain(Group::Hold),
        7 => plain(Group::Cut),
        8 => plain(Group::Commit),
        9 => plain(Group::Release),
        10 => plain(Group::PostCommit),
        11 => at_level(Order::Thaw, Level::System),
        12 => at_level(Order::Thaw, Level::BackEnd),
        13 => at_level(Order::Thaw, Level::FrontEnd),
        14 => plain(Group::Orders(Order::PostSnapshot)),
        _ => None,
    }
}
