ghost use Rattle.std.specs.Prelude.{◌≡◌};
ghost use Rattle.set_agenda.specs.Agenda.{is_orders, is_over_volumes, order_of};

use vss_names::Order;

/// A group of an agenda: an order to writers, or a step of the provider.
#[derive(Clone, Copy, Debug, PartialEq, Eq)]
pub enum Group {
    /// Each member is told this order and answers it.
    Orders(Order),
    PreCommit,
    /// Each volume of the set is flushed, in the order in which it was added.
    Flush,
    /// Writes to each volume of the set are held from here until its release.
    Hold,
    /// The one moment that all images of the set show: each volume's image stands from here on.
    Cut,
    /// The provider takes up the image of each volume. The volume is held, so the image shows the Cut.
    Commit,
    Release,
    PostCommit,
}

impl Group {
    /// The order that the group's members are told, where they are writers.
    pub fn order(self) -> Option<Order>
        ensures { result ≡ order_of self }
    {
        match self {
            Group::Orders(order) => Some(order),
            Group::PreCommit
            | Group::Flush
            | Group::Hold
            | Group::Cut
            | Group::Commit
            | Group::Release
            | Group::PostCommit => None,
        }
    }

    /// Whether the group's members are writers; else it is a step of the provider, or one for each volume.
    pub fn is_orders(self) -> bool
        ensures { result ≡ is_orders self }
    {
        match self {
            Group::Orders(_) => true,
            _ => false,
        }
    }

    /// Whether the provider makes one step for each volume.
    pub fn is_over_volumes(self) -> bool
        ensures { result ≡ is_over_volumes self }
    {
        match self {
            Group::Flush | Group::Hold | Group::Commit | Group::Release => true,
            _ => false,
        }
    }
}
