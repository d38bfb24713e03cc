ghost use Rattle.std.specs.Prelude.{◌≡◌, Some};
ghost use Rattle.std.specs.Fmt.{padded};
ghost use Rattle.vss_names.specs.Names.{IsLookUp};
ghost use Rattle.vss_names.specs.Order.{name_of, order_of_name};

use std::fmt;

/// What a writer is told to do. Each stands for an event of the SDK's `CVssWriter`; the names are this
/// project's own.
#[derive(Clone, Copy, Debug, PartialEq, Eq, Hash)]
pub enum Order {
    /// Tell which components there are.
    Identify,
    /// Make ready for a backup.
    PrepareBackup,
    /// Make ready for a freeze.
    PrepareSnapshot,
    /// Write nothing more until the thaw.
    Freeze,
    /// Write again.
    Thaw,
    /// The images are there.
    PostSnapshot,
    /// The requestor has its backup.
    BackupComplete,
}

impl Order {
    /// All orders, in the order in which a session sends them.
    pub const ALL: [Order; 7] = [
        Order::Identify,
        Order::PrepareBackup,
        Order::PrepareSnapshot,
        Order::Freeze,
        Order::Thaw,
        Order::PostSnapshot,
        Order::BackupComplete,
    ];

    /// The name in scenarios and reports.
    pub fn name(self) -> &'static str
        ensures { result.now ≡ name_of self }
    {
        match self {
            Order::Identify => "identify",
            Order::PrepareBackup => "prepare_backup",
            Order::PrepareSnapshot => "prepare_snapshot",
            Order::Freeze => "freeze",
            Order::Thaw => "thaw",
            Order::PostSnapshot => "post_snapshot",
            Order::BackupComplete => "backup_complete",
        }
    }

    /// The order with this name, if there is one.
    pub fn of_name(name: &[u8]) -> Option<Order>
        ensures value { result ≡ order_of_name name.now }
        ensures row { IsLookUp name_of name.now result }
    {
        Order::ALL
            .iter()
            .find(|order| order.name().as_bytes() == name)
            .copied()
    }
}

/// Writes the name.
impl fmt::Display for Order {
    ghost output = { λ order. Some (name_of order) };

    ghost styled_output = { λ order spec. Some (padded spec (name_of order)) };

    fn fmt<W: fmt::Write>(&self, f: &mut fmt::Formatter<W>) -> fmt::Result {
        f.pad(self.name())
    }
}
