ghost use Rattle.std.specs.Prelude.{◌≡◌, ◌+◌, ◌-◌, ◌<◌, ◌^◌};
ghost use Rattle.writer_calls.specs.Mailbox.{count_of, one_more, total};

use vss_names::Order;

/// How many orders of each kind a writer was sent.
#[derive(Clone, Copy, Debug, PartialEq, Eq)]
pub struct OrderCounts {
    pub identify: u32,
    pub prepare_backup: u32,
    pub prepare_snapshot: u32,
    pub freeze: u32,
    pub thaw: u32,
    pub post_snapshot: u32,
    pub backup_complete: u32,
}

impl OrderCounts {
    /// How many orders of this kind there were.
    pub fn of(&self, order: Order) -> u32
        ensures { result ≡ count_of order self.now }
    {
        match order {
            Order::Identify => self.identify,
            Order::PrepareBackup => self.prepare_backup,
            Order::PrepareSnapshot => self.prepare_snapshot,
            Order::Freeze => self.freeze,
            Order::Thaw => self.thaw,
            Order::PostSnapshot => self.post_snapshot,
            Order::BackupComplete => self.backup_complete,
        }
    }

    /// How many orders there were of all kinds.
    pub fn total(&self) -> u64
        ensures { result ≡ total self.now }
    {
        u64::from(self.identify)
            + u64::from(self.prepare_backup)
            + u64::from(self.prepare_snapshot)
            + u64::from(self.freeze)
            + u64::from(self.thaw)
            + u64::from(self.post_snapshot)
            + u64::from(self.backup_complete)
    }

    /// Counts one order more.
    pub fn add(&mut self, order: Order)
        requires { total self.old < 2 ^ 32 - 1 }
        ensures after { self.new ≡ one_more order self.old }
        ensures total { total self.new ≡ total self.old + 1 }
    {
        match order {
            Order::Identify => self.identify += 1,
            Order::PrepareBackup => self.prepare_backup += 1,
            Order::PrepareSnapshot => self.prepare_snapshot += 1,
            Order::Freeze => self.freeze += 1,
            Order::Thaw => self.thaw += 1,
            Order::PostSnapshot => self.post_snapshot += 1,
            Order::BackupComplete => self.backup_complete += 1,
        }
    }
}
