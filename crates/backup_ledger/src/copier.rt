ghost use Rattle.std.specs.Prelude.{◌≡◌, ◌++◌, ◌∷◌, [], List, IfOk, OnOk, OnErr};
ghost use Rattle.backup_ledger.specs.declared.deed.Deed.{Deed};

use vss_names::Failed;

/// What moves the data of a backup: its steps outside of the model. Contracts see which of them were done, in order.
pub trait Copier: Drop {
    ghost done: { Self → List Deed };

    /// Brings the volumes near their files, while the applications run. The store's sets stay as they are.
    fn bring_near(&mut self) -> Result<(), Failed>
        ensures near { OnOk result (done self.new ≡ done self.old ++ Deed.Near ∷ []) }
        ensures none { OnErr result (done self.new ≡ done self.old) };

    /// Reads the next part of a volume's file, each block once, and puts aside what differs. Whether no block is left is answered. The store
    /// stays as it is.
    fn capture(&mut self, volume: u32) -> Result<bool, Failed>
        ensures read { IfOk result (λ is_last. done self.new ≡ done self.old ++ Deed.Read volume is_last ∷ []) }
        ensures none { OnErr result (done self.new ≡ done self.old) };

    /// That no file has changed since its first block was read.
    fn stood_still(&mut self) -> Result<(), Failed>
        ensures { done self.new ≡ done self.old };

    /// Keeps what was read as one set, and answers its number. If it fails no set is kept.
    fn keep(&mut self) -> Result<u32, Failed>
        ensures kept { IfOk result (λ set. done self.new ≡ done self.old ++ Deed.Kept set ∷ []) }
        ensures none { OnErr result (done self.new ≡ done self.old) };
}
