use vss_names::OutOfMemory;

/// Why no store was made.
#[derive(Clone, Copy, Debug, PartialEq, Eq)]
pub enum NewFault {
    /// There is not one name for each volume, one is none, or two are the same.
    Names,
    OutOfMemory,
}

impl From<OutOfMemory> for NewFault {
    ghost use Rattle.std.specs.Prelude.{◌≡◌};
    ghost use Rattle.image_store.specs.declared.new_fault.NewFault.TheVariants.{OutOfMemory as memory};

    ghost from_gives = { λ _ fault. fault ≡ memory };

    fn from(_refused: OutOfMemory) -> NewFault {
        NewFault::OutOfMemory
    }
}
