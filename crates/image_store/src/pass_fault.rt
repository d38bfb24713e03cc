use cow_volume::Cause;

/// Why a pass of an update failed.
#[derive(Clone, Copy, Debug, PartialEq, Eq)]
pub enum PassFault {
    /// The device that has the wanted blocks failed, and its count of faults rose.
    Input,
    /// The volume's device failed, and its count of faults rose.
    Volume,
    /// The diff area's device failed, and its count of faults rose.
    Area,
}

impl From<Cause> for PassFault {
    ghost use Rattle.std.specs.Prelude.{◌≡◌};
    ghost use Rattle.image_store.specs.Failing.{of_cause};

    ghost from_gives = { λ cause fault. fault ≡ of_cause cause };

    fn from(cause: Cause) -> PassFault {
        match cause {
            Cause::Area => PassFault::Area,
            Cause::Volume | Cause::NoSuchBlock => PassFault::Volume,
        }
    }
}
