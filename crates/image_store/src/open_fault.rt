use cow_volume::ResumeFault;
use diff_area::AreaFault;
use vss_catalog::CatalogFault;
use vss_names::OutOfMemory;

/// Why devices, an area's device and the bytes of a head are no store: what is first wrong, in this order. Volumes are counted from 0.
#[derive(Clone, Copy, Debug, PartialEq, Eq)]
pub enum OpenFault {
    /// The head ends before its catalog does, or goes on behind it.
    Length { found: u64 },
    /// The head does not begin with the eight letters.
    Letters,
    /// Its catalog is none.
    Catalog(CatalogFault),
    /// There are so many devices, and not one for each volume.
    Devices { found: u64 },
    /// This volume has the name of an earlier one.
    DoubleName { volume: u32 },
    /// An image of this volume is of a set above the last that was given.
    Set { volume: u32, set: u32 },
    /// The area's device has no area.
    Area(AreaFault),
    /// The area is of so many volumes, and the catalog of others.
    Volumes { found: u32 },
    /// The area, or the volume's device, has so many blocks of this volume, and the catalog another number.
    Blocks { volume: u32, found: u32 },
    /// The slot holds a copy for the image of this set, which the catalog does not have.
    Image { slot: u32, set: u32 },
    OutOfMemory,
}

impl From<CatalogFault> for OpenFault {
    ghost use Rattle.std.specs.Prelude.{◌≡◌};
    ghost use Rattle.image_store.specs.Opening.{of_catalog};

    ghost from_gives = { λ fault it. it ≡ of_catalog fault };

    fn from(fault: CatalogFault) -> OpenFault {
        match fault {
            CatalogFault::OutOfMemory => OpenFault::OutOfMemory,
            fault => OpenFault::Catalog(fault),
        }
    }
}

impl From<AreaFault> for OpenFault {
    ghost use Rattle.std.specs.Prelude.{◌≡◌};
    ghost use Rattle.image_store.specs.Opening.{of_area};

    ghost from_gives = { λ fault it. it ≡ of_area fault };

    fn from(fault: AreaFault) -> OpenFault {
        match fault {
            AreaFault::OutOfMemory => OpenFault::OutOfMemory,
            fault => OpenFault::Area(fault),
        }
    }
}

impl From<ResumeFault> for OpenFault {
    ghost use Rattle.std.specs.Prelude.{◌≡◌};
    ghost use Rattle.image_store.specs.Opening.{of_resume};

    ghost from_gives = { λ fault it. it ≡ of_resume fault };

    fn from(fault: ResumeFault) -> OpenFault {
        match fault {
            ResumeFault::NoImage { slot, set } => OpenFault::Image { slot, set },
            ResumeFault::OutOfMemory => OpenFault::OutOfMemory,
        }
    }
}

impl From<OutOfMemory> for OpenFault {
    ghost use Rattle.std.specs.Prelude.{◌≡◌};
    ghost use Rattle.image_store.specs.declared.open_fault.OpenFault.TheVariants.{OutOfMemory as memory};

    ghost from_gives = { λ _ fault. fault ≡ memory };

    fn from(_refused: OutOfMemory) -> OpenFault {
        OpenFault::OutOfMemory
    }
}
