/// The most images of a volume.
pub const MOST_IMAGES: usize = 512;

/// The most volumes of a group, and of a scenario.
pub const MOST_VOLUMES: u32 = 128;

/// The most volumes of a set.
pub const MOST_VOLUMES_OF_A_SET: usize = 64;

/// The most blocks of a volume.
pub const MOST_BLOCKS: u32 = 65_536;

/// The most slots of a diff area.
pub const MOST_SLOTS: u32 = 65_536;

/// The most writers of a service.
pub const MOST_WRITERS: u32 = 64;

/// The most bytes of a name.
pub const MOST_NAME: u32 = 32;
