use crate::group_row::GroupRow;
use crate::lane::Lane;
use crate::volume_row::VolumeRow;
use crate::writer::Writer;

/// What a scenario is made of, beside its text.
#[derive(Drop)]
pub(crate) struct Parts {
    pub volumes: Vec<VolumeRow>,
    pub groups: Vec<GroupRow>,
    pub writers: Vec<Writer>,
    pub lanes: Vec<Lane>,
}
