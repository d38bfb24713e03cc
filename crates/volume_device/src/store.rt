use vss_names::Text;

/// Where devices are kept.
#[derive(Debug, Drop)]
pub enum Store {
    Memory,
    /// As files in the folder of this path, each named as its device.
    Folder(Text),
}
