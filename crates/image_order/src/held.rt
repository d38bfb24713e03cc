use vss_names::Text;

/// What a name of a folder in memory has.
#[derive(Drop)]
pub enum Held {
    Nothing,
    /// A file of these bytes, which were not synced. After a loss of power anything may be found of it.
    Written(Text),
    /// A file whose bytes last.
    Synced(Text),
}
