use vss_play::PlayFault;

/// A run that a number draws, and how it came out.
#[derive(Drop)]
pub struct Drawn {
    pub number: u32,
    pub outcome: Result<String, PlayFault>,
}
