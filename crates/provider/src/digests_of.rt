/// What is digested: the volumes alone, or each with its images.
#[derive(Clone, Copy, Debug)]
pub enum DigestsOf {
    Volumes,
    VolumesAndImages,
}
