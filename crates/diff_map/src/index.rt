ghost use Rattle.std.specs.Prelude.{◌≡◌};
ghost use Rattle.diff_map.specs.Rules.{next_older};

/// The greatest of the ascending images that is below this set.
pub fn next_older(images: &[u32], set: u32) -> Option<u32>
    ensures { result ≡ next_older images.now set }
{
    let mut older = None;
    for image in images {
        if *image < set {
            older = Some(*image);
        }
    }
    older
}
