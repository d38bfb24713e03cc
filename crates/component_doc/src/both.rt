//! Two tests in one.
ghost use Rattle.std.specs.Prelude.{◌≡◌, ◌&&◌};

pub(crate) fn are_both(first: bool, second: bool) -> bool
    ensures { result ≡ (first && second) }
{
    first && second
}
