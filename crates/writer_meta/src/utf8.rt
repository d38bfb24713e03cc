//! Texts as JSON strings.
ghost use Rattle.std.specs.Prelude.{◌≡◌, IsUtf8};

use std::str;
use vss_names::Text;

/// The text as a string.
#[tactic(auto, using(crate::proofs::Laws::IsOk_utf8))]
pub(crate) fn str_of(text: &Text) -> &str
    requires { IsUtf8 text.now.bytes }
    ensures { result.now ≡ text.now.bytes }
{
    str::from_utf8(text.bytes()).unwrap()
}
