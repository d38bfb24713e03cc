ghost use Rattle.std.specs.Prelude.{◌≡◌, ◌<◌, ◌≤◌, length, slice_get, Some, IsTrue};
ghost use Rattle.vss_catalog.specs.Entries.{are_names, bytes_in};

use vss_names::{MOST_NAME, Text, is_name};

/// Whether each of these is a name.
pub fn are_names(names: &[Text]) -> bool
    ensures { result ≡ are_names names.now }
{
    names.iter().all(|name| is_name(name.bytes()))
}

/// One of these texts.
fn text_at(texts: &[Text], at: usize) -> &Text
    requires { at < length texts.now }
    ensures { slice_get texts.now at ≡ Some result.now }
{
    &texts[at]
}

/// The bytes of one of these names.
pub fn name_at(names: &[Text], at: usize) -> &[u8]
    requires names { IsTrue (are_names names.now) }
    requires within { at < length names.now }
    ensures bytes { result.now ≡ bytes_in (slice_get names.now at) }
    ensures short { length result.now ≤ MOST_NAME }
{
    text_at(names, at).bytes()
}
