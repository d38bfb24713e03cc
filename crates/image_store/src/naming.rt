//! The names of a store's volumes.

ghost use Rattle.std.specs.Prelude.{◌≡◌, false, length, IfSome, IsNone, IsTrue};
ghost use Rattle.image_store.specs.StoreValue.{AreApart, AreOthers, IsNamed};

use vss_names::Text;

/// The place of the first of these names that is this one.
pub fn first_of(names: &[Text], name: &[u8]) -> Option<usize>
    ensures named { IfSome result (λ v. IsNamed names.now name.now v) }
    ensures none { IsNone result → AreOthers names.now name.now (length names.now) }
{
    for place in 0..names.len() {
        if names[place].bytes() == name {
            return Some(place);
        }
    }
    None
}

/// Whether two of these names are the same.
pub fn has_double(names: &[Text]) -> bool
    ensures yes { IsTrue result → AreApart names.now → ⊥ }
    ensures no { result ≡ false → AreApart names.now }
{
    for place in 0..names.len() {
        if first_of(names, names[place].bytes()) != Some(place) {
            return true;
        }
    }
    false
}
