//! Pairs in order of writers and then of components.
ghost use Rattle.std.specs.Prelude.{◌≡◌, ◌&&◌, ◌<◌, ◌≤◌, ◌++◌, ◌∷◌, take, drop, length, OnOk, OnErr};
ghost use Rattle.std.specs.List.{list_all};
ghost use Rattle.component_doc.specs.Over.{metas_of, is_ascending, is_before_next, names_selectable};
ghost use Rattle.component_doc.specs.Selection.{HaveSame, Named, has_pair, is_taker, with_pair};

use crate::both::are_both;
use crate::metas::Metas;
use crate::pair::Pair;
use vss_names::OutOfMemory;

/// Whether the pair is one of these.
pub(crate) fn has(pairs: &[Pair], pair: Pair) -> bool
    ensures { result ≡ has_pair pairs.now pair.writer pair.component }
{
    pairs.contains(&pair)
}

/// Whether one of the pairs is of the writer.
pub(crate) fn has_writer(pairs: &[Pair], writer: u32) -> bool
    ensures { result ≡ is_taker (Named pairs.now) writer }
{
    pairs.iter().any(|p| p.writer == writer)
}

/// Some of the pairs, and all of the writer among them: from its first one to its last one.
pub(crate) fn around_writer(pairs: &[Pair], writer: u32) -> &[Pair]
    ensures { HaveSame writer result.now pairs.now }
{
    up_to_last(from_first(pairs, writer), writer)
}

/// The pairs from the first one of the writer on.
fn from_first(pairs: &[Pair], writer: u32) -> &[Pair]
    ensures { HaveSame writer result.now pairs.now }
{
    for (i, pair) in pairs.iter().enumerate() {
        if pair.writer == writer {
            return &pairs[i..];
        }
    }
    &[]
}

/// The pairs up to the last one of the writer.
fn up_to_last(pairs: &[Pair], writer: u32) -> &[Pair]
    ensures { HaveSame writer result.now pairs.now }
{
    let mut end = 0;
    for (i, pair) in pairs.iter().enumerate() {
        if pair.writer == writer {
            end = i + 1;
        }
    }
    &pairs[..end]
}

/// Whether each of the pairs names a selectable component, in order of writers and then of components.
pub(crate) fn are_over(pairs: &[Pair], metas: &Metas) -> bool
    ensures { result ≡ (list_all (names_selectable (metas_of metas.now)) pairs.now && is_ascending pairs.now) }
{
    are_both(are_selectable(pairs, metas), are_ascending(pairs))
}

/// Whether each of the pairs names a selectable component.
fn are_selectable(pairs: &[Pair], metas: &Metas) -> bool
    ensures { result ≡ list_all (names_selectable (metas_of metas.now)) pairs.now }
{
    pairs.iter().all(|pair| metas.names_selectable(*pair))
}

/// Whether each of the pairs comes before those behind it.
fn are_ascending(pairs: &[Pair]) -> bool
    ensures { result ≡ is_ascending pairs.now }
{
    for (i, _pair) in pairs.iter().enumerate() {
        if !is_before_next(pairs, i) {
            return false;
        }
    }
    true
}

/// Whether the pair at this place comes before the next one, if there is a next one.
fn is_before_next(pairs: &[Pair], i: usize) -> bool
    requires { i < length pairs.now }
    ensures { result ≡ is_before_next (drop i pairs.now) }
{
    if i + 1 == pairs.len() {
        return true;
    }
    pairs[i].comes_before(pairs[i + 1])
}

/// The place of a pair in the order of writers and then of components.
fn place_of(pairs: &[Pair], pair: Pair) -> usize
    ensures within { result ≤ length pairs.now }
    ensures place { with_pair pair pairs.now ≡ take result pairs.now ++ pair ∷ drop result pairs.now }
{
    for (i, p) in pairs.iter().enumerate() {
        if pair.comes_before(*p) {
            return i;
        }
    }
    pairs.len()
}

/// Puts a pair at its place in the order.
pub(crate) fn insert(pairs: &mut Vec<Pair>, pair: Pair) -> Result<(), OutOfMemory>
    ensures ok { OnOk result (pairs.new.items ≡ with_pair pair pairs.old.items) }
    ensures err { OnErr result (pairs.new.items ≡ pairs.old.items) }
{
    let place = place_of(pairs, pair);
    pairs.insert(place, pair)?;
    Ok(())
}
