//! The lines before the lanes, but for writers, and the line that begins a lane.
ghost use Rattle.std.specs.Prelude.{◌≡◌, ◌<◌, ◌≤◌, ℕ, true, false, None, Some, length, slice_get, is_some, IfOk, IfErr, OnOk, IsTrue};
ghost use Rattle.scenario.specs.declared.entry.Entry.TheVariants as entry;
ghost use Rattle.scenario.specs.Words.{declares};
ghost use Rattle.scenario.specs.Fields.{bytes_of, IsPart, IsField, AreFields};
ghost use Rattle.scenario.specs.Names.{place_of};
ghost use Rattle.scenario.specs.SoFar.{group_for};
ghost use Rattle.scenario.specs.Bounds.{IsShortPart};
ghost use Rattle.scenario.specs.Drafts.{names_of, by_reason, IsDraft, IsEntry, told};
ghost use Rattle.scenario.specs.Grammar.{has_lane, may_stand, row_of};
ghost use Rattle.scenario.specs.Declarations.{name_field, new_name, has_space, area_field, lane_if};

use crate::area_row::AreaRow;
use crate::asked::Asked;
use crate::cause::Cause;
use crate::draft::Draft;
use crate::entry::Entry;
use crate::expected::Expected;
use crate::field::Field;
use crate::field_values::{declared_field, number_field, word_field};
use crate::fields::{Fields, bytes_of};
use crate::forms::{MOST_AREAS, MOST_LANES, MOST_SIZE, by_word, forms, read, shape, value};
use crate::group_row::GroupRow;
use crate::name_kind::NameKind;
use crate::quantity::Quantity;
use crate::reason::Reason;
use crate::span::Span;
use crate::volume_row::VolumeRow;
use crate::word::Word;
use crate::writer_lines::{answer_if, code_field, nth_field, order_field};
use vss_names::{MOST_BLOCKS, MOST_SLOTS, MOST_VOLUMES, is_name};
use writer_calls::Answer;

/// A new name, where `taken` is the place of the one of its kind that has it.
#[tactic(auto, unfolding(crate::specs::Declarations::name_field))]
fn name_field(text: &[u8], kind: NameKind, taken: Option<usize>, span: Span) -> Result<Span, Cause>
    requires { IsPart (length text.now) span }
    ensures value { by_reason result ≡ name_field text.now (is_some taken) span }
    ensures short { IfOk result (IsShortPart (length text.now)) }
    ensures same { IfOk result (λ name. name ≡ span) }
    ensures new { IfOk result (λ name. taken ≡ None) }
{
    let expected = Expected::NewName { kind, taken };
    if !is_name(bytes_of(text, span)) {
        return Err(Cause::field(Reason::BadName, Field::Text(span), expected));
    }
    if taken.is_some() {
        return Err(Cause::field(Reason::DoubleName, Field::Text(span), expected));
    }
    Ok(span)
}

/// The name of one of this kind that is new.
#[tactic(auto, using(crate::proofs::Growing::new_name_is))]
pub(crate) fn new_name(
    text: &[u8],
    draft: &Draft,
    kind: NameKind,
    name: Span,
) -> Result<Span, Cause>
    requires part { IsPart (length text.now) name }
    requires draft { IsDraft text.now draft.now }
    ensures value { by_reason result ≡ new_name text.now draft.now.said kind name }
    ensures short { IfOk result (IsShortPart (length text.now)) }
    ensures new { IfOk result (λ n. place_of (bytes_of text.now n) (names_of draft.now.names kind) ≡ None) }
{
    let taken = draft.named(kind, bytes_of(text, name));
    name_field(text, kind, taken, name)
}

/// Goes on where there may be one more of these.
pub(crate) fn at_most(count: usize, most: usize, what: &'static str) -> Result<(), Cause>
    ensures ok { OnOk result (count < most) }
    ensures full { IfErr result (λ cause. most ≤ count) }
    ensures reason { IfErr result (λ cause. cause.reason ≡ Reason.TooMany) }
{
    if count >= most {
        return Err(Cause::too_many(what, most as u64));
    }
    Ok(())
}

/// Goes on where so many blocks and slots more have their place.
pub(crate) fn space_for(draft: &Draft, size: u32) -> Result<(), Cause>
    requires { draft.now.said.size ≤ 131072 }
    ensures ok { OnOk result (has_space draft.now.said size ≡ true) }
    ensures full { IfErr result (λ cause. has_space draft.now.said size ≡ false) }
    ensures reason { IfErr result (λ cause. cause.reason ≡ Reason.TooMany) }
{
    if draft.size() + u64::from(size) > MOST_SIZE {
        let what = "blocks of all volumes and slots of all areas together";
        return Err(Cause::too_many(what, MOST_SIZE));
    }
    Ok(())
}

/// A declared area, with its number.
#[tactic(auto, unfolding(crate::specs::Declarations::area_field))]
pub(crate) fn area_field(text: &[u8], draft: &Draft, field: Field) -> Result<(u32, AreaRow), Cause>
    requires part { IsField (length text.now) field }
    requires draft { IsDraft text.now draft.now }
    ensures value { by_reason result ≡ area_field text.now draft.now.said.areas field }
    ensures found { IfOk result (λ p. slice_get draft.now.said.areas p.0 ≡ Some p.1) }
    ensures few_slots { IfOk result (λ p. p.1.slots ≤ 65536) }
{
    let a = declared_field(text, draft, NameKind::Area, field)?;
    Ok((a, draft.areas()[a as usize]))
}

/// The number of a declared area's group: the one that it has, or the next number.
pub(crate) fn group_for(draft: &Draft, area: AreaRow) -> u32
    requires { length draft.now.said.groups ≤ 128 }
    ensures { result ≡ group_for draft.now.said.groups area }
{
    match area.group {
        Some(group) => group,
        None => draft.groups() as u32,
    }
}

/// One lane more.
pub(crate) fn lane_if(draft: &Draft, name: Span, whom: Option<u32>) -> Result<Entry, Cause>
    ensures value { told result ≡ lane_if draft.now.said name whom }
    ensures same { IfOk result (λ e. e ≡ entry.Lane name whom) }
    ensures few { IfOk result (λ e. length draft.now.said.lanes < 64) }
{
    at_most(draft.count(NameKind::Lane), MOST_LANES, "lanes")?;
    Ok(Entry::Lane(name, whom))
}

/// What a line says that may stand here, and declares or begins a lane.
#[tactic(auto, unfolding(crate::specs::Grammar::row_of, crate::specs::Declarations::opening_of, crate::specs::Declarations::area_of, crate::specs::Declarations::own_volume_of, crate::specs::Declarations::shared_volume_of, crate::specs::Declarations::asked_of, crate::specs::Declarations::answer_of, crate::specs::Declarations::free_lane_of, crate::specs::Declarations::acting_lane_of))]
pub(crate) fn declaration_of(
    text: &[u8],
    draft: &Draft,
    word: Word,
    fields: Fields,
) -> Result<Entry, Cause>
    requires parts { AreFields (length text.now) fields }
    requires draft { IsDraft text.now draft.now }
    requires placed { IsTrue (may_stand draft.now.said.opened (has_lane draft.now.said.lanes) word) }
    requires declares { declares word ≡ true }
    ensures value { (number : ℕ) → told result ≡ row_of text.now draft.now.said number word fields }
    ensures kept { IfOk result (IsEntry text.now draft.now) }
{
    by_word!(word read [fields text draft] Scenario Area Volume Answer Lane;
        _ => Err(Cause::no_form()),
    )
}
