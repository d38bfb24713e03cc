//! The values of the fields of a line, after the lines before it.
ghost use Rattle.std.specs.Prelude.{◌≡◌, ◌<◌, ◌≤◌, true, false, length, IfOk, IfErr, OnOk, slice_get};
ghost use Rattle.scenario.specs.Plan.{blocks_in};
ghost use Rattle.scenario.specs.Fields.{IsField};
ghost use Rattle.scenario.specs.Drafts.{IsDraft, by_reason};
ghost use Rattle.scenario.specs.Declarations.{count_of, declared_at};
ghost use Rattle.scenario.specs.Ops.{number_at, number_below, block_at, is_word};

use crate::cause::Cause;
use crate::draft::Draft;
use crate::expected::Expected;
use crate::field::Field;
use crate::fields::bytes_of;
use crate::name_kind::NameKind;
use crate::numbers::{in_range, number_in};
use crate::quantity::Quantity;
use crate::reason::Reason;

/// The number that a field is, from `least` to `most`.
#[tactic(auto, unfolding(crate::specs::Ops::number_field))]
fn number_of(text: &[u8], least: u64, most: u64, field: Field) -> Result<u64, Reason>
    requires { IsField (length text.now) field }
    ensures value { result ≡ number_at text.now least most field }
    ensures least { IfOk result (λ n. least ≤ n) }
    ensures most { IfOk result (λ n. n ≤ most) }
{
    match field {
        Field::Text(span) => number_in(bytes_of(text, span), least, most),
        Field::Number(number) => in_range(number, least, most),
        Field::Word => Err(Reason::BadNumber),
    }
}

/// A number from `least` to `most`.
pub(crate) fn long_field(
    text: &[u8],
    quantity: Quantity,
    least: u64,
    most: u64,
    field: Field,
) -> Result<u64, Cause>
    requires { IsField (length text.now) field }
    ensures value { by_reason result ≡ number_at text.now least most field }
    ensures least { IfOk result (λ n. least ≤ n) }
    ensures most { IfOk result (λ n. n ≤ most) }
{
    match number_of(text, least, most, field) {
        Ok(number) => Ok(number),
        Err(reason) => Err(Cause::field(
            reason,
            field,
            Expected::Number {
                quantity,
                least,
                most,
            },
        )),
    }
}

/// A number from `low` to `high`.
pub(crate) fn number_field(
    text: &[u8],
    quantity: Quantity,
    low: u32,
    high: u32,
    field: Field,
) -> Result<u32, Cause>
    requires { IsField (length text.now) field }
    ensures value { by_reason result ≡ number_at text.now low high field }
    ensures least { IfOk result (λ n. low ≤ n) }
    ensures most { IfOk result (λ n. n ≤ high) }
{
    let number = long_field(text, quantity, u64::from(low), u64::from(high), field)?;
    Ok(number as u32)
}

/// The number of one of so many of this kind that were declared.
fn number_below(kind: NameKind, count: usize, field: Field) -> Result<u32, Cause>
    requires { count < 4294967296 }
    ensures value { by_reason result ≡ number_below count field }
    ensures below { IfOk result (λ n. n < count) }
{
    match field {
        Field::Number(number) => {
            if number < count as u64 {
                return Ok(number as u32);
            }
            Err(Cause::undeclared(field, kind))
        }
        _ => Err(Cause::undeclared(field, kind)),
    }
}

/// The number of what was declared.
#[tactic(auto, using(crate::proofs::Growing::count_names))]
pub(crate) fn declared_field(
    text: &[u8],
    draft: &Draft,
    kind: NameKind,
    field: Field,
) -> Result<u32, Cause>
    requires part { IsField (length text.now) field }
    requires draft { IsDraft text.now draft.now }
    ensures value { by_reason result ≡ declared_at text.now draft.now.said kind field }
    ensures in_range { IfOk result (λ n. n < count_of draft.now.said kind) }
{
    let Field::Text(span) = field else {
        return number_below(kind, draft.count(kind), field);
    };
    match draft.named(kind, bytes_of(text, span)) {
        Some(at) => Ok(at as u32),
        None => Err(Cause::undeclared(field, kind)),
    }
}

/// A block of a volume.
pub(crate) fn block_field(
    text: &[u8],
    draft: &Draft,
    volume: u32,
    field: Field,
) -> Result<u32, Cause>
    requires part { IsField (length text.now) field }
    requires draft { IsDraft text.now draft.now }
    requires volume { volume < length draft.now.said.volumes }
    ensures value { by_reason result ≡ block_at text.now draft.now.said.volumes volume field }
    ensures in_range { IfOk result (λ b. b < blocks_in (slice_get draft.now.said.volumes volume)) }
{
    let row = draft.volumes()[volume as usize];
    number_field(text, Quantity::Block(row.name), 0, row.blocks - 1, field)
}

/// Whether a field is this word.
pub(crate) fn is_word(text: &[u8], field: Field, name: &[u8]) -> bool
    requires { IsField (length text.now) field }
    ensures { result ≡ is_word text.now field name.now }
{
    match field {
        Field::Text(span) => bytes_of(text, span) == name,
        Field::Word => true,
        Field::Number(_) => false,
    }
}

/// A word that has to stand there.
pub(crate) fn word_field(text: &[u8], field: Field, word: &'static str) -> Result<(), Cause>
    requires { IsField (length text.now) field }
    ensures ok { OnOk result (is_word text.now field word.now ≡ true) }
    ensures other { IfErr result (λ cause. is_word text.now field word.now ≡ false) }
    ensures reason { IfErr result (λ cause. cause.reason ≡ Reason.UnknownWord) }
{
    if is_word(text, field, word.as_bytes()) {
        return Ok(());
    }
    Err(Cause::field(Reason::UnknownWord, field, Expected::Word))
}
