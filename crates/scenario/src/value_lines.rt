//! The lines that values are.
ghost use Rattle.std.specs.Prelude.{◌≡◌, IfOk, length, true};
ghost use Rattle.scenario.specs.Bounds.{IsBlockOf, IsRanged};
ghost use Rattle.scenario.specs.declared.field.Field.TheVariants.{Number};
ghost use Rattle.scenario.specs.declared.fields.Fields.TheVariants as fields;
ghost use Rattle.scenario.specs.Fields.{IsPart, AreFields};
ghost use Rattle.scenario.specs.Words.{declares};
ghost use Rattle.scenario.specs.Drafts.{IsDraft, IsEntry, by_reason, told};
ghost use Rattle.scenario.specs.Built.{of_block, of_part, op_in, line_said, op_said, value_said, IsValue};

use crate::cause::Cause;
use crate::declarations::declaration_of;
use crate::draft::Draft;
use crate::entries::{has_lane, line_if, may_stand, missed_place};
use crate::entry::Entry;
use crate::expected::Expected;
use crate::field::{Field, number};
use crate::field_values::{block_field, declared_field};
use crate::fields::Fields;
use crate::name_kind::NameKind;
use crate::op::Op;
use crate::ops::{op_of, read_of};
use crate::reason::Reason;
use crate::span::Span;
use crate::value::Value;
use crate::word::Word;
use crate::writer_lines::{answer_of_value, writer_of_value};

/// A line with this word that may not stand here.
fn no_place(draft: &Draft, word: Word) -> Cause
    ensures { result.reason ≡ Reason.Misplaced }
{
    Cause::line(Reason::Misplaced, missed_place(draft, word))
}

/// What a line of values says, by its word and its fields.
fn entry_of_line(
    text: &[u8],
    draft: &Draft,
    line: u32,
    word: Word,
    fields: Fields,
) -> Result<Entry, Cause>
    requires parts { AreFields (length text.now) fields }
    requires declares { declares word ≡ true }
    requires draft { IsDraft text.now draft.now }
    ensures value { told result ≡ line_said text.now draft.now.said line word fields }
    ensures kept { IfOk result (IsEntry text.now draft.now) }
{
    if !may_stand(draft, word) {
        return Err(no_place(draft, word));
    }
    declaration_of(text, draft, word, fields)
}

/// Two numbers as fields.
fn two(a: u32, b: u32) -> Fields
    ensures { result ≡ fields.Two (Number a) (Number b) }
{
    Fields::Two(number(a), number(b))
}

/// A line that writes this block of this volume.
#[tactic(auto, unfolding(crate::specs::Built::of_block))]
fn of_block(text: &[u8], draft: &Draft, volume: u32, block: u32, op: Op) -> Result<Op, Cause>
    requires { IsDraft text.now draft.now }
    ensures value { by_reason result ≡ of_block text.now draft.now.said.volumes volume block op }
    ensures same { IfOk result (λ o. o ≡ op) }
    ensures ranged { IfOk result (λ o. IsBlockOf draft.now.said.volumes volume block) }
{
    let volume = declared_field(text, draft, NameKind::Volume, number(volume))?;
    block_field(text, draft, volume, number(block))?;
    Ok(op)
}

/// The line that chooses a component by a part of the text.
#[tactic(auto, unfolding(crate::specs::Built::of_part))]
fn of_part(text: &[u8], full: Span, op: Op) -> Result<Op, Cause>
    ensures value { by_reason result ≡ of_part text.now full op }
    ensures same { IfOk result (λ o. o ≡ op) }
    ensures part { IfOk result (λ o. IsPart (length text.now) full) }
{
    if full.start < full.end && full.end as usize <= text.len() {
        return Ok(op);
    }
    Err(Cause::no_form())
}

/// A line of a lane whose numbers are in range.
#[tactic(auto, unfolding(crate::specs::Built::op_in, crate::specs::Ops::op_of))]
fn op_in(text: &[u8], draft: &Draft, op: Op) -> Result<Op, Cause>
    requires { IsDraft text.now draft.now }
    ensures value { by_reason result
        ≡ op_in text.now draft.now.said.volumes draft.now.said.writers op }
    ensures ranged { IfOk result (IsRanged (length text.now)
        draft.now.said.volumes (length draft.now.said.writers)) }
{
    match op {
        Op::WriteFill { volume, block, .. } | Op::WriteStamp { volume, block, .. } => {
            of_block(text, draft, volume, block, op)
        }
        Op::Read { volume, block } => read_of(text, draft, two(volume, block)),
        Op::ImageDigest { set, volume } => op_of(text, draft, Word::Image, two(set, volume)),
        Op::ImageBlock { set, volume, block } => {
            let fields = Fields::Three(number(set), number(volume), number(block));
            op_of(text, draft, Word::Image, fields)
        }
        Op::Query { volume } => op_of(text, draft, Word::Query, Fields::One(number(volume))),
        Op::Properties { set, volume } => op_of(text, draft, Word::Properties, two(set, volume)),
        Op::Revert { set, volume } => op_of(text, draft, Word::Revert, two(set, volume)),
        Op::DeleteSet { set } => op_of(text, draft, Word::Delete, Fields::One(number(set))),
        Op::DeleteImage { set, volume } => op_of(text, draft, Word::Delete, two(set, volume)),
        Op::Tick { ticks } => op_of(text, draft, Word::Tick, Fields::One(number(ticks))),
        Op::Disable { writer } => op_of(text, draft, Word::Disable, Fields::One(number(writer))),
        Op::Add { volume } => op_of(text, draft, Word::Add, Fields::One(number(volume))),
        Op::Component { writer, full } => {
            declared_field(text, draft, NameKind::Writer, number(writer))?;
            of_part(text, full, op)
        }
        Op::Begin { .. }
        | Op::Gather
        | Op::Document
        | Op::Start
        | Op::Prepare
        | Op::Snapshot
        | Op::Await
        | Op::Status
        | Op::Complete
        | Op::Abort
        | Op::End => Ok(op),
    }
}

/// A line of the lane at hand.
fn entry_of_op(text: &[u8], draft: &Draft, line: u32, op: Op) -> Result<Entry, Cause>
    requires { IsDraft text.now draft.now }
    ensures value { told result ≡ op_said text.now draft.now.said line op }
    ensures kept { IfOk result (IsEntry text.now draft.now) }
{
    if !has_lane(draft) {
        return Err(Cause::line(Reason::Misplaced, Expected::Lane));
    }
    let op = op_in(text, draft, op)?;
    line_if(draft, line, op)
}

/// What a value says, with a name or a full name at this part of the text.
pub(crate) fn entry_of_value(
    text: &[u8],
    draft: &Draft,
    line: u32,
    name: Span,
    value: Value,
) -> Result<Entry, Cause>
    requires part { IsPart (length text.now) name }
    requires draft { IsDraft text.now draft.now }
    requires value { IsValue value }
    ensures value { told result ≡ value_said text.now draft.now.said line name value }
    ensures kept { IfOk result (IsEntry text.now draft.now) }
{
    match value {
        Value::Area { slots } => {
            let fields = Fields::Two(Field::Text(name), number(slots));
            entry_of_line(text, draft, line, Word::Area, fields)
        }
        Value::OwnVolume { blocks, slots } => {
            let fields = Fields::Three(Field::Text(name), number(blocks), number(slots));
            entry_of_line(text, draft, line, Word::Volume, fields)
        }
        Value::SharedVolume { blocks, area } => {
            let fields = Fields::Four(Field::Text(name), number(blocks), Field::Word, number(area));
            entry_of_line(text, draft, line, Word::Volume, fields)
        }
        Value::Writer(metadata) => {
            if !may_stand(draft, Word::Writer) {
                return Err(no_place(draft, Word::Writer));
            }
            writer_of_value(text, draft, name, metadata)
        }
        Value::Answer { writer, row } => {
            if !may_stand(draft, Word::Answer) {
                return Err(no_place(draft, Word::Answer));
            }
            answer_of_value(text, draft, writer, row)
        }
        Value::Lane { acts_as: None } => {
            let fields = Fields::One(Field::Text(name));
            entry_of_line(text, draft, line, Word::Lane, fields)
        }
        Value::Lane {
            acts_as: Some(writer),
        } => {
            let fields = Fields::Three(Field::Text(name), Field::Word, number(writer));
            entry_of_line(text, draft, line, Word::Lane, fields)
        }
        Value::Line(op) => entry_of_op(text, draft, line, op),
        Value::Component { writer } => {
            let op = Op::Component { writer, full: name };
            entry_of_op(text, draft, line, op)
        }
    }
}
