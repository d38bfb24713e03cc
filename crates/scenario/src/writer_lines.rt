//! The lines that declare a writer and its answers.
ghost use Rattle.std.specs.Prelude.{◌≡◌, ◌<◌, ◌≤◌, [], false, Ok, None, length, is_some, IfOk, IfErr};
ghost use Rattle.scenario.specs.declared.entry.Entry.TheVariants as entry;
ghost use Rattle.scenario.specs.Fields.{bytes_of, span_of, IsPart, IsField, AreFields};
ghost use Rattle.scenario.specs.Names.{place_of};
ghost use Rattle.scenario.specs.SoFar.{answer_count};
ghost use Rattle.scenario.specs.Bounds.{IsShortPart};
ghost use Rattle.scenario.specs.Drafts.{AreCounts, by_reason, IsDraft, IsEntry, saying_in, told, IsUnread};
ghost use Rattle.scenario.specs.Declarations.{order_field, code_field, is_answered, nth_field, asked_of, row_for, answer_if, lost_if, veto_if, answer_of, writer_if, writer_of};
ghost use Rattle.scenario.specs.Built.{writer_said, answer_said};
ghost use Rattle.writer_meta.specs.Metadata.{meta_of};
ghost use Rattle.writer_meta.specs.Document.{IsAllowed};

use crate::asked::Asked;
use crate::cause::Cause;
use crate::declarations::{at_most, new_name};
use crate::draft::Draft;
use crate::entry::Entry;
use crate::expected::Expected;
use crate::field::{Field, number};
use crate::field_values::{declared_field, number_field};
use crate::fields::{Fields, bytes_of};
use crate::forms::{MOST_ANSWERS, MOST_NTH, forms, read, shape, value};
use crate::name_kind::NameKind;
use crate::quantity::Quantity;
use crate::reason::Reason;
use crate::span::Span;
use crate::unread::Unread;
use std::alloc::Global;
use vss_names::{MOST_WRITERS, Order, WriterError};
use writer_calls::{Answer, Scripted};
use writer_meta::{MetaFault, Metadata};

/// One writer more.
fn writer_if(draft: &Draft, name: Span, metadata: Metadata) -> Result<Entry, Cause>
    ensures value { told result ≡ writer_if draft.now.said name (meta_of metadata) }
    ensures same { IfOk result (λ e. e ≡ entry.Writer name metadata) }
    ensures few { IfOk result (λ e. length draft.now.said.writers < 64) }
{
    at_most(
        draft.count(NameKind::Writer),
        MOST_WRITERS as usize,
        "writers",
    )?;
    Ok(Entry::Writer(name, metadata))
}

/// A writer with its metadata.
pub(crate) fn writer_of_value(
    text: &[u8],
    draft: &Draft,
    name: Span,
    metadata: Metadata,
) -> Result<Entry, Cause>
    requires part { IsPart (length text.now) name }
    requires draft { IsDraft text.now draft.now }
    requires allowed { IsAllowed (meta_of metadata) }
    requires no_lane { draft.now.said.lanes ≡ [] }
    ensures value { told result ≡ writer_said text.now draft.now.said name (meta_of metadata) }
    ensures kept { IfOk result (IsEntry text.now draft.now) }
{
    let name = new_name(text, draft, NameKind::Writer, name)?;
    writer_if(draft, name, metadata)
}

/// `writer name rest`, the rest a metadata document.
#[tactic(auto, unfolding(crate::specs::Declarations::writer_of))]
pub(crate) fn writer_of(
    alloc: Global,
    text: &[u8],
    draft: &Draft,
    fields: Fields,
) -> Result<Entry, Unread>
    requires parts { AreFields (length text.now) fields }
    requires draft { IsDraft text.now draft.now }
    requires no_lane { draft.now.said.lanes ≡ [] }
    ensures read { IfOk result (λ entry. writer_of text.now draft.now.said fields ≡ Ok (saying_in entry)) }
    ensures kept { IfOk result (IsEntry text.now draft.now) }
    ensures refused { IfErr result (IsUnread (writer_of text.now draft.now.said fields)) }
{
    let (name, document) = forms!(Writer read [fields text draft])?;
    let metadata = match Metadata::from_json(alloc, bytes_of(text, document.span())) {
        Ok(metadata) => metadata,
        Err(MetaFault::OutOfMemory) => return Err(Unread::OutOfMemory),
        Err(_) => {
            let cause = Cause::field(Reason::BadDocument, document, Expected::Document);
            return Err(Unread::Bad(cause));
        }
    };
    let entry = writer_if(draft, name, metadata)?;
    Ok(entry)
}

/// An order by its name.
pub(crate) fn order_field(text: &[u8], field: Field) -> Result<Order, Cause>
    requires { IsField (length text.now) field }
    ensures { by_reason result ≡ order_field text.now (span_of field) }
{
    match Order::of_name(bytes_of(text, field.span())) {
        Some(order) => Ok(order),
        None => Err(Cause::field(Reason::UnknownWord, field, Expected::Order)),
    }
}

/// The code of a veto by its name.
pub(crate) fn code_field(text: &[u8], field: Field) -> Result<WriterError, Cause>
    requires { IsField (length text.now) field }
    ensures { by_reason result ≡ code_field text.now (span_of field) }
{
    match WriterError::of_name(bytes_of(text, field.span())) {
        Some(error) => Ok(error),
        None => Err(Cause::field(Reason::UnknownWord, field, Expected::Code)),
    }
}

/// Which order of its kind a line speaks of, where no line before it does.
pub(crate) fn nth_field(
    text: &[u8],
    draft: &Draft,
    writer: u32,
    order: Order,
    field: Field,
) -> Result<u32, Cause>
    requires part { IsField (length text.now) field }
    requires writer { writer < length draft.now.said.writers }
    ensures value { by_reason result ≡ nth_field text.now draft.now.said.writers writer order field }
    ensures least { IfOk result (λ n. 0 < n) }
    ensures most { IfOk result (λ n. n ≤ 2000) }
    ensures new { IfOk result (λ n. is_answered draft.now.said.writers writer order n ≡ false) }
{
    let nth = number_field(text, Quantity::Nth, 1, MOST_NTH, field)?;
    if draft.is_answered(writer, order, nth) {
        return Err(Cause::field(Reason::DoubleName, field, Expected::NewAnswer));
    }
    Ok(nth)
}

/// One row more.
pub(crate) fn answer_if(draft: &Draft, asked: Asked, answer: Option<Answer>) -> Result<Entry, Cause>
    requires { AreCounts draft.now.said draft.now.counts }
    ensures value { told result ≡ answer_if draft.now.said asked answer }
    ensures same { IfOk result (λ e. e ≡ entry.Answer asked.writer (row_for asked answer)) }
    ensures few { IfOk result (λ e. answer_count draft.now.said.writers < 10000) }
{
    at_most(draft.counts().answers, MOST_ANSWERS, "`answer` lines")?;
    Ok(Entry::Answer(
        asked.writer,
        Scripted {
            order: asked.order,
            nth: asked.nth,
            answer,
        },
    ))
}

/// A row of the script of the writer with this number.
#[tactic(auto, unfolding(crate::specs::Built::answer_said))]
pub(crate) fn answer_of_value(
    text: &[u8],
    draft: &Draft,
    writer: u32,
    row: Scripted,
) -> Result<Entry, Cause>
    requires draft { IsDraft text.now draft.now }
    requires no_lane { draft.now.said.lanes ≡ [] }
    ensures value { told result ≡ answer_said text.now draft.now.said writer row }
    ensures kept { IfOk result (IsEntry text.now draft.now) }
{
    let writer = declared_field(text, draft, NameKind::Writer, number(writer))?;
    let order = row.order;
    let nth = nth_field(text, draft, writer, order, number(row.nth))?;
    answer_if(draft, Asked { writer, order, nth }, row.answer)
}
