//! What one line says after the lines before it.
ghost use Rattle.std.specs.Prelude.{◌≡◌, ◌<◌, ◌≤◌, true, false, Ok, length, IfOk, IfErr, IsTrue};
ghost use Rattle.std.specs.List.{list_all};
ghost use Rattle.scenario.specs.declared.entry.Entry.TheVariants as entry;
ghost use Rattle.scenario.specs.Bounds.{begins_agenda};
ghost use Rattle.scenario.specs.SoFar.{line_count, agenda_count};
ghost use Rattle.scenario.specs.Fields.{IsPart, AreFields, words_at};
ghost use Rattle.scenario.specs.Drafts.{AreCounts, IsDraft, IsEntry, saying_in, told, IsUnread};
ghost use Rattle.scenario.specs.Grammar.{is_printable, is_skipped, has_lane, may_stand, has_line_room, line_if, line_of, row_of, said_of, saying_of};

use crate::cause::Cause;
use crate::counts::{Counts, begins_agenda};
use crate::declarations::declaration_of;
use crate::draft::Draft;
use crate::entry::Entry;
use crate::expected::Expected;
use crate::field::Field;
use crate::fields::{Fields, bytes_of, fields_for, word_at};
use crate::forms::{MOST_AGENDA_LINES, MOST_LINES};
use crate::lane_line::LaneLine;
use crate::name_kind::NameKind;
use crate::op::Op;
use crate::ops::{op_of, read_of, write_of};
use crate::reason::Reason;
use crate::span::Span;
use crate::text_line::TextLine;
use crate::unread::Unread;
use crate::word::Word;
use crate::writer_lines::writer_of;
use std::alloc::Global;

/// Whether all are bytes that may stand in a line.
pub(crate) fn are_printable(bytes: &[u8]) -> bool
    ensures { result ≡ list_all is_printable bytes.now }
{
    bytes.iter().all(|byte| 32 <= *byte && *byte <= 126)
}

/// Whether a line is empty or a comment.
fn is_skipped(bytes: &[u8]) -> bool
    ensures { result ≡ is_skipped bytes.now }
{
    bytes.is_empty() || bytes[0] == b'#'
}

/// Whether a lane has begun.
pub(crate) fn has_lane(draft: &Draft) -> bool
    ensures { result ≡ has_lane draft.now.said.lanes }
{
    0 < draft.count(NameKind::Lane)
}

/// Whether a line that begins with this word may stand after those before it.
pub(crate) fn may_stand(draft: &Draft, word: Word) -> bool
    ensures { result ≡ may_stand draft.now.said.opened (has_lane draft.now.said.lanes) word }
{
    match word {
        Word::Scenario => !draft.is_opened(),
        Word::Area | Word::Volume | Word::Writer | Word::Answer => {
            draft.is_opened() && !has_lane(draft)
        }
        Word::Lane => draft.is_opened(),
        _ => draft.is_opened() && has_lane(draft),
    }
}

/// Whether there may be one more such line.
fn has_line_room(counts: Counts, op: Op) -> bool
    ensures { result ≡ has_line_room counts.lines counts.agenda_lines op }
{
    counts.lines < MOST_LINES && (!begins_agenda(op) || counts.agenda_lines < MOST_AGENDA_LINES)
}

/// More lines than there may be, of all or of those that may begin an agenda.
fn no_line_room(counts: Counts) -> Cause
    ensures { result.reason ≡ Reason.TooMany }
{
    if counts.lines >= MOST_LINES {
        return Cause::too_many("lines of all lanes together", MOST_LINES as u64);
    }
    Cause::too_many(
        "`gather`, `prepare`, `snapshot` and `complete` lines of all lanes together",
        MOST_AGENDA_LINES as u64,
    )
}

/// What has to stand above a line with this word that may not stand here, or must not.
pub(crate) fn missed_place(draft: &Draft, word: Word) -> Expected {
    if let Word::Scenario = word {
        return Expected::OneOpening;
    }
    if !draft.is_opened() {
        return Expected::Opening;
    }
    if has_lane(draft) {
        Expected::NoLane
    } else {
        Expected::Lane
    }
}

/// One line more of the lane at hand.
pub(crate) fn line_if(draft: &Draft, number: u32, op: Op) -> Result<Entry, Cause>
    requires { AreCounts draft.now.said draft.now.counts }
    ensures value { told result ≡ line_if draft.now.said number op }
    ensures same { IfOk result (λ e. e ≡ entry.Line (record { number = number; op = op })) }
    ensures few { IfOk result (λ e. line_count draft.now.said.lanes < 100000) }
    ensures few_agendas { IfOk result (λ e.
        begins_agenda op ≡ true → agenda_count draft.now.said.lanes < 2000) }
{
    if !has_line_room(draft.counts(), op) {
        return Err(no_line_room(draft.counts()));
    }
    Ok(Entry::Line(LaneLine { number, op }))
}

/// A line of the lane at hand.
#[tactic(auto, unfolding(crate::specs::Grammar::line_of, crate::specs::Ops::op_of))]
fn line_of(
    text: &[u8],
    draft: &Draft,
    number: u32,
    word: Word,
    fields: Fields,
) -> Result<Entry, Cause>
    requires parts { AreFields (length text.now) fields }
    requires draft { IsDraft text.now draft.now }
    requires in_lane { 0 < length draft.now.said.lanes }
    ensures value { told result ≡ line_of text.now draft.now.said number word fields }
    ensures kept { IfOk result (IsEntry text.now draft.now) }
{
    let op = match word {
        Word::Write => write_of(text, draft, fields)?,
        Word::Read => read_of(text, draft, fields)?,
        _ => op_of(text, draft, word, fields)?,
    };
    line_if(draft, number, op)
}

/// What a line says that may stand here.
#[tactic(auto, unfolding(crate::specs::Grammar::row_of))]
fn placed_row_of(
    alloc: Global,
    text: &[u8],
    draft: &Draft,
    number: u32,
    word: Word,
    fields: Fields,
) -> Result<Entry, Unread>
    requires parts { AreFields (length text.now) fields }
    requires draft { IsDraft text.now draft.now }
    requires placed { IsTrue (may_stand draft.now.said.opened (has_lane draft.now.said.lanes) word) }
    ensures read { IfOk result (λ entry. row_of text.now draft.now.said number word fields ≡ Ok (saying_in entry)) }
    ensures kept { IfOk result (IsEntry text.now draft.now) }
    ensures refused { IfErr result (IsUnread ((row_of text.now draft.now.said number word fields))) }
{
    let entry = match word {
        Word::Writer => return writer_of(alloc, text, draft, fields),
        Word::Scenario | Word::Area | Word::Volume | Word::Answer | Word::Lane => {
            declaration_of(text, draft, word, fields)?
        }
        _ => line_of(text, draft, number, word, fields)?,
    };
    Ok(entry)
}

/// What a line says, by its words.
fn said_of(
    alloc: Global,
    text: &[u8],
    draft: &Draft,
    number: u32,
    span: Span,
) -> Result<Entry, Unread>
    requires short { length text.now < 4294967295 }
    requires part { IsPart (length text.now) span }
    requires draft { IsDraft text.now draft.now }
    ensures read { IfOk result (λ entry. said_of text.now draft.now.said number span.end (words_at text.now span.start span.end) ≡ Ok (saying_in entry)) }
    ensures kept { IfOk result (IsEntry text.now draft.now) }
    ensures refused { IfErr result (IsUnread ((said_of text.now draft.now.said number span.end (words_at text.now span.start span.end)))) }
{
    let first = word_at(text, span.start, span.end);
    let Some(word) = Word::of(bytes_of(text, first)) else {
        return Err(Unread::Bad(Cause::field(
            Reason::UnknownWord,
            Field::Text(first),
            Expected::FirstWord,
        )));
    };
    if !may_stand(draft, word) {
        return Err(Unread::Bad(Cause::field(
            Reason::Misplaced,
            Field::Text(first),
            missed_place(draft, word),
        )));
    }
    let fields = fields_for(text, word, first.end, span.end);
    placed_row_of(alloc, text, draft, number, word, fields)
}

/// What a line says, with its number in the text.
#[tactic(auto, unfolding(crate::specs::Grammar::saying_of))]
pub(crate) fn entry_of(
    alloc: Global,
    text: &[u8],
    draft: &Draft,
    number: u32,
    line: TextLine,
) -> Result<Entry, Unread>
    requires short { length text.now < 4294967295 }
    requires part { IsPart (length text.now) line.span }
    requires draft { IsDraft text.now draft.now }
    ensures read { IfOk result (λ entry. saying_of text.now draft.now.said number line ≡ Ok (saying_in entry)) }
    ensures kept { IfOk result (IsEntry text.now draft.now) }
    ensures refused { IfErr result (IsUnread ((saying_of text.now draft.now.said number line))) }
{
    let bytes = bytes_of(text, line.span);
    if !are_printable(bytes) {
        return Err(Unread::Bad(Cause::line(Reason::BadByte, Expected::Printable)));
    }
    if !line.ended {
        return Err(Unread::Bad(Cause::line(Reason::NoNewline, Expected::Newline)));
    }
    if is_skipped(bytes) {
        return Ok(Entry::Skipped);
    }
    said_of(alloc, text, draft, number, line.span)
}
