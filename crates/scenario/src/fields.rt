ghost use Rattle.std.specs.Prelude.{◌≡◌, ◌<◌, ◌≤◌, ◌+◌, ◌∷◌, length};
ghost use Rattle.scenario.specs.Fields.{words_at, words_after, fields_of, rest_fields, fields_for, bytes_of, IsPart, AreFields};

use crate::field::Field;
use crate::span::Span;
use crate::word::Word;

/// The fields of a line, as many as a line may have.
#[derive(Clone, Copy)]
pub(crate) enum Fields {
    Zero,
    One(Field),
    Two(Field, Field),
    Three(Field, Field, Field),
    Four(Field, Field, Field, Field),
    Five(Field, Field, Field, Field, Field),
    /// More than any line may have.
    Many,
}

/// The bytes of a part of the text.
pub(crate) fn bytes_of(text: &[u8], span: Span) -> &[u8]
    requires { IsPart (length text.now) span }
    ensures value { result.now ≡ bytes_of text.now span }
    ensures len { length result.now + span.start ≡ span.end }
{
    &text[span.start as usize..span.end as usize]
}

/// The word that begins at `start`, up to the next space or to `end`.
pub(crate) fn word_at(text: &[u8], start: u32, end: u32) -> Span
    requires within { end ≤ length text.now }
    requires ordered { start ≤ end }
    requires short { length text.now < 4294967295 }
    ensures next { words_at text.now start end ≡ result ∷ words_after text.now result.end end }
    ensures part { IsPart (length text.now) result }
    ensures inside { result.end ≤ end }
{
    for at in start..end {
        if text[at as usize] == b' ' {
            return Span { start, end: at };
        }
    }
    Span { start, end }
}

/// The fields that follow a word which ends at `at`, up to `end`.
#[tactic(auto, using(crate::proofs::TextParts::fields_many))]
fn fields_after(text: &[u8], at: u32, end: u32) -> Fields
    requires within { end ≤ length text.now }
    requires ordered { at ≤ end }
    requires short { length text.now < 4294967295 }
    ensures value { result ≡ fields_of (words_after text.now at end) }
    ensures parts { AreFields (length text.now) result }
{
    if at == end {
        return Fields::Zero;
    }
    let first = word_at(text, at + 1, end);
    if first.end == end {
        return Fields::One(Field::Text(first));
    }
    let second = word_at(text, first.end + 1, end);
    if second.end == end {
        return Fields::Two(Field::Text(first), Field::Text(second));
    }
    let third = word_at(text, second.end + 1, end);
    if third.end == end {
        return Fields::Three(Field::Text(first), Field::Text(second), Field::Text(third));
    }
    let fourth = word_at(text, third.end + 1, end);
    if fourth.end == end {
        return Fields::Four(
            Field::Text(first),
            Field::Text(second),
            Field::Text(third),
            Field::Text(fourth),
        );
    }
    let fifth = word_at(text, fourth.end + 1, end);
    if fifth.end == end {
        return Fields::Five(
            Field::Text(first),
            Field::Text(second),
            Field::Text(third),
            Field::Text(fourth),
            Field::Text(fifth),
        );
    }
    Fields::Many
}

/// The field that follows a word which ends at `at`, and the rest of the line up to `end` as it stands, if there is one.
fn rest_after(text: &[u8], at: u32, end: u32) -> Fields
    requires within { end ≤ length text.now }
    requires ordered { at ≤ end }
    requires short { length text.now < 4294967295 }
    ensures value { result ≡ rest_fields end (words_after text.now at end) }
    ensures parts { AreFields (length text.now) result }
{
    if at == end {
        return Fields::Zero;
    }
    let first = word_at(text, at + 1, end);
    if first.end + 1 < end {
        let start = first.end + 1;
        Fields::Two(Field::Text(first), Field::Text(Span { start, end }))
    } else {
        Fields::One(Field::Text(first))
    }
}

/// The fields of a line that begins with this word, which ends at `at`, up to `end`.
pub(crate) fn fields_for(text: &[u8], word: Word, at: u32, end: u32) -> Fields
    requires within { end ≤ length text.now }
    requires ordered { at ≤ end }
    requires short { length text.now < 4294967295 }
    ensures value { result ≡ fields_for word end (words_after text.now at end) }
    ensures parts { AreFields (length text.now) result }
{
    if word.takes_rest() {
        rest_after(text, at, end)
    } else {
        fields_after(text, at, end)
    }
}
