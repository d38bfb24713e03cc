//! Why a field is refused.

use super::bad_line::BadLine;
use super::near::{nearest, say_nearest};
use super::notes::Notes;
use super::piece::Piece::{Listed, Meant, Number, Shown, Words};
use super::showing::part;
use scenario::{NameKind, Quantity, Reason, Span};
use std::alloc::Global;
use vss_names::{Order, OutOfMemory, WriterError};

const NAMES: &str =
    "a name has 1 to 32 letters, digits, `_`, `-` and `.`, and begins with a letter";

/// What makes a field no number.
fn no_number(found: &[u8]) -> &'static str {
    let first = found.first().copied().unwrap_or(b' ');
    if first == b'-' || first == b'+' {
        "a number has no sign"
    } else if found.starts_with(b"0x") {
        "a number is decimal"
    } else if found.iter().all(|byte| byte.is_ascii_digit()) {
        "a number has no zeros before it"
    } else {
        "a number is decimal digits alone"
    }
}

/// Says that behind a word of a longer form a field is missing, if the field that does not pass is such a word; answers whether it is.
pub fn say_missing(notes: &mut Notes, bad: &BadLine<'_>) -> Result<bool, OutOfMemory> {
    let Some(word) = bad.word() else {
        return Ok(false);
    };
    for form in word.forms() {
        let here = form.get(bad.field().saturating_sub(1));
        if let (Some(fixed), Some(next)) = (here, form.get(bad.fields())) {
            if fixed.as_bytes() == bad.found() {
                notes.say(
                    "behind `{}` {} is missing",
                    &[Shown(bad.found()), Words(next)],
                )?;
                return Ok(true);
            }
        }
    }
    Ok(false)
}

/// Whether these are digits alone.
fn are_digits(bytes: &[u8]) -> bool {
    !bytes.is_empty() && bytes.iter().all(|byte| byte.is_ascii_digit())
}

/// Asks whether the field that does not pass and the one behind it are swapped, where one of them is a number and the other is none.
fn say_swapped(notes: &mut Notes, bad: &BadLine<'_>) -> Result<(), OutOfMemory> {
    let at = bad.mark().unwrap_or(0);
    let end = at.saturating_add(bad.found().len());
    let rest = part(bad.bytes, end.saturating_add(1), bad.bytes.len());
    let next = rest.split(|byte| *byte == b' ').next().unwrap_or(&[]);
    if next.is_empty() || are_digits(next) == are_digits(bad.found()) {
        return Ok(());
    }
    if bad.found() == b"set".as_slice() {
        return notes.add("the number of the set alone is written, without the word `set`");
    }
    let behind = part(rest, next.len(), rest.len());
    notes.say(
        "did you mean `{}{} {}{}`?",
        &[
            Shown(part(bad.bytes, 0, at)),
            Shown(next),
            Shown(bad.found()),
            Shown(behind),
        ],
    )
}

/// Says why a field is not the number that stands there.
pub fn say_number(
    notes: &mut Notes,
    bad: &BadLine<'_>,
    quantity: Quantity,
    least: u64,
    most: u64,
) -> Result<(), OutOfMemory> {
    let (name, found) = (Words(quantity.name()), Shown(bad.found()));
    if bad.refusal.cause.reason == Reason::BadNumber {
        if say_missing(notes, bad)? {
            return Ok(());
        }
        let (field, why) = (Number(bad.field() as u64), Words(no_number(bad.found())));
        notes.say("{} (field {}) is `{}`: {}", &[name, field, found, why])?;
        return match quantity {
            Quantity::Set => say_swapped(notes, bad),
            Quantity::Context => notes.add(
                "contexts are 0 (VSS_CTX_BACKUP), 9 (VSS_CTX_APP_ROLLBACK) and 25 (VSS_CTX_NAS_ROLLBACK)",
            ),
            _ => Ok(()),
        };
    }
    let (least, most) = (Number(least), Number(most));
    match quantity {
        Quantity::Version => notes.say("the number after `scenario` is 1, and not {}", &[found]),
        Quantity::Block(volume) => notes.say(
            "{} is {} to {} on {} here, and not {}",
            &[name, least, most, Shown(bad.at(volume)), found],
        ),
        _ => notes.say(
            "{} is {} to {} here, and not {}",
            &[name, least, most, found],
        ),
    }
}

/// Says why a field is no new name.
pub fn say_new_name(
    notes: &mut Notes,
    bad: &BadLine<'_>,
    kind: NameKind,
    taken: Option<usize>,
) -> Result<(), OutOfMemory> {
    let (found, what) = (Shown(bad.found()), Words(kind.name()));
    let earlier = taken.and_then(|place| bad.refusal.declared.get(place).copied());
    match earlier {
        Some(span) if bad.refusal.cause.reason == Reason::DoubleName => {
            let form = if let NameKind::Area = kind {
                "there is an {} {} already, from line {}"
            } else {
                "there is a {} {} already, from line {}"
            };
            notes.say(form, &[what, found, Number(bad.line_of(span) as u64)])
        }
        _ => {
            notes.say(
                "the name of the {} (field {}) is `{}`, and no name",
                &[what, Number(bad.field() as u64), found],
            )?;
            notes.add(NAMES)
        }
    }
}

/// The names that these parts of the text are.
fn names_at<'a>(
    alloc: Global,
    bad: &BadLine<'a>,
    spans: &[Span],
) -> Result<Vec<&'a [u8]>, OutOfMemory> {
    let mut names = Vec::new(alloc);
    for span in spans {
        names.push(bad.at(*span))?;
    }
    Ok(names)
}

/// Says that a field is no name of what was declared above.
pub fn say_undeclared(
    notes: &mut Notes,
    bad: &BadLine<'_>,
    kind: NameKind,
) -> Result<(), OutOfMemory> {
    let alloc = notes.alloc();
    let names = names_at(alloc, bad, &bad.refusal.declared)?;
    let (found, what) = (Shown(bad.found()), Words(kind.name()));
    if names.is_empty() {
        return notes.say(
            "no {} `{}` is declared above; there is none",
            &[what, found],
        );
    }
    let meant = nearest(alloc, bad.found(), &names)?;
    notes.say(
        "no {} `{}` is declared above; there are {}{}",
        &[what, found, Listed(&names), Meant(meant)],
    )?;
    match meant {
        None => say_swapped(notes, bad),
        Some(_) => Ok(()),
    }
}

/// Says that a field is no order.
pub fn say_order(notes: &mut Notes, bad: &BadLine<'_>) -> Result<(), OutOfMemory> {
    let alloc = notes.alloc();
    let mut names = Vec::new(alloc);
    for order in &Order::ALL {
        names.push(order.name().as_bytes())?;
    }
    say_nearest(notes, "`{}` is no order{}", bad.found(), &names)?;
    notes.say("orders are {}", &[Listed(&names)])
}

/// The name of the error whose number, in hexadecimal digits, or whose last word this is.
fn code_for(alloc: Global, found: &[u8]) -> Result<Option<WriterError>, OutOfMemory> {
    for error in &WriterError::ALL {
        let number = error.number();
        let digits = format!(in alloc; "0x{number:08X}")?;
        let is_last_word = !found.is_empty() && error.name().as_bytes().ends_with(found);
        if digits.as_bytes().eq_ignore_ascii_case(found) || is_last_word {
            return Ok(Some(*error));
        }
    }
    Ok(None)
}

/// The names of writers' errors.
fn codes(alloc: Global) -> Result<Vec<&'static [u8]>, OutOfMemory> {
    let mut names = Vec::new(alloc);
    for error in &WriterError::ALL {
        names.push(error.name().as_bytes())?;
    }
    Ok(names)
}

/// Says which codes there are.
pub fn say_codes(notes: &mut Notes) -> Result<(), OutOfMemory> {
    let names = codes(notes.alloc())?;
    notes.say("codes are {}", &[Listed(&names)])
}

/// Says that a field is no code of a writer's error.
pub fn say_code(notes: &mut Notes, bad: &BadLine<'_>) -> Result<(), OutOfMemory> {
    let alloc = notes.alloc();
    let names = codes(alloc)?;
    match code_for(alloc, bad.found())? {
        Some(error) => notes.say(
            "`{}` is no code; did you mean `{}`?",
            &[Shown(bad.found()), Words(error.name())],
        )?,
        None => {
            say_nearest(
                notes,
                "`{}` is no code of a writer's error{}",
                bad.found(),
                &names,
            )?;
        }
    }
    say_codes(notes)
}

/// Says that there is such an answer already.
pub fn say_answered(notes: &mut Notes, bad: &BadLine<'_>) -> Result<(), OutOfMemory> {
    let end = bad.mark().unwrap_or(0).saturating_add(bad.found().len());
    match bad.line_above(part(bad.bytes, 0, end)) {
        Some(line) => notes.say(
            "this writer has an answer to this order and number already, from line {}",
            &[Number(line as u64)],
        ),
        None => notes.add("this writer has an answer to this order and number already"),
    }
}
