ghost use Rattle.std.specs.Prelude.{◌≡◌, ◌<◌, ◌+◌, Bool, true, ◌∷◌, List, length, option_map, IfOk, IfErr, OnOk};
ghost use Rattle.scenario.specs.declared.text_line.TextLine.{TextLine as Line};
ghost use Rattle.scenario.specs.Fields.{IsPart};
ghost use Rattle.scenario.specs.SoFar.{plan_in};
ghost use Rattle.scenario.specs.Drafts.{IsDraft, empty_draft};
ghost use Rattle.scenario.specs.Named.{HasNames};
ghost use Rattle.scenario.specs.Grammar.{Reading, reading_of, read_from, takes_from, takes_memory, first_bad, told_bad, IsScenario, IsRefusal, IsUnreadAt};

use crate::cause::Cause;
use crate::draft::Draft;
use crate::entries::entry_of;
use crate::expected::Expected;
use crate::place::places_of;
use crate::reason::Reason;
use crate::refusal::Refusal;
use crate::refused::Refused;
use crate::scenario::Scenario;
use crate::stopped::Stopped;
use crate::text_line::{TextLine, line_at};
use crate::unread::Unread;
use std::alloc::Global;
use vss_names::{OutOfMemory, Text};

/// Takes in what one more line says.
fn take_in(
    alloc: Global,
    text: &[u8],
    draft: &mut Draft,
    number: u32,
    line: TextLine,
) -> Result<(), Unread>
    requires short { length text.now < 4294967295 }
    requires part { IsPart (length text.now) line.span }
    requires draft { IsDraft text.now draft.old }
    ensures on { OnOk result ((rest : List Line) →
        read_from text.now number draft.old.said (line ∷ rest)
        ≡ read_from text.now (number + 1) draft.new.said rest) }
    ensures takes { OnOk result ((rest : List Line) →
        takes_from text.now (number + 1) draft.new.said rest ≡ true
        → takes_from text.now number draft.old.said (line ∷ rest) ≡ true) }
    ensures kept { OnOk result (IsDraft text.now draft.new) }
    ensures refused { IfErr result (λ unread. (rest : List Line) →
        IsUnreadAt number (read_from text.now number draft.old.said (line ∷ rest))
        (takes_from text.now number draft.old.said (line ∷ rest)) unread) }
{
    let entry = match entry_of(alloc, text, draft, number, line) {
        Ok(entry) => entry,
        Err(unread) => return Err(unread),
    };
    match draft.add(alloc, text, entry) {
        Ok(()) => Ok(()),
        Err(_) => Err(Unread::OutOfMemory),
    }
}

/// Takes in what all lines say.
#[tactic(auto, unfolding(crate::specs::Grammar::reading_of, crate::specs::Grammar::takes_memory))]
fn read(alloc: Global, text: &[u8], draft: &mut Draft) -> Result<(), Stopped>
    requires short { length text.now < 4294967295 }
    requires empty { draft.old ≡ empty_draft }
    ensures read { OnOk result (reading_of text.now ≡ IsScenario (plan_in text.now draft.new.said)) }
    ensures takes { OnOk result (takes_memory text.now ≡ true) }
    ensures kept { OnOk result (IsDraft text.now draft.new) }
    ensures refused { IfErr result (λ stopped.
        IsUnreadAt stopped.line (reading_of text.now) (takes_memory text.now) stopped.unread) }
{
    let mut at = 0usize;
    let mut number = 1u32;
    'lines: while at < text.len() {
        let line = line_at(text, at);
        match take_in(alloc, text, draft, number, line) {
            Ok(()) => {}
            Err(unread) => {
                return Err(Stopped {
                    line: number,
                    unread,
                });
            }
        }
        at = line.span.end as usize + 1;
        number += 1;
    }
    if !draft.is_opened() {
        let cause = Cause::line(Reason::Empty, Expected::Opening);
        return Err(Stopped {
            line: number,
            unread: Unread::Bad(cause),
        });
    }
    Ok(())
}

/// The scenario of a text and of what its lines say; the draft is over.
pub(crate) fn finish(
    alloc: Global,
    source: Text,
    draft: &mut Draft,
) -> Result<Scenario, OutOfMemory>
    requires short { length source.bytes < 4294967295 }
    requires draft { IsDraft source.bytes draft.old }
    requires names { HasNames (plan_in source.bytes draft.old.said) }
    ensures { IfOk result (λ scenario. scenario ≡ plan_in source.bytes draft.old.said) }
{
    draft.close_lanes(alloc)?;
    let places = places_of(alloc, draft.volumes())?;
    Ok(Scenario::of(source, draft.take_parts(alloc), places))
}

/// What `parse_text` answers, by a draft that nothing was read into.
fn parse_into(alloc: Global, text: Text, draft: &mut Draft) -> Result<Scenario, Refused>
    requires short { length text.bytes < 4294967295 }
    requires empty { draft.old ≡ empty_draft }
    ensures read { IfOk result (λ scenario. reading_of text.bytes ≡ IsScenario scenario) }
    ensures refused { IfErr result (IsRefusal text.bytes) }
{
    match read(alloc, text.bytes(), draft) {
        Err(stopped) => Err(Refused::at(stopped.line, stopped.unread)),
        Ok(()) => match finish(alloc, text, draft) {
            Ok(scenario) => Ok(scenario),
            Err(_) => Err(Refused::OutOfMemory),
        },
    }
}

/// Reads a scenario from its text, forward and once, and keeps the text. A text is refused at its first bad line, with the first check
/// that this does not pass. Memory is taken for all that it declares, the names among it, for each metadata document that is read, for the
/// lines of the lanes, and for the places of the volumes.
pub fn parse_text(alloc: Global, text: Text) -> Result<Scenario, Refused>
    requires { length text.bytes < 4294967295 }
    ensures read { IfOk result (λ scenario. reading_of text.bytes ≡ IsScenario scenario) }
    ensures refused { IfErr result (IsRefusal text.bytes) }
{
    let mut draft = Draft::new(alloc, false);
    let answer = parse_into(alloc, text, &mut draft);
    drop(draft);
    answer
}

/// What `parse` answers, by a draft that nothing was read into.
fn parse_copy(alloc: Global, text: &[u8], draft: &mut Draft) -> Result<Scenario, Refused>
    requires short { length text.now < 4294967295 }
    requires empty { draft.old ≡ empty_draft }
    ensures read { IfOk result (λ scenario. reading_of text.now ≡ IsScenario scenario) }
    ensures refused { IfErr result (IsRefusal text.now) }
{
    if let Err(stopped) = read(alloc, text, draft) {
        return Err(Refused::at(stopped.line, stopped.unread));
    }
    let Ok(source) = Text::copy(alloc, text) else {
        return Err(Refused::OutOfMemory);
    };
    match finish(alloc, source, draft) {
        Ok(scenario) => Ok(scenario),
        Err(_) => Err(Refused::OutOfMemory),
    }
}

/// What `parse_text` answers of a copy of the text, which is made once the text was read.
pub fn parse(alloc: Global, text: &[u8]) -> Result<Scenario, Refused>
    requires { length text.now < 4294967295 }
    ensures read { IfOk result (λ scenario. reading_of text.now ≡ IsScenario scenario) }
    ensures refused { IfErr result (IsRefusal text.now) }
{
    let mut draft = Draft::new(alloc, false);
    let answer = parse_copy(alloc, text, &mut draft);
    drop(draft);
    answer
}

/// Why the line is refused at which the reading stopped, in full. `draft` has what the lines before it say.
fn refusal_at(
    alloc: Global,
    draft: &Draft,
    stopped: Stopped,
) -> Result<Option<Refusal>, OutOfMemory>
    ensures { IfOk result (λ refusal. (reading : Reading) → (taken : Bool) →
        IsUnreadAt stopped.line reading taken stopped.unread → option_map told_bad refusal ≡ first_bad reading) }
{
    let Unread::Bad(cause) = stopped.unread else {
        return Err(OutOfMemory);
    };
    let declared = draft.declared(alloc, cause.expected.kind())?;
    Ok(Some(Refusal {
        line: stopped.line,
        cause,
        declared,
    }))
}

/// What `refusal_of` answers, by a draft that nothing was read into.
fn refusal_in(alloc: Global, text: &[u8], draft: &mut Draft) -> Result<Option<Refusal>, OutOfMemory>
    requires short { length text.now < 4294967295 }
    requires empty { draft.old ≡ empty_draft }
    ensures { IfOk result (λ refusal. option_map told_bad refusal ≡ first_bad (reading_of text.now)) }
{
    match read(alloc, text, draft) {
        Ok(()) => Ok(None),
        Err(stopped) => refusal_at(alloc, draft, stopped),
    }
}

/// Why `parse` refuses a text, in full; none exactly where the text is a scenario. Line and reason are those of `parse`. Memory is taken
/// as by `parse_text`, and for the list of the names.
pub fn refusal_of(alloc: Global, text: &[u8]) -> Result<Option<Refusal>, OutOfMemory>
    requires { length text.now < 4294967295 }
    ensures { IfOk result (λ refusal. option_map told_bad refusal ≡ first_bad (reading_of text.now)) }
{
    let mut draft = Draft::new(alloc, false);
    let answer = refusal_in(alloc, text, &mut draft);
    drop(draft);
    answer
}
