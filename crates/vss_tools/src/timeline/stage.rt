use crate::timeline::axis::Axis;
use crate::timeline::band::Band;
use crate::timeline::bar_kind::BarKind;
use crate::timeline::bars::Bars;
use crate::timeline::cast::Cast;
use crate::timeline::ending::Ending;
use crate::timeline::fold::Fold;
use crate::timeline::label::Label;
use crate::timeline::letters::letter_of;
use crate::timeline::lines::{is_effect, is_move, ticks_of};
use crate::timeline::mark::Mark;
use crate::timeline::named::named_in;
use crate::timeline::pick::Pick;
use crate::timeline::place::Place;
use crate::timeline::row::Row;
use crate::timeline::scale::Scale;
use crate::timeline::script::Script;
use crate::timeline::shape::Shape;
use crate::timeline::span::Span;
use crate::timeline::words::{number, parted, rest_of, word_of};
use crate::timeline::writes::Writes;
use std::alloc::Global;
use vss_names::OutOfMemory;

/// How far one mark is from the next, in pixels.
const STEP: u64 = 24;

/// How wide a band is at most: 48 marks.
const BAND: u64 = 48 * STEP;

/// How many bytes of a label are shown at most.
const LABEL: usize = 64;

/// Of how many rows a terminal shows the state at most.
const MOST_SHOWN: usize = 20;

/// What is known of a run as far as its report is read.
#[derive(Drop)]
pub struct Stage<'a> {
    cast: Cast<'a>,
    bars: Bars<'a>,
    writes: Writes,
    bands: Vec<Band>,
    scale: Scale,
    /// How wide a band is at most, and how the closing lines are folded.
    widest: u64,
    fold: Fold,
    /// How many lines of the report were read.
    lines: u64,
    /// How many of them have marks, without the closing lines, and of those.
    marks: usize,
    closing: usize,
    /// Whether the last line had a mark, and whether the last move is over.
    is_drawn: bool,
    is_over: bool,
    x: u64,
    clock: u64,
    /// The set that was started last, and the context of the session.
    set: u64,
    context: Option<u64>,
    /// For each mark, a letter of each row whose state is shown.
    letters: Vec<u8>,
}

impl<'a> Stage<'a> {
    /// Before the first line of a report.
    pub fn new(
        alloc: Global,
        script: &Script<'a>,
        report: &[&'a str],
        span: Span,
        axis: Axis,
    ) -> Result<Stage<'a>, OutOfMemory> {
        let scale = Scale::of(axis, script, report);
        let cast = Cast::of(alloc, script, report)?;
        let count = cast.rows().len();
        Ok(Stage {
            scale,
            widest: widest_of(scale, script, report, span),
            fold: fold_of(script, report),
            cast,
            bars: Bars::new(alloc, count)?,
            writes: Writes::new(alloc, count)?,
            bands: Vec::new(alloc),
            lines: 0,
            marks: 0,
            closing: 0,
            is_drawn: false,
            is_over: false,
            x: 0,
            clock: 0,
            set: 0,
            context: None,
            letters: Vec::new(alloc),
        })
    }

    /// Takes a line of a report that has a mark, and answers that. `moves` is how many moves were made with it.
    pub fn draws(
        &mut self,
        script: &Script<'a>,
        line: &'a str,
        moves: u64,
    ) -> Result<Mark<'a>, OutOfMemory> {
        let label = Label::of(script, line);
        let shape = Shape::of(line);
        let place = match shape {
            Shape::Closing => self.closes_with(script, line)?,
            _ => self.goes_on_with(script, line, label.length())?,
        };
        Ok(Mark {
            text: line,
            label,
            shape,
            place,
            moves,
        })
    }

    /// Takes a line of a report that has no mark.
    pub fn passes(&mut self, script: &Script<'a>, line: &'a str) -> Result<(), OutOfMemory> {
        if self.is_drawn && (is_move(line) || is_effect(line)) {
            self.ends_band()?;
        }
        self.clock = self.clock.saturating_add(ticks_of(script, line));
        self.takes(script, line)
    }

    /// Nothing more is to come. What has not ended lasts to the right edge; of an image that is not among those at the end nobody
    /// told when it went.
    pub fn closes(&mut self) -> Result<(), OutOfMemory> {
        if self.is_over {
            self.bars
                .end(Pick::Kind(BarKind::Image), self.x, Ending::Unknown)?;
        }
        if self.is_drawn {
            self.ends_band()?;
        }
        Ok(())
    }

    /// Takes a closing line.
    fn closes_with(&mut self, script: &Script<'a>, line: &'a str) -> Result<Place, OutOfMemory> {
        self.takes(script, line)?;
        let band = self.bands.len();
        let row = self.row_in(band, self.closing);
        let x = self.fold.left(self.closing);
        self.closing = self.closing.saturating_add(1);
        Ok(Place {
            band,
            row,
            x,
            clock: self.clock,
            passed: 0,
            gap: 0,
        })
    }

    /// Takes the line of a move or of an effect.
    fn goes_on_with(
        &mut self,
        script: &Script<'a>,
        line: &'a str,
        length: usize,
    ) -> Result<Place, OutOfMemory> {
        let passed = ticks_of(script, line);
        self.steps(step_of(self.scale, script, line), length)?;
        self.takes_in(script, line, passed)?;
        let band = self.bands.len().saturating_sub(1);
        Ok(Place {
            band,
            row: self.row_in(band, self.cast.place(named_in(line))),
            x: self.x,
            clock: self.clock,
            passed,
            gap: self.scale.gap(passed),
        })
    }

    /// Takes the line of a move or of an effect, which lets so many ticks pass, and how it stands with the rows then.
    fn takes_in(
        &mut self,
        script: &Script<'a>,
        line: &'a str,
        passed: u64,
    ) -> Result<(), OutOfMemory> {
        self.clock = self.clock.saturating_add(passed);
        self.takes(script, line)?;
        self.adds_letters()
    }

    /// The number of a row of a band among those of all bands, one below another.
    fn row_in(&self, band: usize, row: usize) -> usize {
        band.saturating_mul(self.cast.rows().len())
            .saturating_add(row)
    }

    /// Goes on to the place of the next mark, whose label has so many bytes.
    fn steps(&mut self, wide: u64, length: usize) -> Result<(), OutOfMemory> {
        if self.is_drawn && self.widest < self.x.saturating_add(wide) {
            self.ends_band()?;
        }
        if !self.is_drawn {
            self.begins_band()?;
        }
        self.x = self.x.saturating_add(wide);
        self.marks = self.marks.saturating_add(1);
        if let Some(band) = self.bands.last_mut() {
            band.longest = band.longest.max(length);
            band.edge = band.edge.max(self.x);
        }
        Ok(())
    }

    fn begins_band(&mut self) -> Result<(), OutOfMemory> {
        self.bars.turn(self.x)?;
        self.x = 0;
        self.is_drawn = true;
        self.bands.push(Band {
            edge: 0,
            longest: 0,
            marks: (self.marks, self.marks),
            bars: (self.bars.done().len(), self.bars.done().len()),
        })?;
        Ok(())
    }

    /// Ends a band; what lasts goes on at the left edge of the next.
    fn ends_band(&mut self) -> Result<(), OutOfMemory> {
        let more = if self.is_over { 0 } else { STEP };
        self.bars.turn(self.x.saturating_add(more))?;
        self.x = 0;
        self.is_drawn = false;
        if let Some(band) = self.bands.last_mut() {
            band.marks = (band.marks.0, self.marks);
            band.bars = (band.bars.0, self.bars.done().len());
        }
        Ok(())
    }

    /// Appends the letters of how it stands with the rows.
    fn adds_letters(&mut self) -> Result<(), OutOfMemory> {
        let (first, count) = self.shown();
        for row in 0..count {
            let row = row.saturating_add(first);
            self.letters
                .push(letter_of(&self.bars, row, self.cast.kind(row)))?;
        }
        Ok(())
    }

    /// The first row whose state a terminal shows, and how many of them there are.
    pub fn shown(&self) -> (usize, usize) {
        let first = self.cast.place(Row::provider());
        let count = self.cast.rows().len().saturating_sub(first);
        (first, count.min(MOST_SHOWN))
    }

    /// Takes what a line tells of what lasts.
    fn takes(&mut self, script: &Script<'a>, line: &'a str) -> Result<(), OutOfMemory> {
        self.lines = self.lines.saturating_add(1);
        let row = self.cast.place(named_in(line));
        let (first, said) = parted(line);
        let (what, rest) = parted(said);
        match first {
            "=" => self.takes_effect(row, what, rest),
            "end" => {
                self.is_over = true;
                self.x = self.x.saturating_add(STEP);
                Ok(())
            }
            "image" => self.ends(row, Pick::ImageOf(number(what)), Ending::Stands),
            _ => {
                if is_move(line) {
                    return self.takes_move(script, row, what, rest);
                }
                Ok(())
            }
        }
    }

    /// Takes the move of an actor.
    fn takes_move(
        &mut self,
        script: &Script<'a>,
        row: usize,
        actor: &str,
        said: &'a str,
    ) -> Result<(), OutOfMemory> {
        let (step, what) = parted(said);
        let (first, answer) = parted(what);
        match actor {
            "lane" => self.takes_lane(row, script.said(number(first)), answer),
            "writer" => self.takes_writer(row, first, answer),
            "provider" => self.takes_step(row, step),
            _ => Ok(()),
        }
    }

    /// Takes what a lane's line changes of what lasts, where it was answered so.
    fn takes_lane(&mut self, row: usize, said: &'a str, reply: &'a str) -> Result<(), OutOfMemory> {
        let (word, fields) = parted(said);
        let (answer, value) = parted(reply);
        match answer {
            "set" => self.begins_set(number(value)),
            "ok" => self.takes_done(row, word, fields),
            _ => self.takes_other(word, fields, answer, value),
        }
    }

    /// Takes a lane's line that was answered ok.
    fn takes_done(&mut self, row: usize, word: &str, fields: &str) -> Result<(), OutOfMemory> {
        match word {
            "begin" => self.begins_session(row, number(word_of(fields))),
            "end" => self.ends_session(row),
            "revert" => self.reverts(fields),
            "write" => self.writes(fields),
            _ => Ok(()),
        }
    }

    /// Takes a lane's line with another answer.
    fn takes_other(
        &mut self,
        word: &str,
        fields: &str,
        answer: &str,
        value: &str,
    ) -> Result<(), OutOfMemory> {
        if word == "delete" && answer == "deleted" {
            return self.deletes(fields);
        }
        if word == "revert" && answer == "fault" {
            return self.reverts(fields);
        }
        if word == "properties" && answer == "properties" {
            return self.tells_used(fields, value);
        }
        Ok(())
    }

    fn begins_set(&mut self, set: u64) -> Result<(), OutOfMemory> {
        self.set = set;
        let row = self.cast.place(Row::provider());
        self.bars.begin(BarKind::Set, row, set, self.x)
    }

    fn begins_session(&mut self, row: usize, context: u64) -> Result<(), OutOfMemory> {
        self.context = Some(context);
        self.set = 0;
        self.bars.begin(BarKind::Session, row, context, self.x)
    }

    fn ends(&mut self, row: usize, pick: Pick, ending: Ending<'a>) -> Result<(), OutOfMemory> {
        self.bars.end_in(row, pick, self.x, ending)
    }

    fn ends_session(&mut self, row: usize) -> Result<(), OutOfMemory> {
        self.ends(row, Pick::Kind(BarKind::Session), Ending::Done)?;
        if self.context == Some(0) && self.set != 0 {
            return self
                .bars
                .end(Pick::ImageOf(self.set), self.x, Ending::SessionEnded);
        }
        Ok(())
    }

    fn deletes(&mut self, fields: &str) -> Result<(), OutOfMemory> {
        let (set, volume) = parted(fields);
        let pick = Pick::ImageOf(number(set));
        match volume {
            "" => self.bars.end(pick, self.x, Ending::Deleted),
            _ => {
                let row = self.cast.volume(volume);
                self.ends(row, pick, Ending::Deleted)
            }
        }
    }

    fn reverts(&mut self, fields: &str) -> Result<(), OutOfMemory> {
        let (set, volume) = parted(fields);
        let row = self.cast.volume(volume);
        self.ends(row, Pick::NewerThan(number(set)), Ending::Reverted)
    }

    fn writes(&mut self, fields: &str) -> Result<(), OutOfMemory> {
        let (volume, rest) = parted(fields);
        let row = self.cast.volume(volume);
        let before = self.writes.write(row, number(word_of(rest)), self.lines)?;
        self.bars.write(row, before, self.x)
    }

    fn tells_used(&mut self, fields: &str, reply: &str) -> Result<(), OutOfMemory> {
        let (set, volume) = parted(fields);
        let row = self.cast.volume(volume);
        let used = match reply.rsplit_once(' ') {
            Some((_, used)) => number(used),
            None => return Ok(()),
        };
        self.bars.used(row, number(set), used, self.x)
    }

    fn takes_writer(&mut self, row: usize, order: &str, answer: &str) -> Result<(), OutOfMemory> {
        match (order, answer) {
            ("freeze", "ok") => self.bars.begin(BarKind::Frozen, row, 0, self.x),
            ("thaw", _) => self.ends(row, Pick::Kind(BarKind::Frozen), Ending::Done),
            _ => Ok(()),
        }
    }

    fn takes_step(&mut self, row: usize, step: &str) -> Result<(), OutOfMemory> {
        match step {
            "hold" => self.bars.begin(BarKind::Held, row, 0, self.x),
            "release" => self.ends(row, Pick::Kind(BarKind::Held), Ending::Done),
            "cut" => self.bars.cut(self.set, self.x, self.lines),
            _ => Ok(()),
        }
    }

    /// Takes an effect.
    fn takes_effect(&mut self, row: usize, what: &str, said: &'a str) -> Result<(), OutOfMemory> {
        let (first, rest) = parted(said);
        match what {
            "evicted" => {
                self.ends(row, Pick::ImageOf(number(first)), Ending::Evicted)?;
                self.bars.evict(row);
                Ok(())
            }
            "writer" => {
                if rest == "lost thaw" {
                    return self.ends(row, Pick::Kind(BarKind::Frozen), Ending::Done);
                }
                Ok(())
            }
            "set" => self.ends_set(row, rest),
            _ => Ok(()),
        }
    }

    /// The set that is being made is complete, or fails.
    fn ends_set(&mut self, row: usize, said: &'a str) -> Result<(), OutOfMemory> {
        if said == "complete" {
            self.ends(row, Pick::Kind(BarKind::Set), Ending::Done)?;
            return self.bars.stand(self.x);
        }
        self.fails(row, rest_of(said))
    }

    /// The set that is being made fails.
    fn fails(&mut self, row: usize, why: &'a str) -> Result<(), OutOfMemory> {
        let x = self.x;
        self.ends(row, Pick::Kind(BarKind::Set), Ending::Failed(why))?;
        self.bars
            .end(Pick::Kind(BarKind::Making), x, Ending::Failed(""))?;
        self.bars.end(Pick::Kind(BarKind::Held), x, Ending::Done)?;
        self.bars.end(Pick::Kind(BarKind::Frozen), x, Ending::Done)
    }

    /// Who has a row.
    pub fn cast(&self) -> &Cast<'a> {
        &self.cast
    }

    /// What lasted.
    pub fn bars(&self) -> &Bars<'a> {
        &self.bars
    }

    /// The bands, from top to bottom.
    pub fn bands(&self) -> &[Band] {
        &self.bands
    }

    /// How the closing lines are folded.
    pub fn fold(&self) -> Fold {
        self.fold
    }

    /// How many closing lines there are.
    pub fn closing(&self) -> usize {
        self.closing
    }

    /// The letters of all marks but those of closing lines.
    pub fn letters(&self) -> &[u8] {
        &self.letters
    }
}

/// How far the mark of a line is from the one before.
fn step_of(scale: Scale, script: &Script<'_>, line: &str) -> u64 {
    scale.gap(ticks_of(script, line)).saturating_add(STEP)
}

/// How wide bands are, so that all have about the same width, and none more than the greatest.
fn widest_of(scale: Scale, script: &Script<'_>, report: &[&str], span: Span) -> u64 {
    let (mut moves, mut all, mut slack) = (0u64, 0u64, STEP);
    for line in report {
        if is_move(line) {
            moves = moves.saturating_add(1);
        }
        if (is_move(line) || is_effect(line)) && span.from <= moves && moves <= span.to {
            let step = step_of(scale, script, line);
            all = all.saturating_add(step);
            slack = slack.max(step);
        }
    }
    let most = scale.more().saturating_add(BAND);
    let bands = (all / most.max(1)).saturating_add(1);
    (all / bands).saturating_add(slack).min(most)
}

/// How the closing lines of a report are folded.
fn fold_of<'a>(script: &Script<'a>, report: &[&'a str]) -> Fold {
    let (mut count, mut longest) = (0usize, 0usize);
    for line in report {
        if !is_move(line) && !is_effect(line) && *line != "report 1" {
            count = count.saturating_add(1);
            longest = longest.max(Label::of(script, line).length());
        }
    }
    let width = (longest.min(LABEL) as u64)
        .saturating_mul(7)
        .saturating_add(36);
    Fold::of(count, width)
}
