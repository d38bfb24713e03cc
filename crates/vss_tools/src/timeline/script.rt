ghost use Rattle.std.specs.Prelude.{◌≡◌, ◌++◌, ◌∷◌, [], map, IfOk, OnOk};
ghost use Rattle.std.specs.List.{list_any};
ghost use Rattle.vss_tools.specs.Refused.{declaration_of, declarations, is_declaration, is_of, lane_after, maker_of, makers, numbered};

use crate::timeline::lines::begins;
use crate::timeline::words::{lines_of, parted, word_of};
use std::alloc::Global;
use std::marker::Model;
use vss_names::OutOfMemory;

/// A scenario as its lines, where there is one. Contracts see its lines.
#[derive(Drop)]
pub struct Script<'a> {
    lines: Vec<&'a str>,
    /// The lines that declare a lane, a writer or a volume.
    declared: Vec<&'a str>,
    /// For each line the lane that makes it, or nothing.
    lanes: Vec<&'a str>,
}

impl<'a> Model for Script<'a> {
    ghost use Rattle.std.specs.Prelude.{ℕ, ◌≡◌, List, map};
    ghost use Rattle.vss_tools.specs.Refused.{declarations, makers};

    ghost Value = { List (List ℕ) };

    ghost view = { λ s. map (λ line. line.now) s.lines.items };

    ghost invariant = { λ s. (map (λ line. line.now) s.declared.items ≡ declarations (map (λ line. line.now) s.lines.items))
        × (map (λ line. line.now) s.lanes.items ≡ makers (map (λ line. line.now) s.lines.items)) };
}

/// Whether a line that begins with this word declares a lane, a writer or a volume.
fn is_declaration(word: &str) -> bool
    ensures { result ≡ is_declaration word.now }
{
    word == "lane" || word == "writer" || word == "volume"
}

/// Appends a line, where it is a declaration.
fn add_declaration<'a>(all: &mut Vec<&'a str>, line: &'a str) -> Result<(), OutOfMemory>
    ensures { OnOk result (map (λ x. x.now) all.new.items ≡ map (λ x. x.now) all.old.items ++ declaration_of line.now) }
{
    if is_declaration(word_of(line)) {
        all.push(line)?;
        return Ok(());
    }
    Ok(())
}

fn declarations_of<'a>(alloc: Global, lines: &[&'a str]) -> Result<Vec<&'a str>, OutOfMemory>
    ensures { IfOk result (λ all. map (λ x. x.now) all.items ≡ declarations (map (λ x. x.now) lines.now)) }
{
    let mut all = Vec::new(alloc);
    for line in lines {
        add_declaration(&mut all, line)?;
    }
    Ok(all)
}

/// Whether a line declares this, by its first word and a name.
fn is_of(word: &str, name: &str, line: &str) -> bool
    ensures { result ≡ is_of word.now name.now line.now }
{
    let (first, rest) = parted(line);
    first == word && word_of(rest) == name
}

/// Whether one of these lines does.
fn is_among(lines: &[&str], word: &str, name: &str) -> bool
    ensures { result ≡ list_any (λ line. is_of word.now name.now line.now) lines.now }
{
    lines.iter().any(|line| is_of(word, name, line))
}

/// The lane behind a line, where `lane` is before it.
fn lane_after<'a>(lane: &'a str, line: &'a str) -> &'a str
    ensures { result.now ≡ lane_after lane.now line.now }
{
    let (word, rest) = parted(line);
    if word == "lane" { word_of(rest) } else { lane }
}

/// The lane that makes a line, where it is in this one's part.
fn maker_of<'a>(lane: &'a str, line: &str) -> &'a str
    ensures { result.now ≡ maker_of lane.now line.now }
{
    if word_of(line) == "lane" || line.is_empty() || begins(line, b"#") {
        ""
    } else {
        lane
    }
}

fn makers_of<'a>(alloc: Global, lines: &[&'a str]) -> Result<Vec<&'a str>, OutOfMemory>
    ensures { IfOk result (λ all. map (λ x. x.now) all.items ≡ makers (map (λ x. x.now) lines.now)) }
{
    let mut all = Vec::new(alloc);
    let mut lane = "";
    for line in lines {
        all.push(maker_of(lane, line))?;
        lane = lane_after(lane, line);
    }
    Ok(all)
}

/// What a list has at a number, counted from 1, or nothing.
fn numbered<'a>(lines: &[&'a str], number: u64) -> &'a str
    ensures { result.now ≡ numbered (map (λ x. x.now) lines.now) number }
{
    match lines.get(number.saturating_sub(1) as usize) {
        Some(line) => line,
        None => "",
    }
}

impl<'a> Script<'a> {
    ghost use Rattle.std.specs.Str.Lines.{lines};
    ghost use Rattle.vss_tools.specs.Refused.{declares, makes, said_at};
    ghost use Rattle.vss_tools.specs.Lines.{is_empty};

    /// The scenario of a text, which may be empty.
    pub fn of(alloc: Global, scenario: &'a str) -> Result<Script<'a>, OutOfMemory>
        ensures { IfOk result (λ script. script ≡ lines scenario.now) }
    {
        let lines = lines_of(alloc, scenario)?;
        let declared = declarations_of(alloc, &lines)?;
        let lanes = makers_of(alloc, &lines)?;
        Ok(Script {
            lines,
            declared,
            lanes,
        })
    }

    /// Whether there is none.
    pub fn is_empty(&self) -> bool
        ensures { result ≡ is_empty self.now }
    {
        self.lines.is_empty()
    }

    /// Its lines that declare something.
    pub fn declarations(&self) -> &[&'a str] {
        &self.declared
    }

    /// Whether a line with this first word declares this name.
    #[tactic(auto, using(crate::proofs::TextLines::any_text))]
    pub fn declares(&self, word: &str, name: &str) -> bool
        ensures { result ≡ declares self.now word.now name.now }
    {
        is_among(&self.declared, word, name)
    }

    /// Whether a lane makes the line of a number; each may make number 0, the `end` that it is given.
    pub fn makes(&self, lane: &str, number: u64) -> bool
        ensures { result ≡ makes self.now lane.now number }
    {
        number == 0 || numbered(&self.lanes, number) == lane
    }

    /// What a lane's line says by its number, or nothing.
    pub fn said(&self, number: u64) -> &'a str
        ensures { result.now ≡ said_at self.now number }
    {
        if number == 0 {
            return "end";
        }
        numbered(&self.lines, number)
    }
}
