ghost use Rattle.std.specs.Prelude.{◌≡◌};
ghost use Rattle.scenario.specs.Words.{name_of, word_of, takes_rest};

use crate::forms::{by_word, fields_of, forms, kind_name};

/// The first word of a line.
#[derive(Clone, Copy)]
pub enum Word {
    Scenario,
    Area,
    Volume,
    Writer,
    Answer,
    Lane,
    Write,
    Read,
    Image,
    Query,
    Properties,
    Revert,
    Delete,
    Tick,
    Begin,
    Disable,
    Gather,
    Component,
    Document,
    Start,
    Add,
    Prepare,
    Snapshot,
    Await,
    Status,
    Complete,
    Abort,
    End,
}

impl Word {
    /// All words.
    pub const ALL: [Word; Word::End as usize + 1] = [
        Word::Scenario,
        Word::Area,
        Word::Volume,
        Word::Writer,
        Word::Answer,
        Word::Lane,
        Word::Write,
        Word::Read,
        Word::Image,
        Word::Query,
        Word::Properties,
        Word::Revert,
        Word::Delete,
        Word::Tick,
        Word::Begin,
        Word::Disable,
        Word::Gather,
        Word::Component,
        Word::Document,
        Word::Start,
        Word::Add,
        Word::Prepare,
        Word::Snapshot,
        Word::Await,
        Word::Status,
        Word::Complete,
        Word::Abort,
        Word::End,
    ];

    /// The word as it stands in a scenario.
    pub fn name(self) -> &'static str
        ensures { result.now ≡ name_of self }
    {
        match self {
            Word::Scenario => "scenario",
            Word::Area => "area",
            Word::Volume => "volume",
            Word::Writer => "writer",
            Word::Answer => "answer",
            Word::Lane => "lane",
            Word::Write => "write",
            Word::Read => "read",
            Word::Image => "image",
            Word::Query => "query",
            Word::Properties => "properties",
            Word::Revert => "revert",
            Word::Delete => "delete",
            Word::Tick => "tick",
            Word::Begin => "begin",
            Word::Disable => "disable",
            Word::Gather => "gather",
            Word::Component => "component",
            Word::Document => "document",
            Word::Start => "start",
            Word::Add => "add",
            Word::Prepare => "prepare",
            Word::Snapshot => "snapshot",
            Word::Await => "await",
            Word::Status => "status",
            Word::Complete => "complete",
            Word::Abort => "abort",
            Word::End => "end",
        }
    }

    /// The fields of each form of its lines. What they are to be is in upper case; a word that stands as it is, and the number 1, are not.
    pub fn forms(self) -> &'static [&'static [&'static str]] {
        let word = self;
        by_word!(word fields_of [fields text draft] lanes Scenario Area Volume Writer Answer Lane Write Read;)
    }

    /// The word that these bytes are, if a line may begin with them.
    pub fn of(bytes: &[u8]) -> Option<Word>
        ensures { result ≡ word_of bytes.now }
    {
        match bytes {
            // Most lines begin so.
            b"write" => Some(Word::Write),
            b"read" => Some(Word::Read),
            b"image" => Some(Word::Image),
            b"query" => Some(Word::Query),
            _ => Word::ALL
                .iter()
                .find(|word| word.name().as_bytes() == bytes)
                .copied(),
        }
    }

    /// Whether the last field is the rest of the line.
    pub fn takes_rest(self) -> bool
        ensures { result ≡ takes_rest self }
    {
        match self {
            Word::Writer | Word::Component => true,
            _ => false,
        }
    }
}
