use crate::mistake::Mistake;
use crate::options::Options;
use crate::task::Task;

/// What the words of the program ask for: a task, and the folder that it is of.
#[derive(Clone, Copy)]
pub struct Request<'a> {
    pub folder: &'a str,
    /// How long to wait for the folder, in seconds.
    pub wait: u32,
    pub task: Task<'a>,
}

const ALL: &str =
    "create [--tries N] F SLOTS NAME[:BLOCKS]=FILE .. | cut [--note TEXT] F NAME .. | update [--dry-run] [--tries N] [--keep N] F NAME=FILE .. | list [--json] F | sets F | diff [--json] F SET [SET] [NAME] | show F [SET] NAME | restore [--over] F [SET] NAME FILE, restore [--over] F SET FOLDER | digest F [SET] NAME | delete F SET [NAME] | prune --keep N F | revert F SET NAME | grow F SLOTS, grow F NAME=BLOCKS | add [--tries N] F NAME[:BLOCKS]=FILE | remove F NAME | check F; --wait SECONDS may stand before F";

/// The form that words should have, by the first of them.
pub fn form_of(words: &[String]) -> &'static str {
    let [word, ..] = words else {
        return ALL;
    };
    match word.as_str() {
        "create" =>
            "create [--tries N] F SLOTS NAME[:BLOCKS]=FILE ..; SLOTS says for how many old blocks of 16,384 bytes there is room: as many as change while a version is kept",
        "cut" => "cut [--note TEXT] F NAME ..",
        "update" => "update [--dry-run] [--tries N] [--keep N] F NAME=FILE ..",
        "list" => "list [--json] F",
        "sets" => "sets F",
        "diff" => "diff [--json] F SET [SET] [NAME]",
        "show" => "show F [SET] NAME",
        "restore" => "restore [--over] F [SET] NAME FILE, restore [--over] F SET FOLDER",
        "digest" => "digest F [SET] NAME",
        "delete" => "delete F SET [NAME]",
        "prune" => "prune --keep N F",
        "revert" => "revert F SET NAME",
        "grow" => "grow F SLOTS, grow F NAME=BLOCKS",
        "add" => "add [--tries N] F NAME[:BLOCKS]=FILE",
        "remove" => "remove F NAME",
        "check" => "check F",
        _ => ALL,
    }
}

/// Whether the first word is followed by a folder, a set and a name.
pub fn takes_set(word: &str) -> bool {
    matches!(word, "show" | "digest" | "delete" | "revert")
}

impl<'a> Request<'a> {
    /// What these words ask for, if they have a form.
    pub fn of(words: &'a [String]) -> Result<Request<'a>, Mistake<'a>> {
        let [word, rest @ ..] = words else {
            return Err(Mistake::Missing("a word"));
        };
        let word = word.as_str();
        let (options, rest) = Options::of(word, rest)?;
        match rest {
            [folder, rest @ ..] if !folder.as_str().is_empty() => Ok(Request {
                folder: folder.as_str(),
                wait: options.wait,
                task: Task::of(word, options, rest)?,
            }),
            _ => Err(Mistake::Missing("F")),
        }
    }
}
