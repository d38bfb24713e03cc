use crate::mistake::Mistake;
use image_folder::{is_note, number_of};

/// The options before the folder.
#[derive(Clone, Copy)]
pub struct Options<'a> {
    /// How long to wait for a folder that another process has, in seconds.
    pub wait: u32,
    /// How often a file that changes is read at most.
    pub tries: Option<u32>,
    /// How many sets stay at least.
    pub keep: Option<u32>,
    /// What is noted of a set.
    pub note: Option<&'a str>,
    /// Whether a file that is there may be replaced.
    pub is_over: bool,
    /// Whether the answer is JSON.
    pub is_json: bool,
    /// Whether it is only said what would be done.
    pub is_dry: bool,
}

/// Whether this is an option of this task.
fn is_of(option: &str, task: &str) -> bool {
    match option {
        "--wait" => task != "create",
        "--tries" => matches!(task, "create" | "update" | "add"),
        "--keep" => matches!(task, "update" | "prune"),
        "--note" => task == "cut",
        "--over" => task == "restore",
        "--dry-run" => task == "update",
        "--json" => matches!(task, "list" | "diff"),
        _ => false,
    }
}

impl<'a> Options<'a> {
    /// Whether this one was given.
    fn has(self, option: &str) -> bool {
        match option {
            "--wait" => self.wait != 0,
            "--tries" => self.tries.is_some(),
            "--keep" => self.keep.is_some(),
            "--note" => self.note.is_some(),
            "--over" => self.is_over,
            "--dry-run" => self.is_dry,
            _ => self.is_json,
        }
    }

    /// Takes the value of an option, which is no other's.
    fn set(&mut self, option: &'a str, value: &'a str) -> Result<(), Mistake<'a>> {
        if option == "--note" {
            self.note = Some(value);
            return is_note(value).then_some(()).ok_or(Mistake::NoNote);
        }
        let count = match number_of(value) {
            Some(count) if count > 0 => count,
            _ => return Err(Mistake::NoNumber(option, 1, value)),
        };
        match option {
            "--wait" => self.wait = count,
            "--tries" => self.tries = Some(count),
            _ => self.keep = Some(count),
        }
        Ok(())
    }

    /// Takes an option of this task, and its value where it has one. The words behind these are answered.
    fn take(
        &mut self,
        task: &str,
        option: &'a str,
        rest: &'a [String],
    ) -> Result<&'a [String], Mistake<'a>> {
        if !is_of(option, task) {
            return Err(Mistake::NoOption(option));
        }
        if self.has(option) {
            return Err(Mistake::Twice(option));
        }
        match (option, rest) {
            ("--over", _) => self.is_over = true,
            ("--json", _) => self.is_json = true,
            ("--dry-run", _) => self.is_dry = true,
            (_, [value, rest @ ..]) => {
                self.set(option, value.as_str())?;
                return Ok(rest);
            }
            _ => return Err(Mistake::Missing("the value of the option")),
        }
        Ok(rest)
    }

    /// The options of a task at the front of words, and the words behind them.
    pub fn of(task: &str, words: &'a [String]) -> Result<(Options<'a>, &'a [String]), Mistake<'a>> {
        let mut options = Options {
            wait: 0,
            tries: None,
            keep: None,
            note: None,
            is_over: false,
            is_json: false,
            is_dry: false,
        };
        let mut rest = words;
        for _word in words {
            match rest {
                [option, more @ ..] if option.as_str().starts_with("--") => {
                    rest = options.take(task, option.as_str(), more)?;
                }
                _ => {}
            }
        }
        Ok((options, rest))
    }
}
