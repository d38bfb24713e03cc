use crate::diff::Span;
use crate::mistake::Mistake;
use crate::options::Options;
use crate::restoring::Target;
use image_folder::{Pair, Way, number_of, set_of};

/// How often a file that changes is read at most, if no words say it.
const TRIES: u32 = 5;

/// What is to be done with a folder.
#[derive(Clone, Copy)]
pub enum Task<'a> {
    Create {
        tries: u32,
        slots: u32,
        pairs: &'a [String],
    },
    Cut {
        note: &'a str,
        names: &'a [String],
    },
    Update {
        tries: u32,
        /// How many sets stay at least.
        keep: u32,
        pairs: &'a [String],
    },
    /// What an update would need.
    Forecast {
        /// How many sets are to stay at least.
        keep: u32,
        pairs: &'a [String],
    },
    List {
        is_json: bool,
    },
    Sets,
    /// Without a name, of each volume that has an image of one of the sets.
    Diff {
        span: Span,
        name: Option<&'a str>,
        is_json: bool,
    },
    Show(Shown<'a>),
    Digest(Shown<'a>),
    Restore {
        of: Shown<'a>,
        target: Target<'a>,
    },
    /// Each file of a set, into a folder.
    RestoreSet {
        set: u32,
        target: Target<'a>,
    },
    /// The images of all sets but so many newest ones go.
    Prune {
        keep: u32,
    },
    /// Without a name, of each volume that has an image of the set.
    Delete {
        set: u32,
        name: Option<&'a str>,
    },
    Revert {
        set: u32,
        name: &'a str,
    },
    GrowSlots(u32),
    GrowVolume {
        name: &'a str,
        blocks: u32,
    },
    /// The volume of this pair.
    Add {
        tries: u32,
        pair: Pair<'a>,
    },
    Remove(&'a str),
    Check,
}

/// The image of a set, or without one the volume of this name.
#[derive(Clone, Copy)]
pub struct Shown<'a> {
    pub set: Option<u32>,
    pub name: &'a str,
}

/// That no words are left.
fn check_end<'a>(words: &'a [String]) -> Result<(), Mistake<'a>> {
    match words {
        [] => Ok(()),
        [more, ..] => Err(Mistake::TooMany(more.as_str())),
    }
}

/// That words are names, one at least.
fn check_names<'a>(words: &'a [String]) -> Result<(), Mistake<'a>> {
    for word in words {
        if word.as_str().starts_with("--") {
            return Err(Mistake::TooMany(word.as_str()));
        }
    }
    match words {
        [] => Err(Mistake::Missing("NAME")),
        _ => Ok(()),
    }
}

/// The set that a word is.
fn set_in<'a>(word: &'a str) -> Result<u32, Mistake<'a>> {
    set_of(word).ok_or(Mistake::NoNumber("SET", 1, word))
}

/// That words are pairs, one at least; only those of `create` may have a number of blocks.
fn check_pairs<'a>(words: &'a [String], may_size: bool) -> Result<(), Mistake<'a>> {
    for word in words {
        match Pair::of(word.as_str()) {
            Some(pair) if may_size || pair.blocks.is_none() => {}
            _ => return Err(Mistake::NoPair(word.as_str())),
        }
    }
    match words {
        [] => Err(Mistake::Missing("NAME=FILE")),
        _ => Ok(()),
    }
}

/// What words show that end with a name.
fn words_shown<'a>(words: &'a [String]) -> Result<Shown<'a>, Mistake<'a>> {
    let (set, name) = match words {
        [] => return Err(Mistake::Missing("NAME")),
        [name] => (None, name.as_str()),
        [set, name, more @ ..] => {
            check_end(more)?;
            (Some(set_in(set.as_str())?), name.as_str())
        }
    };
    Ok(Shown { set, name })
}

/// What `restore` makes of these words.
fn restore_of<'a>(is_over: bool, words: &'a [String]) -> Result<Task<'a>, Mistake<'a>> {
    let [shown @ .., path] = words else {
        return Err(Mistake::Missing("FILE"));
    };
    let path = path.as_str();
    if path.starts_with("--") {
        return Err(Mistake::TooMany(path));
    }
    if shown.is_empty() || path.is_empty() {
        return Err(Mistake::Missing("FILE"));
    }
    let target = Target { path, is_over };
    match shown {
        [word] if set_of(word.as_str()).is_some() => Ok(Task::RestoreSet {
            set: set_in(word.as_str())?,
            target,
        }),
        _ => Ok(Task::Restore {
            of: words_shown(shown)?,
            target,
        }),
    }
}

/// What `update` makes of these words.
fn update_of<'a>(options: Options<'a>, words: &'a [String]) -> Result<Task<'a>, Mistake<'a>> {
    check_pairs(words, false)?;
    let keep = options.keep.unwrap_or(0);
    if options.is_dry {
        return Ok(Task::Forecast { keep, pairs: words });
    }
    Ok(Task::Update {
        tries: options.tries.unwrap_or(TRIES),
        keep,
        pairs: words,
    })
}

/// What `create` makes of these words.
fn create_of<'a>(tries: u32, words: &'a [String]) -> Result<Task<'a>, Mistake<'a>> {
    let [word, pairs @ ..] = words else {
        return Err(Mistake::Missing("SLOTS"));
    };
    let word = word.as_str();
    let slots = number_of(word).ok_or(Mistake::NoNumber("SLOTS", 0, word))?;
    check_pairs(pairs, true)?;
    Ok(Task::Create {
        tries,
        slots,
        pairs,
    })
}

/// The set that words begin with, and the name behind it, if there is one.
fn set_and_name<'a>(words: &'a [String]) -> Result<(u32, Option<&'a str>), Mistake<'a>> {
    match words {
        [] => Err(Mistake::Missing("SET")),
        [set] => Ok((set_in(set.as_str())?, None)),
        [set, name, more @ ..] => {
            check_end(more)?;
            Ok((set_in(set.as_str())?, Some(name.as_str())))
        }
    }
}

/// What `diff` makes of these words: a second number is a set.
fn diff_of<'a>(is_json: bool, words: &'a [String]) -> Result<Task<'a>, Mistake<'a>> {
    let [word, rest @ ..] = words else {
        return Err(Mistake::Missing("SET"));
    };
    let set = set_in(word.as_str())?;
    let (other, rest) = match rest {
        [word, rest @ ..] if set_of(word.as_str()).is_some() => (set_of(word.as_str()), rest),
        _ => (None, rest),
    };
    let name = match rest {
        [] => None,
        [name, more @ ..] => {
            check_end(more)?;
            Some(name.as_str())
        }
    };
    Ok(Task::Diff {
        span: Span { set, other },
        name,
        is_json,
    })
}

/// What `grow` makes of these words.
fn grow_of<'a>(words: &'a [String]) -> Result<Task<'a>, Mistake<'a>> {
    let [word, more @ ..] = words else {
        return Err(Mistake::Missing("SLOTS or NAME=BLOCKS"));
    };
    check_end(more)?;
    let word = word.as_str();
    let Some((name, blocks)) = word.split_once('=') else {
        let slots = number_of(word).ok_or(Mistake::NoNumber("SLOTS", 0, word))?;
        return Ok(Task::GrowSlots(slots));
    };
    let blocks = number_of(blocks).ok_or(Mistake::NoNumber("BLOCKS", 1, blocks))?;
    Ok(Task::GrowVolume { name, blocks })
}

/// What `add` makes of these words.
fn add_of<'a>(tries: u32, words: &'a [String]) -> Result<Task<'a>, Mistake<'a>> {
    let [word, more @ ..] = words else {
        return Err(Mistake::Missing("NAME=FILE"));
    };
    check_end(more)?;
    match Pair::of(word.as_str()) {
        Some(pair) => Ok(Task::Add { tries, pair }),
        None => Err(Mistake::NoPair(word.as_str())),
    }
}

/// The volume that `remove` takes away.
fn remove_of<'a>(words: &'a [String]) -> Result<Task<'a>, Mistake<'a>> {
    let [name, more @ ..] = words else {
        return Err(Mistake::Missing("NAME"));
    };
    check_end(more)?;
    Ok(Task::Remove(name.as_str()))
}

impl<'a> Task<'a> {
    /// What the first word, the options and the words after the folder ask for.
    pub fn of(
        word: &'a str,
        options: Options<'a>,
        rest: &'a [String],
    ) -> Result<Task<'a>, Mistake<'a>> {
        if matches!(word, "sets" | "list" | "prune" | "check") {
            check_end(rest)?;
        }
        Ok(match word {
            "create" => create_of(options.tries.unwrap_or(TRIES), rest)?,
            "update" => update_of(options, rest)?,
            "cut" => {
                check_names(rest)?;
                Task::Cut {
                    note: options.note.unwrap_or(""),
                    names: rest,
                }
            }
            "sets" => Task::Sets,
            "list" => Task::List {
                is_json: options.is_json,
            },
            "diff" => diff_of(options.is_json, rest)?,
            "show" => Task::Show(words_shown(rest)?),
            "digest" => Task::Digest(words_shown(rest)?),
            "restore" => restore_of(options.is_over, rest)?,
            "delete" => {
                let (set, name) = set_and_name(rest)?;
                Task::Delete { set, name }
            }
            "prune" => Task::Prune {
                keep: options.keep.ok_or(Mistake::Missing("--keep N"))?,
            },
            "revert" => match set_and_name(rest)? {
                (set, Some(name)) => Task::Revert { set, name },
                _ => return Err(Mistake::Missing("NAME")),
            },
            "grow" => grow_of(rest)?,
            "add" => add_of(options.tries.unwrap_or(TRIES), rest)?,
            "remove" => remove_of(rest)?,
            "check" => Task::Check,
            _ => return Err(Mistake::NoCommand(word)),
        })
    }

    /// How its folder is opened.
    pub fn way(self) -> Way {
        match self {
            Task::Check => Way::Checking,
            Task::Show(of) | Task::Digest(of) | Task::Restore { of, .. } if of.set.is_none() => {
                Way::Showing
            }
            Task::Forecast { .. } => Way::Comparing,
            Task::Show(_) | Task::Digest(_) => Way::Beside,
            Task::Restore { .. } | Task::RestoreSet { .. } => Way::Beside,
            Task::List { .. } | Task::Sets | Task::Diff { .. } => Way::Beside,
            _ => Way::Writing,
        }
    }
}
