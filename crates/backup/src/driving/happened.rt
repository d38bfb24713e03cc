use vss_names::WriterError;
use writer_calls::Answer;

/// What happens to a backup. Writers are named by their numbers.
#[derive(Clone, Copy, Debug, PartialEq, Eq)]
pub enum Happened {
    /// Nothing but that time went by.
    Time,
    /// A writer answered the order of this number in its mailbox.
    Answered {
        writer: u32,
        number: u64,
        answer: Answer,
    },
    /// The hook of a writer has ended.
    Gone {
        writer: u32,
    },
    /// The backup is to be given up.
    Cancelled,
}

/// The place of a name.
fn place_of(names: &[&str], name: &str) -> Option<u32> {
    for (place, other) in names.iter().enumerate() {
        if *other == name {
            return u32::try_from(place).ok();
        }
    }
    None
}

/// The answer that a hook's line is. What is no answer is a veto.
fn answer_of(text: &str) -> Answer {
    match text.split_once(' ') {
        None if text == "ok" => Answer::Ok,
        Some(("veto", code)) => Answer::Veto(WriterError::of_name(code.as_bytes()).unwrap_or(
            WriterError::NonRetryable,
        )),
        _ => Answer::Veto(WriterError::NonRetryable),
    }
}

/// What `WRITER NUMBER TEXT` says was answered.
fn answered(names: &[&str], rest: &str) -> Option<Happened> {
    let (name, rest) = rest.split_once(' ')?;
    let (number, text) = rest.split_once(' ').unwrap_or((rest, ""));
    Some(Happened::Answered {
        writer: place_of(names, name)?,
        number: number.parse::<u64>().ok()?,
        answer: answer_of(text),
    })
}

impl Happened {
    /// What a line says, of writers with these names. A line of no form says that time went by.
    pub fn of(line: &str, names: &[&str]) -> Happened {
        let (word, rest) = line.split_once(' ').unwrap_or((line, ""));
        match word {
            "answer" => answered(names, rest).unwrap_or(Happened::Time),
            "gone" => match place_of(names, rest) {
                Some(writer) => Happened::Gone { writer },
                None => Happened::Time,
            },
            "cancel" => Happened::Cancelled,
            _ => Happened::Time,
        }
    }
}
