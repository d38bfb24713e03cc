use crate::explaining::near::say_nearest;
use crate::explaining::notes::Notes;
use crate::explaining::piece::Piece::Shown;
use crate::explaining::word_hint::{file_at, number_of, word_at};
use crate::timeline::{Axis, Form, Span};

const OPTIONS: [&[u8]; 5] = [b"--text", b"--clock", b"--overview", b"--from", b"--to"];

/// What the words of the program ask for.
#[derive(Clone, Copy)]
pub struct Request<'a> {
    pub form: Form,
    pub span: Span,
    pub axis: Axis,
    /// Whether a drawing of all of it is asked for that fits a screen.
    pub is_overview: bool,
    /// The names of the files of the scenario and of its report; without them the report comes by the standard input.
    pub files: Option<(&'a str, &'a str)>,
}

/// The number of a move behind an option; where there is none, that is said.
fn move_of(notes: &mut Notes, words: &[String], at: usize) -> Option<u64> {
    let word = word_at(
        notes,
        words,
        at,
        "behind the last option the number of a move",
    )?;
    let number = number_of(notes, "the number of a move", word, 1, u32::MAX)?;
    Some(u64::from(number))
}

/// The names of the two files, where there are these words and no more; what is wrong is said.
fn files_of<'a>(notes: &mut Notes, words: &'a [String]) -> Option<Option<(&'a str, &'a str)>> {
    if words.is_empty() {
        return Some(None);
    }
    let scenario = file_at(notes, words, 0, "SCENARIO")?;
    if words.len() == 1 {
        let _ = notes.add("REPORT is missing; a report alone is read so: ./timeline < REPORT");
        return None;
    }
    let report = file_at(notes, words, 1, "REPORT")?;
    if let Some(more) = words.get(2) {
        let form = "`{}` is one word too many; options stand before the names of the files";
        let _ = notes.say(form, &[Shown(more.as_bytes())]);
        return None;
    }
    Some(Some((scenario, report)))
}

impl<'a> Request<'a> {
    /// What these words ask for: options, and then two names of files or none. Where they ask for nothing, it is said which is wrong.
    pub fn of(notes: &mut Notes, words: &'a [String]) -> Option<Request<'a>> {
        let mut request = Request {
            form: Form::Drawing,
            span: Span::ALL,
            axis: Axis::Moves,
            is_overview: false,
            files: None,
        };
        let mut at = 0usize;
        for _ in 0..words.len() {
            match words.get(at).map(|word| word.as_str()) {
                Some("--text") => request.form = Form::Lines,
                Some("--clock") => request.axis = Axis::Clock,
                Some("--overview") => request.is_overview = true,
                Some("--from") => {
                    at = at.saturating_add(1);
                    request.span.from = move_of(notes, words, at)?;
                }
                Some("--to") => {
                    at = at.saturating_add(1);
                    request.span.to = move_of(notes, words, at)?;
                }
                Some(word) if word.starts_with("-") => {
                    let _ = say_nearest(notes, "`{}` is no option{}", word.as_bytes(), &OPTIONS);
                    return None;
                }
                _ => break,
            }
            at = at.saturating_add(1);
        }
        let is_other = matches!(request.form, Form::Lines) || request.axis == Axis::Clock;
        if request.is_overview && is_other {
            let _ = notes.add("`--overview` stands without `--text` and `--clock`");
            return None;
        }
        request.files = files_of(notes, words.get(at..)?)?;
        Some(request)
    }

    /// What the picture is called: as the file of the scenario.
    pub fn name(&self) -> &'a str {
        match self.files {
            Some((scenario, _)) => scenario,
            None => "A run of the shadow copy service",
        }
    }
}
