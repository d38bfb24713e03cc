use crate::timeline::labels::shown_length;
use crate::timeline::lines::{is_effect, is_move};
use crate::timeline::script::Script;
use crate::timeline::words::{number, parted, rest_of, word_of};

/// What is written of a line of a report.
#[derive(Clone, Copy)]
pub struct Label<'a> {
    /// What stands before what was asked.
    pub before: &'static str,
    pub asked: &'a str,
    /// What was answered, where that is more than `ok`.
    pub answer: &'a str,
}

/// A label of what was asked and what was answered.
fn plain_label<'a>(asked: &'a str, answer: &'a str) -> Label<'a> {
    Label {
        before: "",
        asked,
        answer,
    }
}

/// What is said of an answer: nothing of `ok`, and not again the word that was asked.
fn news<'a>(asked: &str, answer: &'a str) -> &'a str {
    if answer == "ok" {
        return "";
    }
    let (first, said) = parted(answer);
    if first == word_of(asked) {
        said
    } else {
        answer
    }
}

/// Of a lane's move, by its line of the scenario, which may be unknown, and the number of that.
fn lane_label<'a>(said: &'a str, number: &'a str, answer: &'a str) -> Label<'a> {
    if said.is_empty() {
        return Label {
            before: "line ",
            asked: number,
            answer: news("", answer),
        };
    }
    plain_label(said, news(said, answer))
}

/// Of a move, by what follows its number, and what follows the first word of that.
fn move_label<'a>(script: &Script<'a>, said: &'a str, what: &'a str) -> Label<'a> {
    let actor = word_of(said);
    let (asked, answer) = parted(rest_of(what));
    if actor == "lane" {
        return lane_label(script.said(number(asked)), asked, answer);
    }
    if actor == "writer" {
        return plain_label(asked, news("", answer));
    }
    if actor == "provider" {
        return plain_label(what, "");
    }
    plain_label(said, "")
}

impl<'a> Label<'a> {
    /// The label of a line of a report.
    pub fn of(script: &Script<'a>, line: &'a str) -> Label<'a> {
        let said = rest_of(line);
        if is_move(line) {
            return move_label(script, said, rest_of(said));
        }
        if is_effect(line) {
            return plain_label(said, "");
        }
        plain_label("", line)
    }

    /// How many bytes are written of it.
    pub fn length(&self) -> usize {
        let answer = shown_length(self.answer.as_bytes());
        let asked = self.before.len().saturating_add(self.asked.len());
        asked.saturating_add(answer).saturating_add(2)
    }
}
