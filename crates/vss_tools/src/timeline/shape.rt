use crate::timeline::lines::{begins, is_effect, is_move};
use crate::timeline::words::{parted, rest_of};

/// How a mark looks.
#[derive(Clone, Copy)]
pub enum Shape {
    /// What was asked was done.
    Done,
    /// It was refused, or failed.
    Refused,
    /// A writer vetoes.
    Veto,
    /// The cut of a set.
    Cut,
    /// Time passes.
    Time,
    /// A writer's answer is lost.
    Lost,
    /// An image is evicted.
    Gone,
    /// A set is complete.
    Complete,
    /// What is told at the end.
    Closing,
}

/// Whether a reply tells that something was not done.
fn is_refusal(reply: &str) -> bool {
    begins(reply, b"VSS_E_")
        || begins(reply, b"VSS_S_ASYNC_CANCELLED")
        || begins(reply, b"NOT_SELECTABLE")
        || begins(reply, b"fault")
}

fn step_shape(step: &str, fault: &str) -> Shape {
    if fault == "fault" {
        return Shape::Refused;
    }
    if step == "cut" {
        return Shape::Cut;
    }
    Shape::Done
}

fn move_shape(actor: &str, what: &str) -> Shape {
    let (first, said) = parted(what);
    let answer = rest_of(said);
    if actor == "lane" {
        return if is_refusal(answer) {
            Shape::Refused
        } else {
            Shape::Done
        };
    }
    if actor == "writer" {
        return if answer == "ok" {
            Shape::Done
        } else {
            Shape::Veto
        };
    }
    if actor == "provider" {
        return step_shape(first, answer);
    }
    Shape::Time
}

fn effect_shape(what: &str, said: &str) -> Shape {
    if what == "evicted" {
        return Shape::Gone;
    }
    if what == "writer" {
        return Shape::Lost;
    }
    if rest_of(said) == "complete" {
        return Shape::Complete;
    }
    Shape::Refused
}

impl Shape {
    /// How the mark of a line of a report looks.
    pub fn of(line: &str) -> Shape {
        let (first, said) = parted(rest_of(line));
        if is_move(line) {
            return move_shape(first, said);
        }
        if is_effect(line) {
            return effect_shape(first, said);
        }
        Shape::Closing
    }

    /// The name of its drawing.
    pub fn name(self) -> &'static str {
        match self {
            Shape::Done => "done",
            Shape::Refused => "refused",
            Shape::Veto => "veto",
            Shape::Cut => "cut",
            Shape::Time => "time",
            Shape::Lost => "lost",
            Shape::Gone => "gone",
            Shape::Complete => "complete",
            Shape::Closing => "closing",
        }
    }
}
