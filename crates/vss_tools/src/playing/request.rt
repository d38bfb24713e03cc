use super::failing::Failing;
use crate::explaining::near::say_nearest;
use crate::explaining::notes::Notes;
use crate::explaining::piece::Piece::Shown;
use crate::explaining::word_hint::{file_at, number_of, word_at};

const TASKS: [&[u8]; 5] = [b"order", b"again", b"seed", b"many", b"with"];

/// The most jobs.
const MOST_JOBS: u32 = 1024;

/// Of the number of jobs elsewhere.
const JOBS: &str = "`-j JOBS`, two words, stands behind `many`";

/// What the words of the program ask for. Texts are named by their files.
#[derive(Clone, Copy)]
pub enum Request<'a> {
    /// To play a scenario in an order.
    Order {
        scenario: &'a str,
        order: &'a str,
    },
    /// To replay a report and to compare.
    Again {
        scenario: &'a str,
        report: &'a str,
    },
    /// To play a scenario in the order that a number draws.
    Seed {
        number: u32,
        scenario: &'a str,
    },
    /// To play it in the orders of the numbers below a count, and to say how the runs came out; in so many jobs, or one a processor.
    Many {
        count: u32,
        scenario: &'a str,
        jobs: Option<u32>,
    },
}

/// The calls that fail by the words before the task, `with DEVICE CALL NUMBERS` each, and the words behind them.
pub fn failing_in<'a>(
    notes: &mut Notes,
    words: &'a [String],
) -> Option<(Vec<Failing<'a>>, &'a [String])> {
    let mut failing = Vec::new(notes.alloc());
    let mut rest = words;
    for _ in 0..words.len() {
        let [with, more @ ..] = rest else {
            break;
        };
        if with.as_str() != "with" {
            break;
        }
        let [device, call, numbers, more @ ..] = more else {
            let _ = notes.add(
                "behind `with` stand DEVICE, CALL and NUMBERS, as `with C.vol flush 1`",
            );
            return None;
        };
        let one = Failing::of(notes, device.as_str(), call.as_str(), numbers.as_str())?;
        failing.push(one).ok()?;
        rest = more;
    }
    Some((failing, rest))
}

impl<'a> Request<'a> {
    /// What these words ask for; where they ask for nothing, it is said which is wrong.
    pub fn of(notes: &mut Notes, words: &'a [String]) -> Option<Request<'a>> {
        let task = word_at(notes, words, 0, "a task, order, again, seed or many,")?;
        let (request, count) = match task.as_bytes() {
            b"order" => (Request::order_of(notes, words)?, 3),
            b"again" => (Request::again_of(notes, words)?, 3),
            b"seed" => (Request::seed_of(notes, words)?, 3),
            b"many" => Request::many_of(notes, words)?,
            _ => {
                let _ = say_nearest(notes, "`{}` is no task{}", task.as_bytes(), &TASKS);
                return None;
            }
        };
        if let Some(more) = words.get(count) {
            let form = match more.as_str() {
                "with" => "`{} DEVICE CALL NUMBERS` stands before the task",
                "-j" => JOBS,
                _ => "`{}` is one word too many; a name with spaces stands in quotes",
            };
            let _ = notes.say(form, &[Shown(more.as_bytes())]);
            return None;
        }
        Some(request)
    }

    fn order_of(notes: &mut Notes, words: &'a [String]) -> Option<Request<'a>> {
        Some(Request::Order {
            scenario: file_at(notes, words, 1, "SCENARIO")?,
            order: file_at(notes, words, 2, "ORDER")?,
        })
    }

    fn again_of(notes: &mut Notes, words: &'a [String]) -> Option<Request<'a>> {
        Some(Request::Again {
            scenario: file_at(notes, words, 1, "SCENARIO")?,
            report: file_at(notes, words, 2, "REPORT")?,
        })
    }

    fn seed_of(notes: &mut Notes, words: &'a [String]) -> Option<Request<'a>> {
        let number = word_at(notes, words, 1, "N")?;
        Some(Request::Seed {
            number: number_of(notes, "N", number, 0, u32::MAX)?,
            scenario: file_at(notes, words, 2, "SCENARIO")?,
        })
    }

    /// And how many words it takes.
    fn many_of(notes: &mut Notes, words: &'a [String]) -> Option<(Request<'a>, usize)> {
        let mut jobs = None;
        let mut at = 1usize;
        if words.get(1).is_some_and(|word| word.as_str() == "-j") {
            let word = word_at(notes, words, 2, "behind `-j` the number of jobs")?;
            jobs = Some(number_of(notes, "the number of jobs", word, 1, MOST_JOBS)?);
            at = 3;
        }
        let rest = words.get(at..).unwrap_or(&[]);
        if rest.iter().any(|word| word.as_str().starts_with("-j")) {
            let _ = notes.add(JOBS);
            return None;
        }
        let count = word_at(notes, rest, 0, "COUNT")?;
        let request = Request::Many {
            count: number_of(notes, "COUNT", count, 1, u32::MAX)?,
            scenario: file_at(notes, rest, 1, "SCENARIO")?,
            jobs,
        };
        Some((request, at.saturating_add(2)))
    }

    /// The file of the scenario.
    pub fn scenario(self) -> &'a str {
        match self {
            Request::Order { scenario, .. } => scenario,
            Request::Again { scenario, .. } => scenario,
            Request::Seed { scenario, .. } => scenario,
            Request::Many { scenario, .. } => scenario,
        }
    }

    /// The file beside it, where there is one.
    pub fn other(self) -> &'a str {
        match self {
            Request::Order { order, .. } => order,
            Request::Again { report, .. } => report,
            Request::Seed { .. } | Request::Many { .. } => "",
        }
    }
}
