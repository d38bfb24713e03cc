//! The report of a run: every move in order with its reply and effects, and how all volumes and images stand at the end.
//!
//! `opening_line`, `move_lines` and `closing_line` append the lines to a text, each byte of them as defined, or leave it as
//! it was where memory is refused; a spare of `most_bytes` is enough for each. The lines of a move are those that the
//! report of its run has, wherever the outcome is what the move comes to.
//!
//! `specs/Words.antt` has the texts of the things that a report names, `specs/ToldLines.antt` the lines from what a program
//! was told, `specs/Report.antt` the report as a relation between a trail and a text. `trail_of` reads a report
//! back: `specs/Pieces.antt` has a text in lines and words, `specs/Shapes.antt` what a line is, and `specs/ReadBack.antt` which
//! text tells which trail, or which of its lines is the first that is not of the form.
//!
//! `laws` has what holds of every report. A report is read back as the trail that it was made of, and as no other, where the
//! scenario and the moves are legible (`specs/Legible.antt`): names are by the grammar and apart, and each move has a reply that
//! its actor and its mark can have, with numbers of at most eight bytes. `move_lines` says so of each legal move
//! (`specs/Legible.antt`).
#![tactic(auto)]

mod closing;
mod effect_words;
mod effects;
pub mod laws;
mod line_kind;
mod lines;
mod move_words;
mod names;
pub mod pieces;
mod read_back;
mod replies;
mod reply_words;
mod report_fault;
pub mod shapes;
mod short;
mod state_words;
mod words;

pub use lines::{closing_line, most_bytes, move_lines, opening_line};
pub use read_back::{moves_told, trail_of};
pub use report_fault::ReportFault;
pub use vss_model::{ClosingRow, Evicted, Lists, Outcome, Told};
