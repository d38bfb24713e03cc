//! A picture of a run, drawn of its report.
//!
//! `draw` writes the picture of a run to a sink. `Picture::of` reads the report line by line, and the scenario beside it where
//! there is one, into a model: who took part (`Cast`), a `Mark` for each line of a move, an effect or the end, and a `Bar` for whatever
//! lasts (a set in the making, a frozen writer, a held volume, an image). `to_svg` writes the model as a drawing for a browser, in bands
//! of at most 48 marks one below another, `to_lines` as lines for a terminal.
//!
//! Contracts promise that a report is refused exactly at its first line that is none or is another scenario's (`specs/Refused.antt`); that in a
//! drawing each text is escaped, and whatever else is fixed or a number (`specs/Drawn.antt`); and that the other form has lines of at most 100
//! printable bytes (`specs/Drawn.antt`). Which marks, labels, rows and bars there are, and where, is tested only.

mod axis;
mod band;
mod band_row;
mod bar;
mod bar_kind;
mod bars;
mod cast;
mod drawing;
mod drawn_bands;
mod drawn_marks;
mod ended;
mod ending;
mod escaping;
mod fault;
mod fold;
mod form;
mod frame;
mod label;
mod labels;
mod layout;
mod letters;
mod lines;
mod mark;
mod named;
mod part;
mod pick;
mod picture;
mod picture_error;
mod place;
mod plain;
mod refusal;
mod refusing;
mod row;
mod row_bars;
mod row_kind;
mod row_use;
mod run;
mod scale;
mod script;
mod shape;
mod sheet;
mod span;
mod stage;
mod svg;
mod words;
mod writes;

pub use axis::Axis;
pub use drawing::draw;
pub use ended::Ended;
pub use fault::Fault;
pub use form::Form;
pub use refusal::Refusal;
pub use run::Run;
pub use span::Span;
