//! A scenario: what it declares, and the lines of its lanes.
//!
//! `specs/Plan.antt` has what a scenario says, as the definitions read it. `specs/Grammar.antt` says which text is which
//! scenario: the text is cut into lines, each line says something after the lines before it or is refused
//! (`specs/Grammar.antt`, with `specs/Declarations.antt` for what is declared and `specs/Ops.antt` for the lines of a lane),
//! and the first refused line is told: `reading_of`. `parse` is proved to answer exactly that, unless memory runs out.
//! Contracts see a `Scenario` as its plan, which keeps to the limits of `specs/Bounds.antt` and has names by
//! `specs/Named.antt`. Where each volume is among the groups (`specs/Places.antt`) is found once, when the text is read.
//!
//! The reader holds what every line says (`specs/Drafts.antt`); names are found in tables, and so are the rows of a
//! writer's script.
#![tactic(auto)]

mod area_row;
mod asked;
mod cause;
mod closing;
mod counts;
mod declarations;
mod draft;
mod entries;
mod entry;
mod expected;
mod field;
mod field_values;
mod fields;
mod forms;
mod given;
mod group_row;
mod kept_rows;
mod lane;
mod lane_line;
pub mod laws;
mod line;
mod name_kind;
mod name_table;
pub mod numbers;
mod op;
mod ops;
mod parsing;
mod parts;
mod place;
mod quantity;
mod reason;
mod refusal;
mod refused;
mod scenario;
mod scenario_builder;
mod script;
mod span;
mod stopped;
mod text_line;
mod unread;
mod value;
mod value_lines;
mod volume_row;
mod word;
mod writer;
mod writer_lines;

pub use cause::Cause;
pub use expected::Expected;
pub use group_row::GroupRow;
pub use lane_line::LaneLine;
pub use line::Line;
pub use name_kind::NameKind;
pub use op::Op;
pub use parsing::{parse, parse_text, refusal_of};
pub use place::Place;
pub use quantity::Quantity;
pub use reason::Reason;
pub use refusal::Refusal;
pub use refused::Refused;
pub use scenario::Scenario;
pub use scenario_builder::ScenarioBuilder;
pub use span::Span;
pub use volume_row::VolumeRow;
pub use word::Word;
