//! Scenarios whose runs are known: worked ones (`worked_rows`), and the generated ones with their texts and the law of how each of their
//! runs ends, whatever the order of its moves.
//!
//! Eight volumes, a writer of each level, one lane that makes four sets over all of it, and fifteen lanes with two hundred writes each,
//! whose volumes and blocks are drawn by a linear congruence (`specs/Draws.antt`). `gen_scenario` has the exact bytes of the scenario
//! (`specs/ScenarioText.antt`). No two lanes write one block, so each block ends with the last write of its one lane
//! (`specs/Contents.antt`). `summary` has the exact bytes that say so (`specs/Contents.antt`), from the number alone, and `summary_of`
//! from digests that the caller has, as a run's own.
//!
//! `specs/Scenario.antt` says which scenario is the generated one of a number, `specs/Contents.antt` how its runs end: four
//! complete sets, nothing evicted, and each block as its one lane wrote it last. `laws::generated_runs_end_well` says that each
//! legal and complete trail without fault marks ends so. It rests on a law of more scenarios (`specs/Smooth.antt`): where one
//! lane makes the sets and its lines lead on, the others only write, each writer answers ok, and each volume has slots of its own
//! for all its blocks in each set, all sets complete and nothing is evicted.
//!
//! `laws::generated_texts_are_read` says that the text that `gen_scenario` gives for a number is read as the generated scenario of
//! that number. The text depends on the number in its `write` lines alone, so one of those is read with its numbers left open; what
//! is before them is read line by line (`proofs/Reader.antt`), and the lines of a lane one after another (`proofs/SetTexts.antt`).
#![tactic(auto)]

mod draws;
mod final_contents;
mod lane_write;
pub mod laws;
mod pieces;
mod scenario_text;
mod summary_text;
pub mod worked_rows;

pub use scenario_text::gen_scenario;
pub use summary_text::{summary, summary_of};
