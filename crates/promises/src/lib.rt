//! What a reader may believe of the service without reading its definitions, as laws about every run.
//!
//! Each law is a function that does nothing; its contract is the law, over every list of acts. What a law says stands in
//! `specs/`, in the words of the subject: an act is a line of a lane, an answer of a writer, a step of the provider or an
//! idle stretch. docs/PROMISES.md has them in plain sentences.
#![tactic(auto)]

pub mod facts;
pub mod laws;
