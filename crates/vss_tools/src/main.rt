//! The program `vss_tools`: people's tools beside `vss`, one word each.
//!
//!     vss_tools orders WORD..      runs of a scenario in an order of moves, for `./orders`
//!     vss_tools timeline WORD..    a picture of a run, for `./timeline`
//!     vss_tools explain WORD..     what is wrong with what `vss` has refused, for `./vss`
//!
//! Each tool reads its own words, and ends with a status of its own; they are those of `vss`.
#![tactic(auto)]

mod explaining;
mod picturing;
mod playing;
mod reading;
mod timeline;

use std::env::Env;
use std::process::ExitCode;
use std::{env, io};

/// The words behind the tool's own.
fn words_given(rt: &HostRuntime) -> io::Result<Vec<String>> {
    let mut words = Vec::new(rt.alloc());
    for word in env::args(rt)?.skip(2) {
        words.push(word)?;
    }
    Ok(words)
}

/// The tool's word alone, so that no other word can hide which tool has to answer.
fn main(rt: HostRuntime) -> ExitCode {
    let mut word = [0u8; 8];
    let count = rt.arg(1, &mut word).unwrap_or(0);
    let status = match word.get(..count).unwrap_or(&[]) {
        b"orders" => playing::play(&rt, &rt),
        b"timeline" => picturing::draw_picture(&rt),
        b"explain" => explaining::explain(&rt),
        _ => {
            let _ = eprintln!(rt;
                "vss_tools: usage: orders WORD.., timeline WORD.. or explain WORD.."
            );
            2
        }
    };
    ExitCode::from(status)
}
