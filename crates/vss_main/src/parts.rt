//! The words of a command, parted by `clap`.

ghost use Rattle.std.specs.Prelude.{◌≡◌, true, codes, map, slice_get, option_map, string_bytes, IfOk, IfErr};
ghost use Rattle.clap.specs.Words.{first_value, found_of, kind_of};
ghost use Rattle.vss_main.specs.Command.{are_plain};

use clap::error::ErrorKind;
use clap::{Arg, ArgMatches, Command, Error};
use std::alloc::Global;
use vss_names::OutOfMemory;

/// The words of a command, in order; it has three at most.
#[derive(Clone, Copy, Debug)]
pub struct Parts<'a> {
    pub first: Option<&'a str>,
    pub second: Option<&'a str>,
    pub third: Option<&'a str>,
}

/// What `clap` makes of the words. It refuses none of them.
fn matches_of<'a>(alloc: Global, words: &'a [String]) -> Result<ArgMatches<'a>, Error>
    requires { are_plain (map string_bytes words.now) ≡ true }
    ensures first { IfOk result (λ m. first_value (found_of m) (codes "first") ≡ slice_get (map string_bytes words.entry.now) 0) }
    ensures second { IfOk result (λ m. first_value (found_of m) (codes "second") ≡ slice_get (map string_bytes words.entry.now) 1) }
    ensures third { IfOk result (λ m. first_value (found_of m) (codes "third") ≡ slice_get (map string_bytes words.entry.now) 2) }
    ensures err { IfErr result (λ e. kind_of e ≡ ErrorKind.OutOfMemory) }
{
    let first = Arg::new(alloc, "first");
    let second = Arg::new(alloc, "second");
    let third = Arg::new(alloc, "third");
    let named = Command::new(alloc, "vss");
    let bare = named.no_binary_name(true);
    let plain = bare.disable_help_flag(true);
    let one = plain.arg(first)?;
    let two = one.arg(second)?;
    let parser = two.arg(third)?;
    parser.try_get_matches_from(words)
}

/// Parts the words, of which none begins with `-` and which are three at most.
pub fn parts_of<'a>(alloc: Global, words: &'a [String]) -> Result<Parts<'a>, OutOfMemory>
    requires { are_plain (map string_bytes words.now) ≡ true }
    ensures first { IfOk result (λ parts. option_map (λ s. s.now) parts.first ≡ slice_get (map string_bytes words.entry.now) 0) }
    ensures second { IfOk result (λ parts. option_map (λ s. s.now) parts.second ≡ slice_get (map string_bytes words.entry.now) 1) }
    ensures third { IfOk result (λ parts. option_map (λ s. s.now) parts.third ≡ slice_get (map string_bytes words.entry.now) 2) }
{
    match matches_of(alloc, words) {
        Ok(matches) => Ok(Parts {
            first: matches.get_str("first"),
            second: matches.get_str("second"),
            third: matches.get_str("third"),
        }),
        Err(_) => Err(OutOfMemory),
    }
}
