//! Which lines of a report are refused.

ghost use Rattle.std.specs.Prelude.{◌≡◌};
ghost use Rattle.vss_tools.specs.Lines.{named_of};
ghost use Rattle.vss_tools.specs.Refused.{fault_of, is_as_scripted, is_declared};

use crate::timeline::fault::Fault;
use crate::timeline::lines::{is_line, is_move};
use crate::timeline::named::named_in;
use crate::timeline::row::Row;
use crate::timeline::script::Script;
use crate::timeline::words::{number, parted, rest_of};

/// Whether a row is declared, or has not to be.
fn is_declared(script: &Script<'_>, row: Row<'_>) -> bool
    ensures { result ≡ is_declared script.now (named_of row.entry) }
{
    let word = row.kind.declaring();
    word.is_empty() || script.declares(word, row.name)
}

/// Whether a line is no lane's move, or that of a line that the lane makes.
fn is_as_scripted(script: &Script<'_>, line: &str) -> bool
    ensures { result ≡ is_as_scripted script.now line.now }
{
    let (actor, said) = parted(rest_of(line));
    if is_move(line) && actor == "lane" {
        let (lane, said) = parted(said);
        let (at, _) = parted(said);
        return script.makes(lane, number(at));
    }
    true
}

/// Why a line is refused beside a scenario, which may be empty.
pub fn fault_of(script: &Script<'_>, line: &str) -> Option<Fault>
    ensures { result ≡ fault_of script.now line.now }
{
    if !is_line(line) {
        return Some(Fault::NoLine);
    }
    if script.is_empty() {
        return None;
    }
    if !is_declared(script, named_in(line)) {
        return Some(Fault::UnknownName);
    }
    if !is_as_scripted(script, line) {
        return Some(Fault::OtherLine);
    }
    None
}
