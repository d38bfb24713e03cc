//! Whom or what a line of a report names.

ghost use Rattle.std.specs.Prelude.{◌≡◌};
ghost use Rattle.vss_tools.specs.Lines.{named_in, named_in_effect, named_in_move, named_in_other, named_of, volume_or_provider};

use crate::timeline::lines::is_move;
use crate::timeline::row::Row;
use crate::timeline::row_kind::RowKind;
use crate::timeline::words::{parted, rest_of, word_of};

fn volume_or_provider(name: &str) -> Row<'_>
    ensures { named_of result ≡ volume_or_provider name.now }
{
    if name.is_empty() {
        return Row::provider();
    }
    Row {
        kind: RowKind::Volume,
        name,
    }
}

/// By what follows a move's number.
fn named_in_move<'a>(actor: &'a str, said: &'a str) -> Row<'a>
    ensures { named_of result ≡ named_in_move actor.now said.now }
{
    if actor == "lane" {
        return Row {
            kind: RowKind::Lane,
            name: word_of(said),
        };
    }
    if actor == "writer" {
        return Row {
            kind: RowKind::Writer,
            name: word_of(said),
        };
    }
    if actor == "provider" {
        return volume_or_provider(word_of(rest_of(said)));
    }
    Row::time()
}

/// By what follows the sign of an effect.
fn named_in_effect<'a>(what: &'a str, said: &'a str) -> Row<'a>
    ensures { named_of result ≡ named_in_effect what.now said.now }
{
    if what == "evicted" {
        return Row {
            kind: RowKind::Volume,
            name: word_of(rest_of(said)),
        };
    }
    if what == "writer" {
        return Row {
            kind: RowKind::Writer,
            name: word_of(said),
        };
    }
    Row::provider()
}

/// By an effect's or a closing line's words.
fn named_in_other<'a>(first: &'a str, said: &'a str) -> Row<'a>
    ensures { named_of result ≡ named_in_other first.now said.now }
{
    if first == "=" {
        let (what, said) = parted(said);
        return named_in_effect(what, said);
    }
    if first == "volume" {
        return Row {
            kind: RowKind::Volume,
            name: word_of(said),
        };
    }
    if first == "image" {
        return Row {
            kind: RowKind::Volume,
            name: word_of(rest_of(said)),
        };
    }
    if first == "writer" {
        return Row {
            kind: RowKind::Writer,
            name: word_of(said),
        };
    }
    Row::time()
}

/// The row that a line of a report belongs to.
pub fn named_in(line: &str) -> Row<'_>
    ensures { named_of result ≡ named_in line.now }
{
    let (first, said) = parted(line);
    if is_move(line) {
        let (actor, said) = parted(said);
        return named_in_move(actor, said);
    }
    named_in_other(first, said)
}
