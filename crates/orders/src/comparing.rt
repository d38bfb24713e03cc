//! A text beside a report, line by line.

ghost use Rattle.std.specs.Prelude.{◌≡◌, ◌≤◌, Some, None, length, IfSome, IfNone};
ghost use Rattle.vss_report.specs.Pieces.{pieces_at};
ghost use Rattle.orders.specs.declared.telling.TheConstants.{MOST_BYTES};
ghost use Rattle.orders.specs.Again.{first_other, end_both};

use crate::other::Other;
use vss_report::pieces::{is_over, piece_at};

/// Whether the pieces of two texts from these places on are both over, or both not.
fn end_both(text: &[u8], report: &[u8], next: usize) -> bool
    ensures { result ≡ end_both (pieces_at 10 text.now next) (pieces_at 10 report.now next) }
{
    (is_over(text, b'\n', next) && is_over(report, b'\n', next))
        || (!is_over(text, b'\n', next) && !is_over(report, b'\n', next))
}

/// The first line of a text that is another than the report's, or after which one of them ends and the other goes on.
pub fn first_other<'a>(text: &[u8], report: &'a [u8]) -> Option<Other<'a>>
    requires { length text.now ≤ MOST_BYTES }
    ensures some { IfSome result (λ other. first_other text.now report.now ≡ Some (record { line = other.line; wanted = other.wanted.now })) }
    ensures none { IfNone result (first_other text.now report.now ≡ None) }
{
    let mut at = 0usize;
    let mut number = 1u32;
    'lines: while at <= text.len() {
        if at > report.len() {
            return None;
        }
        let line = piece_at(text, b'\n', at);
        let wanted = piece_at(report, b'\n', at);
        let next = at + line.len() + 1;
        if line != wanted {
            return Some(Other {
                line: number,
                wanted,
            });
        }
        if !end_both(text, report, next) {
            return Some(Other {
                line: number,
                wanted,
            });
        }
        at = next;
        number += 1;
    }
    None
}
