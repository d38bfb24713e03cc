//! The state of a writer in a word, as it is read back: its name, `=`, the state, and behind a failed one `/` and its code.

ghost use Rattle.std.specs.Prelude.{◌≡◌, Some};
ghost use Rattle.vss_report.specs.Pieces.{pieces_at};
ghost use Rattle.vss_report.specs.Shapes as shapes;

use crate::pieces::{is_over, part_at};
use crate::shapes::is;
use vss_names::WriterState;
use writer_state::is_failed;

/// Whether a word is the code of a writer error.
#[tactic(auto, unfolding(hex::specs::Hex::encode_with))]
fn is_code(word: &[u8]) -> bool
    ensures { result ≡ shapes.is_code word.now }
{
    is(word, "0x800423F0")
        || is(word, "0x800423F1")
        || is(word, "0x800423F2")
        || is(word, "0x800423F3")
        || is(word, "0x800423F4")
}

/// Whether a code is left, and no more.
fn is_one_code(text: &[u8], at: usize) -> bool
    ensures { result ≡ shapes.is_one shapes.is_code (pieces_at 47 text.now at) }
{
    let Some(code) = part_at(text, b'/', at) else {
        return false;
    };
    is_code(code.text) && is_over(text, b'/', code.next)
}

/// Whether a code is left behind a failed state, and nothing behind another.
fn is_coded(state: WriterState, text: &[u8], at: usize) -> bool
    ensures { result ≡ shapes.is_coded (Some state) (pieces_at 47 text.now at) }
{
    if is_failed(state) {
        is_one_code(text, at)
    } else {
        is_over(text, b'/', at)
    }
}

/// Whether a text is a state with its code.
#[tactic(auto, using(crate::proofs::Joined::from_first))]
fn is_state(text: &[u8]) -> bool
    ensures { result ≡ shapes.is_state text.now }
{
    let Some(name) = part_at(text, b'/', 0) else {
        return false;
    };
    let Some(state) = WriterState::of_name(name.text) else {
        return false;
    };
    is_coded(state, text, name.next)
}

/// Whether a state is left, and no more.
fn is_one_state(word: &[u8], at: usize) -> bool
    ensures { result ≡ shapes.is_one shapes.is_state (pieces_at 61 word.now at) }
{
    let Some(state) = part_at(word, b'=', at) else {
        return false;
    };
    is_state(state.text) && is_over(word, b'=', state.next)
}

/// Whether a word is the name of a writer and its state.
#[tactic(auto, using(crate::proofs::Joined::from_first))]
pub fn is_state_of(name: &[u8], word: &[u8]) -> bool
    ensures { result ≡ shapes.is_state_of name.now word.now }
{
    let Some(who) = part_at(word, b'=', 0) else {
        return false;
    };
    who.text == name && is_one_state(word, who.next)
}
