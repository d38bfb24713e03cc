//! A text in pieces: a report in lines, a line in words.

ghost use Rattle.std.specs.Prelude.{◌≡◌, ◌+◌, ◌≤◌, ◌<◌, ◌∷◌, [], length, drop, IfSome, IfNone};
ghost use Rattle.vss_report.specs.Pieces.{pieces_at, is_over};

/// A piece of a text, as a word of a line, and the place of the next.
#[derive(Clone, Copy)]
pub struct Word<'a> {
    pub text: &'a [u8],
    pub next: usize,
}

/// The piece that begins at a place, up to the next byte `mark` or the text's end.
pub fn piece_at(text: &[u8], mark: u8, at: usize) -> &[u8]
    requires { at ≤ length text.now }
    ensures next { pieces_at mark text.now at ≡ result.now ∷ pieces_at mark text.now (at + length result.now + 1) }
    ensures inside { at + length result.now ≤ length text.now }
{
    for end in at..text.len() {
        if text[end] == mark {
            return &text[at..end];
        }
    }
    &text[at..text.len()]
}

/// Whether no piece begins at a place or after it.
#[tactic(auto, using(crate::proofs::Joined::some_piece))]
pub fn is_over(text: &[u8], mark: u8, at: usize) -> bool
    ensures { result ≡ is_over (pieces_at mark text.now at) }
{
    at > text.len()
}

/// The piece that begins at a place, where one does.
#[tactic(auto, using(crate::proofs::Joined::no_piece))]
pub fn part_at(text: &[u8], mark: u8, at: usize) -> Option<Word<'_>>
    ensures some { IfSome result (λ part. pieces_at mark text.now at ≡ part.text.now ∷ pieces_at mark text.now part.next) }
    ensures none { IfNone result (pieces_at mark text.now at ≡ []) }
    ensures later { IfSome result (λ part. at < part.next) }
    ensures inside { IfSome result (λ part. part.next ≤ length text.now + 1) }
{
    if at > text.len() {
        return None;
    }
    let part = piece_at(text, mark, at);
    Some(Word {
        text: part,
        next: at + part.len() + 1,
    })
}

/// The word that begins at a place.
pub fn word_at(line: &[u8], at: usize) -> Option<Word<'_>>
    ensures some { IfSome result (λ word. pieces_at 32 line.now at ≡ word.text.now ∷ pieces_at 32 line.now word.next) }
    ensures none { IfNone result (pieces_at 32 line.now at ≡ []) }
    ensures later { IfSome result (λ word. at < word.next) }
    ensures inside { IfSome result (λ word. word.next ≤ length line.now + 1) }
{
    part_at(line, b' ', at)
}
