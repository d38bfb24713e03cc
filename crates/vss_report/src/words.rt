//! Small writers: each appends one word to a text that has room for it, and tells how much room it takes at most.

ghost use Rattle.std.specs.Prelude.{◌≡◌, ◌+◌, ◌*◌, ◌≤◌, ◌<◌, ◌++◌, ◌∷◌, [], length, codes};
ghost use Rattle.std.specs.Fmt.{decimal};
ghost use Rattle.std.specs.Int.{to_be_bytes, w32};
ghost use Rattle.hex.specs.Hex.{encode_lower, encode_upper};
ghost use Rattle.vss_report.specs.Words.{spaced, code_text, state_text};

use itoa::Buffer;
use vss_names::{Text, WriterError};
use writer_state::WriterRow;

/// The upper-case hexadecimal digits.
const UPPER_DIGITS: &[u8; 16] = b"0123456789ABCDEF";

/// Appends these bytes.
pub fn add(out: &mut Text, piece: &[u8])
    requires { length piece.now ≤ out.old.spare }
    ensures bytes { out.new.bytes ≡ out.old.bytes ++ piece.now }
    ensures spare { out.old.spare ≤ out.new.spare + length piece.now }
{
    let _ = out.add(piece);
}

/// Appends a number in decimal digits.
pub fn add_number(out: &mut Text, n: u64)
    requires { 20 ≤ out.old.spare }
    ensures bytes { out.new.bytes ≡ out.old.bytes ++ decimal n }
    ensures spare { out.old.spare ≤ out.new.spare + 20 }
{
    let mut buffer = Buffer::new();
    add(out, buffer.format(n).as_bytes());
}

/// Appends a number of four bytes in decimal digits.
pub fn add_short_number(out: &mut Text, n: u32)
    requires { 10 ≤ out.old.spare }
    ensures bytes { out.new.bytes ≡ out.old.bytes ++ decimal n }
    ensures spare { out.old.spare ≤ out.new.spare + 10 }
{
    let mut buffer = Buffer::new();
    add(out, buffer.format(n).as_bytes());
}

/// Appends a space and a number.
pub fn add_spaced_number(out: &mut Text, n: u64)
    requires { 21 ≤ out.old.spare }
    ensures bytes { out.new.bytes ≡ out.old.bytes ++ spaced (decimal n) }
    ensures spare { out.old.spare ≤ out.new.spare + 21 }
{
    add(out, b" ");
    add_number(out, n);
}

/// Appends the first eight bytes of a block, in hexadecimal digits of lower case.
pub fn add_first(out: &mut Text, first: &[u8; 8])
    requires { 16 ≤ out.old.spare }
    ensures bytes { out.new.bytes ≡ out.old.bytes ++ encode_lower first.now }
    ensures spare { out.old.spare ≤ out.new.spare + 16 }
{
    let mut digits = [0; 16];
    let _ = hex::encode_to_slice(*first, &mut digits);
    add(out, &digits);
}

/// Appends a digest, in hexadecimal digits of lower case.
pub fn add_digest(out: &mut Text, digest: &[u8; 32])
    requires { 64 ≤ out.old.spare }
    ensures bytes { out.new.bytes ≡ out.old.bytes ++ encode_lower digest.now }
    ensures spare { out.old.spare ≤ out.new.spare + 64 }
{
    let mut digits = [0; 64];
    let _ = hex::encode_to_slice(*digest, &mut digits);
    add(out, &digits);
}

/// Appends a byte as two hexadecimal digits of upper case.
#[tactic(auto, unfolding(hex::specs::Hex::encode_with))]
fn add_upper(out: &mut Text, byte: u8)
    requires { 2 ≤ out.old.spare }
    ensures bytes { out.new.bytes ≡ out.old.bytes ++ encode_upper (byte ∷ []) }
    ensures spare { out.old.spare ≤ out.new.spare + 2 }
{
    let high = UPPER_DIGITS[(byte / 16) as usize];
    let low = UPPER_DIGITS[(byte % 16) as usize];
    add(out, &[high, low]);
}

/// Appends a number of four bytes as eight hexadecimal digits of upper case.
#[tactic(auto, unfolding(hex::specs::Hex::encode_with))]
fn add_upper_number(out: &mut Text, n: u32)
    requires { 8 ≤ out.old.spare }
    ensures bytes { out.new.bytes ≡ out.old.bytes ++ encode_upper (to_be_bytes w32 n) }
    ensures spare { out.old.spare ≤ out.new.spare + 8 }
{
    let bytes = n.to_be_bytes();
    add_upper(out, bytes[0]);
    add_upper(out, bytes[1]);
    add_upper(out, bytes[2]);
    add_upper(out, bytes[3]);
}

/// Appends `/0x` and the number of an error, where there is one.
pub fn add_code(out: &mut Text, code: Option<WriterError>)
    requires { 11 ≤ out.old.spare }
    ensures bytes { out.new.bytes ≡ out.old.bytes ++ code_text code }
    ensures spare { out.old.spare ≤ out.new.spare + 11 }
{
    let error = match code {
        None => return,
        Some(error) => error,
    };
    add(out, b"/0x");
    add_upper_number(out, error.number());
}

/// Appends the state of a writer, with its code where it failed.
pub fn add_state(out: &mut Text, row: &WriterRow)
    requires { 45 ≤ out.old.spare }
    ensures bytes { out.new.bytes ≡ out.old.bytes ++ state_text row.now }
    ensures spare { out.old.spare ≤ out.new.spare + 45 }
{
    let name = row.state.name();
    add(out, name.as_bytes());
    add_code(out, row.code);
}
