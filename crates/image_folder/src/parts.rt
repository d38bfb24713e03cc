//! A file may be longer than a volume. Then several volumes keep it, its parts: the first has the name of the file, and each other one that name and
//! its number, as `db..001`. A part that another one follows has 65,535 blocks of the file, and like each volume a last block with the length of what
//! it has. So a file of so many blocks has room for 16,384 bytes in each of them but for the last eight, in one volume or in many.

ghost use Rattle.std.specs.Prelude.{◌≡◌, ◌<◌, ◌≤◌, ◌+◌, ◌*◌, ◌-◌, ◌/◌, IfOk, IfSome, length};
ghost use Rattle.image_folder.specs.Parts.{part_name, piece_length};

use crate::program::Program;
use crate::status::Status;
use block_data::BLOCK;
use std::alloc::Global;
use vss_names::{MOST_BLOCKS, MOST_NAME, MOST_VOLUMES, OutOfMemory, Text};

/// How many blocks of its file a part has that another one follows.
pub const PART: u32 = MOST_BLOCKS - 1;

/// How many bytes these are.
const PART_BYTES: u64 = PART as u64 * BLOCK as u64;

/// The most blocks of a file.
pub const MOST_OF_FILE: u32 = MOST_VOLUMES * PART + 1;

/// How many bytes the name of a part has behind that of its file.
const TAIL: usize = 5;

/// Which part of its file a volume keeps: the number, from 0 on.
#[derive(Clone, Copy)]
pub struct Part {
    pub number: u32,
    pub is_last: bool,
}

impl Part {
    /// All of a file.
    pub const WHOLE: Part = Part {
        number: 0,
        is_last: true,
    };

    /// The part of this number of a file of so many.
    pub fn of(number: usize, parts: usize) -> Part {
        Part {
            number: u32::try_from(number).unwrap_or(u32::MAX),
            is_last: number.saturating_add(1) >= parts,
        }
    }

    /// Where it begins in its file.
    pub fn start(self) -> u64
        ensures { result ≡ self.number * 1073725440 }
    {
        u64::from(self.number) * PART_BYTES
    }

    /// How many bytes it has of a file of so many.
    pub fn length_in(self, length: u64) -> u64
        ensures { result ≡ piece_length 1073725440 self.number self.is_last length }
    {
        let left = length.saturating_sub(self.start());
        if self.is_last {
            left
        } else {
            left.min(PART_BYTES)
        }
    }
}

/// How many parts a file of so many blocks has.
pub fn parts_for(blocks: u32) -> u32
    ensures value { result ≡ 1 + (blocks - 2) / 65535 }
    ensures few { blocks ≤ MOST_OF_FILE → result ≤ MOST_VOLUMES }
{
    1 + blocks.saturating_sub(2) / PART
}

/// How many blocks the volume of a part has, of a file of so many blocks.
pub fn blocks_of_part(blocks: u32, number: u32) -> u32
    ensures other { number < (blocks - 2) / 65535 → result ≡ MOST_BLOCKS }
    ensures last { number ≡ (blocks - 2) / 65535 → number * 65535 + result ≡ blocks }
    ensures few { number ≡ (blocks - 2) / 65535 → result ≤ MOST_BLOCKS }
{
    if number.saturating_add(1) < parts_for(blocks) {
        return MOST_BLOCKS;
    }
    blocks.saturating_sub(number.saturating_mul(PART))
}

/// How many blocks a file has that is kept in so many parts, of which the last has so many.
pub fn blocks_of_file(parts: usize, last: u32) -> u32
    ensures { parts ≤ 128 → last ≤ 65536 → result ≡ (parts - 1) * 65535 + last }
{
    let others = u32::try_from(parts.saturating_sub(1)).unwrap_or(MOST_VOLUMES);
    others.saturating_mul(PART).saturating_add(last)
}

/// The name of a part of the file of a name.
pub fn part_name(alloc: Global, name: &[u8], number: u32) -> Result<Text, OutOfMemory>
    ensures { IfOk result (λ text. text.bytes ≡ part_name name.now number) }
{
    let mut text = Text::copy(alloc, name)?;
    if number > 0 {
        let [hundreds, tens, ones] = [number / 100 % 10, number / 10 % 10, number % 10];
        text.add(&[
            b'.',
            b'.',
            b'0' + hundreds as u8,
            b'0' + tens as u8,
            b'0' + ones as u8,
        ])?;
    }
    Ok(text)
}

/// The name of a file, and the number of a part of it, in the name of this part.
pub fn parted(name: &[u8]) -> Option<(&[u8], u32)>
    ensures { IfSome result (λ it. 0 < it.1 → name.now ≡ part_name it.0.now it.1) }
{
    match name {
        [
            whole @ ..,
            b'.',
            b'.',
            hundreds @ b'0'..=b'9',
            tens @ b'0'..=b'9',
            ones @ b'0'..=b'9',
        ] => {
            let [hundreds, tens, ones] = [hundreds - b'0', tens - b'0', ones - b'0'];
            let number = 100 * u32::from(hundreds) + 10 * u32::from(tens) + u32::from(ones);
            Some((whole, number))
        }
        _ => None,
    }
}

/// The text of a name.
pub fn text_of(name: &Text) -> &str {
    std::str::from_utf8(name.bytes()).unwrap_or("")
}

/// That the parts of a file of so many blocks may have names behind that of the file.
pub fn check_parts(program: &Program, name: &str, blocks: u32) -> Result<(), Status> {
    if parts_for(blocks) > 1 && name.len() + TAIL > MOST_NAME as usize {
        let most = MOST_NAME as usize - TAIL;
        return Err(
            ended!(*program, Refused; "name `{name}`: more than {most} bytes, and {blocks} blocks take several volumes"),
        );
    }
    Ok(())
}
