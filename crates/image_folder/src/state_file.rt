//! The file of a state, and other files that are written whole.

ghost use Rattle.std.specs.Prelude.{◌≡◌, length};

use crate::device::SumTable;
use crate::own_file::new_file;
use crate::program::Program;
use block_data::{BLOCK, BlockBuf, Hasher};
use std::fs::File;
use std::io;
use std::io::{ErrorKind, Write};
use std::os::unix::fs::FileExt;

/// The header and the table of an area.
#[derive(Clone, Copy)]
pub enum Front<'a> {
    /// So many blocks, as the area's file has them.
    OfFile(&'a File, u32),
    Given(&'a [u8]),
}

/// Writes bytes, and adds them to a digest.
fn write_part(file: &mut File, hasher: &mut Hasher, part: &[u8]) -> io::Result<()> {
    hasher.add(part);
    file.write_all(part)
}

/// Writes the sums, and adds them to a digest.
fn write_sums(
    file: &mut File,
    block: &mut [u8],
    hasher: &mut Hasher,
    sums: &SumTable,
) -> io::Result<()> {
    let mut number = 0usize;
    for _part in 0..u32::MAX {
        let count = sums.fill(number, block);
        if count == 0 {
            break;
        }
        write_part(file, hasher, &block[..count])?;
        number = number.saturating_add(count / 8);
    }
    Ok(())
}

/// Writes a state: a head, the front of the area, the sums, and the digest of all.
fn write_parts(
    file: &mut File,
    block: &mut [u8],
    head: &[u8],
    front: Front<'_>,
    sums: Option<&SumTable>,
) -> io::Result<()>
    requires { length block.old ≡ BLOCK }
{
    let mut hasher = Hasher::new();
    write_part(file, &mut hasher, head)?;
    match front {
        Front::Given(front) => write_part(file, &mut hasher, front)?,
        Front::OfFile(area, blocks) => {
            for index in 0..blocks {
                area.read_exact_at(block, u64::from(index) * BLOCK as u64)?;
                write_part(file, &mut hasher, block)?;
            }
        }
    }
    if let Some(sums) = sums {
        write_sums(file, block, &mut hasher, sums)?;
    }
    file.write_all(hasher.finish().as_slice())
}

/// Makes the file of a state.
pub fn write_state(
    program: &Program,
    path: &str,
    head: &[u8],
    front: Front<'_>,
    sums: Option<&SumTable>,
) -> io::Result<File> {
    let mut file = new_file(program, path)?;
    let Ok(mut block) = BlockBuf::zeroed(program.alloc()) else {
        return Err(io::Error::from(ErrorKind::OutOfMemory));
    };
    write_parts(&mut file, block.bytes_mut(), head, front, sums)?;
    Ok(file)
}

/// Makes a file of these bytes.
pub fn write_whole(program: &Program, path: &str, bytes: &[u8]) -> io::Result<File> {
    let mut file = new_file(program, path)?;
    file.write_all(bytes)?;
    Ok(file)
}
