//! `grow`: a volume gets more blocks. The length of its file is in its last block, and so are those of its images: each image that has a copy of
//! the block that was the last gets one of the new last block.

use crate::creating::{check_blocks, check_of_file};
use crate::device::{BlockSum, SumTable};
use crate::ended::say;
use crate::file_input::{FileInput, NONE};
use crate::folder::{AREA, Folder};
use crate::longer::{Longer, tail_of};
use crate::marker::line_of_parts;
use crate::opened::Opened;
use crate::parts::{
    MOST_OF_FILE, Part, blocks_of_file, blocks_of_part, part_name, parts_for, text_of,
};
use crate::program::Program;
use crate::shape::Shape;
use crate::state::{Row, blocks_in, first_of};
use crate::status::Status;
use crate::sum_fault::say_other;
use crate::volumes::{add_entries, check_count, fill_all};
use block_data::BlockBuf;
use image_order::mark;
use std::alloc::{AllocError, Global};
use std::sync::Arc;
use volume_device::Device;

/// A volume that gets more blocks.
#[derive(Clone, Copy)]
struct Growth<'a> {
    volume: u32,
    name: &'a str,
    /// How many blocks the volumes before it have.
    first: usize,
    /// The block that was the last, and the new last one.
    was: u32,
    last: u32,
}

/// The new last block of an image: the slot that has it, and its last eight bytes.
#[derive(Clone, Copy)]
struct Tail {
    slot: u32,
    tail: u64,
}

/// A number of parts.
fn number_in(parts: usize) -> u32 {
    u32::try_from(parts).unwrap_or(u32::MAX)
}

impl Shape {
    /// How many blocks a volume has.
    fn blocks_of(&self, volume: u32) -> u32 {
        let catalog = self.head.catalog();
        if volume < catalog.volumes() {
            catalog.blocks(volume)
        } else {
            0
        }
    }

    /// What the block ends with that was the last of a volume: the length of its file.
    fn tail_of_volume(&mut self, program: &Program, growth: Growth<'_>) -> Result<u64, Status> {
        let (volume, last) = (growth.volume, growth.was);
        let place = growth.first.saturating_add(last as usize);
        let mut block = BlockBuf::zeroed(program.alloc())?;
        let Some(device) = self.devices.get_mut(volume as usize) else {
            return Err(Status::DeviceFault);
        };
        let is_read = last < device.blocks() && device.read_into(last, block.bytes_mut()).is_ok();
        if !is_read {
            return Err(Status::DeviceFault);
        }
        match self.sums.get(place) {
            Some(sum) if sum == BlockSum::of(block.bytes()) => Ok(tail_of(block.bytes())),
            _ => Err(say_other(program, device, last, &[])),
        }
    }

    /// Gives a free slot this row.
    fn take_slot(&mut self, folder: &Folder, name: &str, row: Row) -> Result<u32, Status> {
        for slot in 0..self.slots {
            if !self.is_used(slot) {
                if let Some(free) = self.rows.get_mut(slot as usize) {
                    *free = row;
                }
                return Ok(slot);
            }
        }
        let path = folder.path.as_str();
        Err(
            ended!(folder.program, Refused; "{path}: slots: too few are free for the images of {name}; ./images grow {path} SLOTS makes more"),
        )
    }

    /// The new last blocks of the images of a volume: of each that has a copy of the block that was the last.
    fn new_tails(&mut self, folder: &Folder, growth: Growth<'_>) -> Result<Vec<Tail>, Status> {
        let alloc = folder.program.alloc();
        let (mut tails, mut block) = (Vec::new(alloc), BlockBuf::zeroed(alloc)?);
        for slot in 0..self.slots {
            match self.rows.get(slot as usize).copied() {
                Some(row) if row.set != 0 && growth.is_of(row) => {
                    self.read_slot(slot, &mut block)?;
                    let row = Row {
                        block: growth.last,
                        ..row
                    };
                    tails.push(Tail {
                        slot: self.take_slot(folder, growth.name, row)?,
                        tail: tail_of(block.bytes()),
                    })?;
                }
                _ => {}
            }
        }
        Ok(tails)
    }
}

impl<'a> Growth<'a> {
    /// That of a volume which gets so many blocks.
    fn of(shape: &Shape, volume: u32, name: &'a str, blocks: u32) -> Result<Growth<'a>, Status> {
        let catalog = shape.head.catalog();
        if volume >= catalog.volumes() {
            return Err(Status::DeviceFault);
        }
        Ok(Growth {
            volume,
            name,
            first: first_of(catalog, volume),
            was: catalog.blocks(volume).saturating_sub(1),
            last: blocks.saturating_sub(1),
        })
    }

    /// Whether a row is of the block that was the last.
    fn is_of(self, row: Row) -> bool {
        row.volume == self.volume && row.block == self.was
    }

    /// How many blocks the volume has then.
    fn blocks(self) -> u32 {
        self.last.saturating_add(1)
    }

    /// Gives the volume its new last block, with its length, and each image its own.
    fn write(
        self,
        folder: &Folder,
        shape: &Shape,
        sums: &SumTable,
        tails: &Tails,
    ) -> Result<(), Status> {
        let (program, last) = (&folder.program, self.last);
        let file = Longer::grown(program, folder.path_of_volume(self.name)?, self.blocks())?;
        file.put_tail(
            last,
            tails.own,
            sums,
            self.first.saturating_add(last as usize),
        )?;
        file.sync()?;
        let all = blocks_in(shape.head.catalog());
        let size = shape.front.saturating_add(shape.slots);
        let area = Longer::grown(program, folder.path_of(AREA)?, size)?;
        for one in &tails.images {
            let (index, place) = (shape.front.saturating_add(one.slot), one.slot as usize);
            area.put_tail(index, one.tail, sums, all.saturating_add(place))?;
        }
        area.sync()
    }
}

/// What a volume that gets more blocks gets behind them: the length of its file, and those of its images.
#[derive(Drop)]
struct Tails {
    own: u64,
    images: Vec<Tail>,
}

/// Gives the volume its new size, in memory.
fn resize(folder: &Folder, shape: &mut Shape, growth: Growth<'_>) -> Result<Tails, Status> {
    let program = folder.program;
    let own = shape.tail_of_volume(&program, growth)?;
    let images = shape.new_tails(folder, growth)?;
    let behind = growth
        .first
        .saturating_add(growth.was as usize)
        .saturating_add(1);
    let more = growth.last.saturating_sub(growth.was) as usize;
    let sums = shape.parted_sums(&program, behind, more)?;
    let (volume, blocks) = (growth.volume, growth.blocks());
    check_blocks(&program, growth.name, blocks)?;
    if volume >= shape.head.catalog().volumes() {
        return Err(Status::DeviceFault);
    }
    shape.head.resize(volume, blocks);
    shape.sums = Arc::new(program.alloc(), sums)?;
    Ok(Tails { own, images })
}

/// The further parts of a file that gets so many blocks, behind so many that there are: of zeros.
fn new_parts<'a>(
    program: &Program,
    name: &'a str,
    had: u32,
    blocks: u32,
) -> Result<Vec<FileInput<'a>>, Status> {
    let (mut inputs, parts) = (Vec::new(program.alloc()), parts_for(blocks));
    for number in had..parts {
        let mut input = FileInput::open(program, NONE)?;
        input.name = name;
        let part = Part::of(number as usize, parts as usize);
        input.take_part(part, blocks_of_part(blocks, number));
        inputs.push(input)?;
    }
    Ok(inputs)
}

/// That a file may have so many blocks, which had so many, and gets these volumes.
fn check_more(
    program: &Program,
    shape: &Shape,
    name: &str,
    (had, blocks): (u32, u32),
    inputs: &[FileInput<'_>],
) -> Result<(), Status> {
    check_of_file(program, name, blocks)?;
    if blocks <= had {
        return Err(
            ended!(*program, Refused; "{name}: blocks: {blocks}, and it has {had} already; a volume only grows"),
        );
    }
    check_count(program, shape, inputs.len())
}

/// The line of the marker under which a file of so many volumes gets so many more.
fn line_of_growth(
    alloc: Global,
    name: &str,
    had: usize,
    more: usize,
) -> Result<String, AllocError> {
    if more == 0 {
        return String::from_str(alloc, "grow\n");
    }
    line_of_parts(alloc, "grow", name, had.saturating_add(more))
}

/// Gives a file so many blocks that these volumes keep: its last part grows, and new ones come.
fn more_blocks(
    folder: &mut Folder,
    shape: &mut Shape,
    name: &str,
    volumes: &[u32],
    blocks: u32,
) -> Result<(), Status> {
    let (program, alloc) = (folder.program, folder.program.alloc());
    let (parts, last) = (
        number_in(volumes.len()),
        volumes.last().copied().unwrap_or(0),
    );
    let had = shape.blocks_of(last);
    let mut inputs = new_parts(&program, name, parts, blocks.min(MOST_OF_FILE))?;
    let had_in_all = blocks_of_file(volumes.len(), had);
    check_more(&program, shape, name, (had_in_all, blocks), &inputs)?;
    let part = part_name(alloc, name.as_bytes(), parts.saturating_sub(1))?;
    let size = blocks_of_part(blocks, parts.saturating_sub(1));
    let growth = Growth::of(shape, last, text_of(&part), size)?;
    let tails = if size > had {
        Some(resize(folder, shape, growth)?)
    } else {
        None
    };
    let first = add_entries(&program, shape, &inputs)?;
    let line = line_of_growth(alloc, name, volumes.len(), inputs.len())?;
    mark(folder, line.as_str())?;
    if let Some(tails) = &tails {
        growth.write(folder, shape, &shape.sums, tails)?;
    }
    fill_all(folder, shape, first, &mut inputs)?;
    shape.commit(folder)
}

/// Gives a file so many blocks, in a folder that was opened.
fn grow_to(opened: Opened, name: &str, volumes: &[u32], blocks: u32) -> Result<(), Status> {
    let (mut folder, mut shape) = Shape::of(opened)?;
    let done = more_blocks(&mut folder, &mut shape, name, volumes, blocks);
    shape.end(&folder.program, done)
}

/// `grow F NAME=BLOCKS`: a file gets so many blocks.
pub fn grow_volume(opened: Opened, name: &str, blocks: u32) -> Result<(), Status> {
    let (program, volumes) = (opened.folder.program, opened.parts_of(name)?);
    grow_to(opened, name, &volumes, blocks)?;
    say(&program, format_args!("volume {name} blocks {blocks}\n"))
}
