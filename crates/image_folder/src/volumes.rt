//! `add` and `remove`: a folder gets the volumes of a file, or those of one go with their images.

use crate::creating::{check_blocks, check_of_file, inputs_of};
use crate::device::{BlockSum, SumTable};
use crate::ended::say;
use crate::file_input::FileInput;
use crate::folder::Folder;
use crate::front::rows_without;
use crate::job::before_try;
use crate::left::remove_in_silence;
use crate::longer::Longer;
use crate::marker::line_of_parts;
use crate::naming::may_name;
use crate::opened::{Opened, open};
use crate::pair::Pair;
use crate::parts::{blocks_of_file, part_name, text_of};
use crate::program::Program;
use crate::shape::Shape;
use crate::state::{blocks_in, first_of};
use crate::status::Status;
use crate::updating::check_own;
use crate::way::Way;
use block_data::BlockBuf;
use image_order::{StateFolder, mark};
use image_store::PassFault;
use std::sync::Arc;
use volume_device::Device;
use vss_names::{MOST_VOLUMES, is_name};

/// That a file of the name of a pair may be added.
fn check_new(opened: &Opened, pair: Pair<'_>) -> Result<(), Status> {
    let (program, path, name) = (
        opened.folder.program,
        opened.folder.path.as_str(),
        pair.name,
    );
    may_name(&program, name)?;
    if opened.store.place_of(name.as_bytes()).is_some() {
        return Err(
            ended!(program, Refused; "{path}: volume {name}: is there already; ./images update brings it to a file"),
        );
    }
    check_own(opened, pair.file, &FileInput::open(&program, pair.file)?)
}

/// The new volumes of a pair, if there may be these too.
fn new_inputs<'a>(
    program: &Program,
    shape: &Shape,
    pair: Pair<'a>,
) -> Result<Vec<FileInput<'a>>, Status> {
    if let Some(blocks) = pair.blocks {
        check_of_file(program, pair.name, blocks)?;
    }
    let inputs = inputs_of(program, pair)?;
    check_count(program, shape, inputs.len())?;
    Ok(inputs)
}

/// How many blocks new volumes have.
fn blocks_of_all(inputs: &[FileInput<'_>]) -> u32 {
    let mut blocks = 0u32;
    for input in inputs {
        blocks = blocks.saturating_add(input.blocks);
    }
    blocks
}

/// That there may be so many volumes more.
pub fn check_count(program: &Program, shape: &Shape, more: usize) -> Result<(), Status> {
    let volumes = shape.head.catalog().volumes();
    if (volumes as usize).saturating_add(more) > MOST_VOLUMES as usize {
        return Err(
            ended!(*program, Refused; "volumes: {volumes} are there and {more} would come, at most {MOST_VOLUMES}"),
        );
    }
    Ok(())
}

/// Adds the entry of the volume of an input.
fn add_entry(program: &Program, shape: &mut Shape, input: &FileInput<'_>) -> Result<(), Status> {
    let name = part_name(program.alloc(), input.name.as_bytes(), input.part.number)?;
    check_blocks(program, text_of(&name), input.blocks)?;
    if shape.head.catalog().volumes() >= MOST_VOLUMES || !is_name(name.bytes()) {
        return Err(Status::DeviceFault);
    }
    Ok(shape.head.add(program.alloc(), name.bytes(), input.blocks)?)
}

/// Copies a block of a file that was named, unless it is zeros, and keeps its sum at a place.
fn copy_block(
    input: &mut FileInput<'_>,
    file: &Longer,
    index: u32,
    block: &mut BlockBuf,
    (sums, place): (&SumTable, usize),
) -> Result<(), Status> {
    let is_read = index < input.blocks() && input.read_into(index, block.bytes_mut()).is_ok();
    if !is_read {
        return input.end(Some(PassFault::Input), "");
    }
    if block.bytes().iter().all(|byte| *byte == 0) {
        return Ok(());
    }
    sums.put(place, BlockSum::of(block.bytes()));
    file.put(index, block.bytes())
}

/// Copies the blocks of a file that was named, or of none.
fn copy_all(
    input: &mut FileInput<'_>,
    file: &Longer,
    sums: &SumTable,
    first: usize,
) -> Result<(), Status> {
    let mut block = BlockBuf::zeroed(input.program.alloc())?;
    for index in 0..input.blocks {
        if input.is_none() {
            break;
        }
        let place = first.saturating_add(index as usize);
        copy_block(input, file, index, &mut block, (sums, place))?;
    }
    input.end(None, "")
}

/// Makes the file of a new volume of a file that was named, or of none.
fn fill(
    folder: &Folder,
    input: &mut FileInput<'_>,
    sums: &SumTable,
    first: usize,
) -> Result<(), Status> {
    let file = Longer::new(&folder.program, path_of(folder, input)?, input.blocks)?;
    copy_all(input, &file, sums, first)?;
    file.sync()
}

/// The path of the file of the volume of an input.
fn path_of(folder: &Folder, input: &FileInput<'_>) -> Result<String, Status> {
    let name = part_name(
        folder.program.alloc(),
        input.name.as_bytes(),
        input.part.number,
    )?;
    Ok(folder.path_of_volume(text_of(&name))?)
}

/// Adds the entries and the sums of new volumes. How many blocks the volumes before them have is answered.
pub fn add_entries(
    program: &Program,
    shape: &mut Shape,
    inputs: &[FileInput<'_>],
) -> Result<usize, Status> {
    let first = blocks_in(shape.head.catalog());
    let sums = shape.parted_sums(program, first, blocks_of_all(inputs) as usize)?;
    for input in inputs {
        add_entry(program, shape, input)?;
    }
    shape.sums = Arc::new(program.alloc(), sums)?;
    Ok(first)
}

/// That no file of new volumes changed since it was opened.
fn check_all(inputs: &mut [FileInput<'_>]) -> Result<(), Status> {
    for input in inputs.iter_mut() {
        input.check()?;
    }
    Ok(())
}

/// Makes the files of new volumes. What is read is of one moment.
pub fn fill_all(
    folder: &Folder,
    shape: &Shape,
    first: usize,
    inputs: &mut Vec<FileInput<'_>>,
) -> Result<(), Status> {
    let mut first = first;
    for input in inputs.iter_mut() {
        fill(folder, input, &shape.sums, first)?;
        first = first.saturating_add(input.blocks as usize);
    }
    check_all(inputs)
}

/// Takes the files of new volumes away, and the marker if none is left.
pub fn unfill(folder: &mut Folder, inputs: &[FileInput<'_>]) {
    for input in inputs {
        match path_of(folder, input) {
            Ok(path) if remove_in_silence(&folder.program, path.as_str()).is_ok() => {}
            _ => return,
        }
    }
    folder.unmark_in_silence();
}

/// Adds the volumes of a name, and brings them to their file. If that fails their own files go.
fn add_volumes(
    folder: &mut Folder,
    shape: &mut Shape,
    name: &str,
    inputs: &mut Vec<FileInput<'_>>,
) -> Result<(), Status> {
    let (program, alloc) = (folder.program, folder.program.alloc());
    for input in inputs.iter() {
        input.wait_out();
    }
    let first = add_entries(&program, shape, inputs)?;
    if let Some(input) = inputs.first() {
        folder.note_together(&[input.brought()])?;
    }
    let line = line_of_parts(alloc, "add", name, inputs.len())?;
    mark(folder, line.as_str())?;
    let done = fill_all(folder, shape, first, inputs);
    if done.is_ok() {
        return shape.commit(folder);
    }
    unfill(folder, inputs);
    done
}

/// Adds the volumes of a pair, by the inputs, which are none yet. At the last time it is said if the file changed.
fn add_pair<'a>(
    folder: &mut Folder,
    shape: &mut Shape,
    pair: Pair<'a>,
    is_last: bool,
    inputs: &mut Vec<FileInput<'a>>,
) -> Result<(), Status> {
    *inputs = new_inputs(&folder.program, shape, pair)?;
    let done = add_volumes(folder, shape, pair.name, inputs);
    if is_last {
        for input in inputs.iter() {
            input.say_changed("");
        }
    }
    done
}

/// Adds the volumes of a pair to a folder that was opened.
fn add_to<'a>(
    opened: Opened,
    pair: Pair<'a>,
    is_last: bool,
    inputs: &mut Vec<FileInput<'a>>,
) -> Result<(), Status> {
    let (mut folder, mut shape) = Shape::of(opened)?;
    let done = add_pair(&mut folder, &mut shape, pair, is_last, inputs);
    shape.end(&folder.program, done)
}

/// How many blocks the file has of these inputs, of which that is said that is not seen of it.
fn blocks_seen(inputs: &[FileInput<'_>]) -> u32 {
    if let Some(input) = inputs.first() {
        input.say_unseen();
    }
    let last = inputs.last().map(|input| input.blocks).unwrap_or(0);
    blocks_of_file(inputs.len(), last)
}

/// Tries to add the file of a pair. How many blocks it has is answered.
fn add_once(
    program: &Program,
    opened: Opened,
    pair: Pair<'_>,
    is_last: bool,
) -> Result<u32, Status> {
    check_new(&opened, pair)?;
    let mut inputs = Vec::new(program.alloc());
    add_to(opened, pair, is_last, &mut inputs)?;
    Ok(blocks_seen(&inputs))
}

/// `add F NAME=FILE`: a folder gets a volume for a file. While the file changes it is tried so often.
pub fn add(
    program: &Program,
    path: &str,
    wait: u32,
    pair: Pair<'_>,
    tries: u32,
) -> Result<(), Status> {
    let mut done = Err(Status::InputChanged);
    for number in 1..=tries {
        if number > 1 {
            before_try(program, &mut Vec::new(program.alloc()), number - 1);
        }
        let opened = open(program, path, Way::Writing, wait)?;
        done = add_once(program, opened, pair, number == tries);
        if !matches!(done, Err(Status::InputChanged)) {
            break;
        }
    }
    let (blocks, name) = (done?, pair.name);
    say(program, format_args!("volume {name} blocks {blocks}\n"))
}

/// Takes a volume away with its images.
fn take_one(program: &Program, shape: &mut Shape, volume: u32) -> Result<(), Status> {
    let (alloc, catalog) = (program.alloc(), shape.head.catalog());
    if volume >= catalog.volumes() {
        return Err(Status::DeviceFault);
    }
    if catalog.volumes() < 2 {
        return Err(Status::DeviceFault);
    }
    let (first, blocks) = (first_of(catalog, volume), catalog.blocks(volume) as usize);
    let all = blocks_in(catalog).saturating_add(shape.slots as usize);
    shape.head.remove(volume);
    let (behind, others) = (first.saturating_add(blocks), all.saturating_sub(blocks));
    let sums = SumTable::new(alloc, others)?;
    sums.take_from(&shape.sums, 0, 0, first);
    sums.take_from(&shape.sums, behind, first, others.saturating_sub(first));
    shape.rows = rows_without(alloc, &shape.rows, volume)?;
    shape.sums = Arc::new(alloc, sums)?;
    Ok(())
}

/// Takes the volumes of a name away with their images, which are given by falling numbers.
fn take_away(
    folder: &mut Folder,
    shape: &mut Shape,
    volumes: &[u32],
    name: &str,
) -> Result<(), Status> {
    let (program, alloc) = (folder.program, folder.program.alloc());
    if shape.head.catalog().volumes() as usize <= volumes.len() {
        return Err(
            ended!(program, Refused; "{}: volume {name}: is the only one; a folder has one at least", folder.path),
        );
    }
    for (number, volume) in volumes.iter().enumerate() {
        take_one(&program, shape, *volume)?;
        let part = part_name(
            alloc,
            name.as_bytes(),
            u32::try_from(number).unwrap_or(u32::MAX),
        )?;
        shape.gone.push(folder.path_of_volume(text_of(&part))?)?;
    }
    let line = line_of_parts(alloc, "remove", name, volumes.len())?;
    mark(folder, line.as_str())?;
    shape.commit(folder)
}

/// How many images the file of a name has, and its volumes by falling numbers.
fn falling_volumes(opened: &Opened, name: &str) -> Result<(usize, Vec<u32>), Status> {
    let images = opened.store.images(opened.place_of(name)?).len();
    let mut volumes = opened.parts_of(name)?;
    volumes.sort()?;
    volumes.reverse();
    Ok((images, volumes))
}

/// Takes the volumes of a name away from a folder that was opened.
fn take_from(opened: Opened, volumes: &[u32], name: &str) -> Result<(), Status> {
    let (mut folder, mut shape) = Shape::of(opened)?;
    let done = take_away(&mut folder, &mut shape, volumes, name);
    shape.end(&folder.program, done)
}

/// `remove F NAME`: the volumes of a name go, and their images.
pub fn remove(opened: Opened, name: &str) -> Result<(), Status> {
    let (images, volumes) = falling_volumes(&opened, name)?;
    let program = opened.folder.program;
    take_from(opened, &volumes, name)?;
    say(&program, format_args!("removed {name}: {images}\n"))
}
