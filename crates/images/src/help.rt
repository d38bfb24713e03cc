//! `WORD --help`: the form of a word, what it does, and an example.

use crate::request::form_of;
use image_folder::{Program, Status, say};

/// How SLOTS is chosen.
const SLOTS: &str =
    "    SLOTS is the room for old blocks. An update prints `copied C`: so many slots it took. N sets take about N times C, and half as many more is a good choice.\n    Space on the disk is taken as slots are used. If none is free the oldest set goes, or with --keep the update ends.\n";

/// What a word does, and an example of the words behind it.
fn help_of(word: &str) -> Option<(&'static str, &'static str)> {
    Some(match word {
        "create" => (
            "makes the folder F, with a volume for each file",
            "store 4096 db=app.db log=app.db-wal",
        ),
        "cut" => (
            "keeps the volumes as they are as one set, and prints its number",
            "--note nightly store db log",
        ),
        "update" => (
            "brings each volume to its file; with --keep at least N sets stay; with --dry-run it only says what it would write and which sets would go; FILE - is a file that is not there",
            "--keep 7 store db=app.db log=-",
        ),
        "list" => (
            "prints the volumes, their images and the slots in use",
            "--json store",
        ),
        "sets" => (
            "prints when each set was cut, its note, and the slots that it uses: if it is deleted, the exclusive ones are free and older images keep the shared ones",
            "store",
        ),
        "diff" => (
            "prints which blocks were written between two sets, or since one; all others are the same",
            "store 1 2 db",
        ),
        "show" => (
            "writes the file that the volume has, or had at a set",
            "store 1 db",
        ),
        "restore" => (
            "makes FILE of it, or in FOLDER each file of a set by its volume's name; with --over one that is there is replaced",
            "--over store 1 db app.db",
        ),
        "digest" => ("prints the SHA-256 of that file", "store 1 db"),
        "delete" => (
            "deletes the images of a set, or that of one volume",
            "store 1",
        ),
        "prune" => ("deletes all sets but the N newest", "--keep 7 store"),
        "revert" => (
            "brings the volume back to its image of a set; newer images of it go",
            "store 1 db",
        ),
        "grow" => (
            "makes room for SLOTS old blocks in all, or gives a volume BLOCKS blocks of 16,384 bytes in all; images stay",
            "store db=8192",
        ),
        "add" => (
            "adds a volume for the file, of as many blocks as it needs or of so many",
            "store notes:64=notes.txt",
        ),
        "remove" => ("takes a volume away, with all its images", "store notes"),
        "check" => ("reads everything, and prints what is wrong", "store"),
        _ => return None,
    })
}

/// Prints what a word does, if words ask for that. Whether they do is answered.
pub fn help(program: &Program, words: &[String]) -> Result<bool, Status> {
    let [word, option] = words else {
        return Ok(false);
    };
    let word = word.as_str();
    let Some((what, example)) = help_of(word) else {
        return Ok(false);
    };
    if !matches!(option.as_str(), "--help" | "-h") {
        return Ok(false);
    }
    let form = form_of(words);
    let more = if word == "create" { SLOTS } else { "" };
    say(
        program,
        format_args!("images {form}\n    {what}\n{more}    ./images {word} {example}\n"),
    )?;
    Ok(true)
}
