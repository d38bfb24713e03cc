use crate::stopped::{Done, Stopped};
use io_edge::{InSource, OutSink, read_all, write_all};
use std::alloc::Global;
use std::fmt::{Debug, Display};
use vss_names::Text;

/// The most bytes that are read.
const MOST_BYTES: usize = 67_108_864;

/// What calls answered, a line for each. If there is no memory for a line, it is left out, and the page is not whole.
#[derive(Drop)]
pub struct Page {
    alloc: Global,
    text: Text,
    is_whole: bool,
}

impl Page {
    /// A page without a line.
    pub fn new(alloc: Global) -> Page {
        Page {
            alloc,
            text: Text::new(alloc),
            is_whole: true,
        }
    }

    /// Where calls take their memory from.
    pub fn alloc(&self) -> Global {
        self.alloc
    }

    /// Adds a line of these bytes.
    pub fn say(&mut self, line: &[u8]) {
        if self.text.add(line).is_err() || self.text.add(b"\n").is_err() {
            self.is_whole = false;
        }
    }

    /// Adds a line of these bytes, behind what they are of.
    pub fn line(&mut self, what: &str, answer: &[u8]) {
        if self.text.add(what.as_bytes()).is_err() || self.text.add(b": ").is_err() {
            self.is_whole = false;
        }
        self.say(answer);
    }

    /// Adds a line of a value, as it is written for who looks for faults.
    pub fn tell<T: Debug>(&mut self, answer: &T) {
        match format!(in self.alloc; "{answer:?}") {
            Ok(text) => self.say(text.as_bytes()),
            Err(_) => self.is_whole = false,
        }
    }

    /// Adds such a line with the name of the call around the value.
    pub fn tell_of<T: Debug>(&mut self, name: &str, answer: &T) {
        match format!(in self.alloc; "{name}({answer:?})") {
            Ok(text) => self.say(text.as_bytes()),
            Err(_) => self.is_whole = false,
        }
    }

    /// Adds such a line behind what the value is of.
    pub fn show<T: Debug>(&mut self, what: &str, answer: &T) {
        match format!(in self.alloc; "{what}: {answer:?}") {
            Ok(text) => self.say(text.as_bytes()),
            Err(_) => self.is_whole = false,
        }
    }

    /// Adds a line of a value, as it is printed, behind what it is of.
    pub fn print<T: Display>(&mut self, what: &str, answer: &T) {
        match format!(in self.alloc; "{what}: {answer}") {
            Ok(text) => self.say(text.as_bytes()),
            Err(_) => self.is_whole = false,
        }
    }

    /// The standard input.
    pub fn input(rt: &HostRuntime) -> Result<Text, Stopped> {
        match read_all(rt.alloc(), &mut InSource::new(rt.stdin()), MOST_BYTES) {
            Ok(text) => Ok(text),
            Err(_) => Err(Stopped),
        }
    }

    /// Writes the page to the standard output, and says whether all calls were made and each has its line.
    pub fn end(&self, rt: &HostRuntime, made: Done) -> Done {
        let written = write_all(&mut OutSink::new(rt.stdout()), self.text.bytes());
        if written.is_ok() && made.is_ok() && self.is_whole {
            return Ok(());
        }
        Err(Stopped)
    }
}
