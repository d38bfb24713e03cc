use block_data::Hasher;
use image_folder::{Program, Progress};
use io_edge::Sink;
use std::io;
use std::io::{ErrorKind, Write};
use vss_names::Failed;

/// Where the bytes of a file go that is shown: out, or into a digest. Each piece is counted on the terminal.
#[derive(Drop)]
pub struct ShownSink<W: Write + Drop> {
    out: W,
    faults: u64,
    /// Why it took no more.
    pub last: Option<io::Error>,
    pub hasher: Option<Hasher>,
    pub progress: Progress,
}

impl<W: Write + Drop> ShownSink<W> {
    /// One that took nothing; with a hasher, what it takes goes there.
    pub fn new(program: &Program, out: W, hasher: Option<Hasher>) -> ShownSink<W> {
        ShownSink {
            out,
            faults: 0,
            last: None,
            hasher,
            progress: Progress::new(program, "", 0),
        }
    }

    /// Where the bytes went.
    pub fn into_out(self) -> W {
        self.out
    }
}

impl<W: Write + Drop> Sink for ShownSink<W> {
    ghost use Rattle.std.specs.Prelude.{None};

    ghost taken = { λ _. None };

    ghost count = { λ s. s.faults };

    fn write(&mut self, piece: &[u8]) -> Result<usize, Failed> {
        self.progress.step(1);
        if let Some(hasher) = &mut self.hasher {
            hasher.add(piece);
            return Ok(piece.len());
        }
        let fault = match self.out.write(piece) {
            Ok(n) if n > 0 && n <= piece.len() => return Ok(n),
            Ok(_) => io::Error::from(ErrorKind::WriteZero),
            Err(error) => error,
        };
        self.last = Some(fault);
        self.faults = self.faults.saturating_add(1);
        Err(Failed)
    }

    fn faults(&self) -> u64 {
        self.faults
    }
}
