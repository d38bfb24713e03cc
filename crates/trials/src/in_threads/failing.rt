use crate::in_threads::trial_error::TrialError;
use crate::plan::{numbers_of, unfailing};
use std::alloc::Global;
use volume_device::Planned;
use vss_names::Numbers;

/// The room of a sink that has enough.
const AMPLE: usize = 67_108_864;

/// Which calls of the source, the sink and the devices fail.
#[derive(Drop)]
pub struct Failing {
    pub source: Numbers,
    pub sink: Numbers,
    /// How many bytes the sink takes.
    pub room: usize,
    pub plan: Vec<Planned>,
}

/// Lets calls of a device fail, or its making.
fn plan_call(planned: &mut Planned, call: &[u8], failing: Numbers) -> Result<(), TrialError> {
    match call {
        b"make" => planned.refused = failing.items().contains(&1),
        b"read" => planned.reads = failing,
        b"write" => planned.writes = failing,
        b"flush" => planned.flushes = failing,
        _ => return Err(TrialError::Words),
    }
    Ok(())
}

impl Failing {
    /// Takes two words: `fails` and a name, or a call of the last thing that was named, with the numbers of those that fail.
    fn add(&mut self, alloc: Global, call: &str, word: &str) -> Result<(), TrialError> {
        if call == "fails" {
            self.plan.push(unfailing(alloc, word)?)?;
            return Ok(());
        }
        let Some(planned) = self.plan.last_mut() else {
            return Err(TrialError::Words);
        };
        match (planned.name.bytes(), call.as_bytes()) {
            (b"source", b"read") => self.source = numbers_of(alloc, word)?,
            (b"sink", b"write") => self.sink = numbers_of(alloc, word)?,
            (b"sink", b"room") => self.room = word.parse::<usize>()?,
            (_, call) => plan_call(planned, call, numbers_of(alloc, word)?)?,
        }
        Ok(())
    }

    /// What the words say: `fails`, the name of a thing, and pairs of a kind of its calls and the numbers of those that fail; and so on.
    pub fn of_words(alloc: Global, words: &[String]) -> Result<Failing, TrialError> {
        let mut failing = Failing {
            source: Numbers::new(alloc),
            sink: Numbers::new(alloc),
            room: AMPLE,
            plan: Vec::new(alloc),
        };
        let pairs = words.chunks_exact(2);
        if !pairs.remainder().is_empty() {
            return Err(TrialError::Words);
        }
        for pair in pairs {
            failing.add(alloc, pair[0].as_str(), pair[1].as_str())?;
        }
        Ok(failing)
    }
}
