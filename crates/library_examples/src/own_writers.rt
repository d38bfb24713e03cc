//! Your own writers: the service in memory, with a writer of this crate's own type and a ready one. A backup is tried three times: the
//! first writer vetoes its first freeze, the second hangs in its second, and the third try completes. The report is printed.

ghost use Rattle.vss_world.specs.Moves.{IsEvent};

use crate::ledger::Ledger;
use io_edge::{OutSink, write_all};
use scenario::{Op, Scenario, ScenarioBuilder};
use std::alloc::Global;
use volume_device::{MemDevice, MemMaker, Store};
use vss_model::Event;
use vss_names::{Order, Text};
use vss_play::Service;
use writer_calls::{Scripted, ScriptedWriter, VssWriter};
use writer_meta::Metadata;

/// The document that each writer shows of itself.
const DOCUMENT: &[u8] =
    b"{\"class\":\"11111111-1111-4111-8111-111111111111\",\"components\":[{\"name\":\"main\",\"selectable\":true,\"type\":1}],\"level\":2,\"name\":\"App\",\"source\":1,\"usage\":3}";

/// One volume, two writers, and a lane that tries three times to back up all of them.
fn scenario_of(alloc: Global) -> anyhow::Result<Scenario> {
    let begin = Op::Begin {
        context: 9,
        all: true,
    };
    let mut builder = ScenarioBuilder::new(alloc)
        .volume(alloc, b"C", 4, 4)?
        .writer(alloc, b"ledger", Metadata::from_json(alloc, DOCUMENT)?)?
        .writer(alloc, b"mail", Metadata::from_json(alloc, DOCUMENT)?)?
        .lane(alloc, b"backup", None)?;
    for _try in 0..3 {
        builder = builder.line(alloc, begin)?;
        for op in [Op::Gather, Op::Await, Op::Start, Op::Add { volume: 0 }] {
            builder = builder.line(alloc, op)?;
        }
        for op in [Op::Prepare, Op::Await, Op::Snapshot, Op::Await, Op::End] {
            builder = builder.line(alloc, op)?;
        }
    }
    Ok(builder.finish(alloc)?)
}

/// What comes if the lane has to wait: a writer's answer, else the provider's step, else time goes by.
fn next<W: VssWriter>(service: &mut Service<MemDevice>, writers: &mut [W]) -> Event
    ensures { IsEvent service.new.plan result }
{
    match service.ask(writers) {
        Some(answer) => answer,
        None if service.may(Event::Provider) => Event::Provider,
        None => Event::Idle,
    }
}

/// Makes all lines of the lane, each as soon as it may come, and writes the report of all moves.
fn back_up<W: VssWriter>(
    rt: &HostRuntime,
    service: &mut Service<MemDevice>,
    writers: &mut [W],
) -> anyhow::Result<()> {
    let mut report = Text::new(rt.alloc());
    let mut at = 0;
    for _move in 0..1_000 {
        let Some((line, number)) = service.line(0, at) else {
            return Ok(write_all(&mut OutSink::new(rt.stdout()), report.bytes())?);
        };
        let goes = service.may(line);
        let event = if goes { line } else { next(service, writers) };
        let _moved = service.step_into(rt.alloc(), event, number, &mut report)?;
        at = at.saturating_add(u32::from(goes));
    }
    anyhow::bail!("the backup does not end")
}

/// Tries the backup with both writers.
pub fn try_writers(rt: &HostRuntime) -> anyhow::Result<()> {
    let alloc = rt.alloc();
    let hangs = Scripted {
        order: Order::Freeze,
        nth: 2,
        answer: None,
    };
    let ledger: Box<dyn VssWriter> = Box::new(alloc, Ledger { aborts: 0 })?;
    let mail: Box<dyn VssWriter> = Box::new(alloc, ScriptedWriter::new(vec![in alloc; hangs]?))?;
    let scenario = scenario_of(alloc)?;
    let mut maker = MemMaker::new(alloc, Vec::new(alloc));
    let mut service = Service::new(alloc, scenario, &Store::Memory, &mut maker)?;
    back_up(rt, &mut service, &mut [ledger, mail])
}
