ghost use Rattle.std.specs.Prelude.{◌≡◌, Ok, [], IfOk, IfErr};
ghost use Rattle.scenario.specs.SoFar.{plan_in};
ghost use Rattle.scenario.specs.Built.{nothing_built, with_value, IsRefusedBy, IsValue};
ghost use Rattle.scenario.specs.declared.value.Value.TheVariants as value;
ghost use Rattle.writer_meta.specs.Metadata.{meta_of};
ghost use Rattle.writer_meta.specs.Document.{IsAllowed};

use crate::draft::Draft;
use crate::given::Given;
use crate::op::Op;
use crate::parsing::finish;
use crate::refused::Refused;
use crate::scenario::Scenario;
use crate::value::Value;
use std::alloc::Global;
use std::marker::Model;
use vss_names::{OutOfMemory, Text};
use writer_calls::Scripted;
use writer_meta::Metadata;

/// Makes a scenario of values, one call for each line that a text would have. A call takes the builder and gives it back, or says why
/// it refuses the line: with the checks and the reasons of `parse`, and the line's number. Lines are numbered from 2, so that they are
/// those of a text that begins with `scenario 1`. Volumes, areas, writers and lanes are numbered from 0, each in the order of its kind.
#[derive(Drop)]
pub struct ScenarioBuilder {
    given: Given,
}

impl Model for ScenarioBuilder {
    ghost use Rattle.scenario.specs.Built.{BuiltValue, value_of, Grows};

    ghost Value = { BuiltValue };

    ghost view = { λ b. value_of b.given };

    ghost invariant = { λ b. Grows b.given };
}

impl ScenarioBuilder {
    /// A builder of a scenario that declares nothing.
    pub fn new(alloc: Global) -> ScenarioBuilder
        ensures { result ≡ nothing_built }
    {
        let given = Given {
            source: Vec::new(alloc),
            number: 2,
            draft: Draft::new(alloc, true),
        };
        ScenarioBuilder { given }
    }

    /// With what a value says, and with the name that it has.
    fn with(self, alloc: Global, bytes: &[u8], value: Value) -> Result<ScenarioBuilder, Refused>
        requires { IsValue value }
        ensures built { IfOk result (λ b. with_value self bytes.now value ≡ Ok b) }
        ensures refused { IfErr result (IsRefusedBy self bytes.now value) }
    {
        let mut given = self.given;
        match given.add(alloc, bytes, value) {
            Ok(()) => Ok(ScenarioBuilder { given }),
            Err(refused) => Err(refused),
        }
    }

    /// Declares an area of so many slots, 0 to 65,536, which volumes share.
    pub fn area(self, alloc: Global, name: &[u8], slots: u32) -> Result<ScenarioBuilder, Refused>
        ensures built { IfOk result (λ b. with_value self name.now (value.Area slots) ≡ Ok b) }
        ensures refused { IfErr result (IsRefusedBy self name.now (value.Area slots)) }
    {
        self.with(alloc, name, Value::Area { slots })
    }

    /// Declares a volume of so many blocks of 16 KiB, 1 to 65,536, with an area of its own, of so many slots.
    pub fn volume(
        self,
        alloc: Global,
        name: &[u8],
        blocks: u32,
        slots: u32,
    ) -> Result<ScenarioBuilder, Refused>
        ensures built { IfOk result (λ b.
            with_value self name.now (value.OwnVolume blocks slots) ≡ Ok b) }
        ensures refused { IfErr result (IsRefusedBy self name.now (value.OwnVolume blocks slots)) }
    {
        self.with(alloc, name, Value::OwnVolume { blocks, slots })
    }

    /// Declares a volume whose old blocks go to a declared area, which is named by its number.
    pub fn volume_in(
        self,
        alloc: Global,
        name: &[u8],
        blocks: u32,
        area: u32,
    ) -> Result<ScenarioBuilder, Refused>
        ensures built { IfOk result (λ b.
            with_value self name.now (value.SharedVolume blocks area) ≡ Ok b) }
        ensures refused { IfErr result (IsRefusedBy self name.now
            (value.SharedVolume blocks area)) }
    {
        self.with(alloc, name, Value::SharedVolume { blocks, area })
    }

    /// Declares a writer, with metadata that their format allows, as those that were read of a document.
    pub fn writer(
        self,
        alloc: Global,
        name: &[u8],
        metadata: Metadata,
    ) -> Result<ScenarioBuilder, Refused>
        requires { IsAllowed (meta_of metadata) }
        ensures built { IfOk result (λ b. with_value self name.now (value.Writer metadata) ≡ Ok b) }
        ensures refused { IfErr result (IsRefusedBy self name.now (value.Writer metadata)) }
    {
        self.with(alloc, name, Value::Writer(metadata))
    }

    /// What a writer answers to the `nth` order of a kind, 1 to 2,000, where that is not ok.
    pub fn answer(
        self,
        alloc: Global,
        writer: u32,
        row: Scripted,
    ) -> Result<ScenarioBuilder, Refused>
        ensures built { IfOk result (λ b. with_value self [] (value.Answer writer row) ≡ Ok b) }
        ensures refused { IfErr result (IsRefusedBy self [] (value.Answer writer row)) }
    {
        self.with(alloc, b"", Value::Answer { writer, row })
    }

    /// Begins a lane, to which the lines that follow belong. It may act as a writer.
    pub fn lane(
        self,
        alloc: Global,
        name: &[u8],
        acts_as: Option<u32>,
    ) -> Result<ScenarioBuilder, Refused>
        ensures built { IfOk result (λ b. with_value self name.now (value.Lane acts_as) ≡ Ok b) }
        ensures refused { IfErr result (IsRefusedBy self name.now (value.Lane acts_as)) }
    {
        self.with(alloc, name, Value::Lane { acts_as })
    }

    /// A line of the lane at hand.
    pub fn line(self, alloc: Global, op: Op) -> Result<ScenarioBuilder, Refused>
        ensures built { IfOk result (λ b. with_value self [] (value.Line op) ≡ Ok b) }
        ensures refused { IfErr result (IsRefusedBy self [] (value.Line op)) }
    {
        self.with(alloc, b"", Value::Line(op))
    }

    /// The line that chooses a component of a writer by its full name.
    pub fn component(
        self,
        alloc: Global,
        writer: u32,
        full: &[u8],
    ) -> Result<ScenarioBuilder, Refused>
        ensures built { IfOk result (λ b.
            with_value self full.now (value.Component writer) ≡ Ok b) }
        ensures refused { IfErr result (IsRefusedBy self full.now (value.Component writer)) }
    {
        self.with(alloc, full, Value::Component { writer })
    }

    /// The scenario. A lane that has begun a session and not ended it gets an `end`, as in a text.
    pub fn finish(self, alloc: Global) -> Result<Scenario, OutOfMemory>
        ensures { IfOk result (λ scenario. scenario ≡ plan_in self.source self.draft.said) }
    {
        let Given {
            source,
            mut draft,
            ..
        } = self.given;
        finish(alloc, Text::of(source), &mut draft)
    }
}
