ghost use Rattle.std.specs.Prelude.{◌≡◌, ◌<◌, true, length, map, IfSome, OnOk};
ghost use Rattle.scenario.specs.Bounds.{begins_agenda};
ghost use Rattle.scenario.specs.Declarations.{is_answered, count_of};
ghost use Rattle.scenario.specs.Rows.{writer_plan, lane_plan};

use crate::area_row::AreaRow;
use crate::closing::closed_lanes;
use crate::counts::Counts;
use crate::entry::Entry;
use crate::fields::bytes_of;
use crate::group_row::GroupRow;
use crate::kept_rows::{add_answer, add_group, add_line, set_group};
use crate::lane::Lane;
use crate::lane_line::LaneLine;
use crate::name_kind::NameKind;
use crate::name_table::NameTable;
use crate::parts::Parts;
use crate::script::Script;
use crate::span::Span;
use crate::volume_row::VolumeRow;
use crate::writer::Writer;
use std::alloc::Global;
use std::marker::Model;
use std::mem;
use vss_names::{Order, OutOfMemory};
use writer_calls::Scripted;
use writer_meta::Metadata;

/// What the lines say that were read so far, with the names that are taken and the counts of what is limited.
#[derive(Drop)]
pub(crate) struct Draft {
    opened: bool,
    areas: Vec<AreaRow>,
    volumes: Vec<VolumeRow>,
    groups: Vec<GroupRow>,
    /// The blocks of all volumes and the slots of all areas together.
    size: u64,
    writers: Vec<Writer>,
    lanes: Vec<Lane>,
    area_names: NameTable,
    volume_names: NameTable,
    writer_names: NameTable,
    lane_names: NameTable,
    counts: Counts,
}

impl Model for Draft {
    ghost use Rattle.std.specs.Prelude.{map};
    ghost use Rattle.scenario.specs.Rows.{writer_plan, lane_plan};
    ghost use Rattle.scenario.specs.Drafts.{DraftValue};

    ghost Value = { DraftValue };

    ghost view = { λ d. record {
      said = record {
        opened = d.opened;
        areas = d.areas.items;
        volumes = d.volumes.items;
        groups = d.groups.items;
        size = d.size;
        writers = map writer_plan d.writers.items;
        lanes = map lane_plan d.lanes.items;
      };
      names = record { areas = d.area_names; volumes = d.volume_names; writers = d.writer_names; lanes = d.lane_names };
      counts = d.counts;
    } };
}

impl Draft {
    ghost use Rattle.scenario.specs.declared.entry.Entry.TheVariants as entry;
    ghost use Rattle.std.specs.Prelude.{Ok, IfErr};
    ghost use Rattle.scenario.specs.SoFar.{after, closed_lane, takes_itself};
    ghost use Rattle.scenario.specs.SoFar as saying;
    ghost use Rattle.scenario.specs.Names.{place_of};
    ghost use Rattle.scenario.specs.Drafts.{names_of, new_draft, counts_after, saying_in, with_entry, IsDraft, IsEntry, IsNewAnswer};

    /// Nothing, or the `scenario` line alone.
    pub(crate) fn new(alloc: Global, opened: bool) -> Draft
        ensures { result ≡ new_draft opened }
    {
        Draft {
            opened,
            areas: Vec::new(alloc),
            volumes: Vec::new(alloc),
            groups: Vec::new(alloc),
            size: 0,
            writers: Vec::new(alloc),
            lanes: Vec::new(alloc),
            area_names: NameTable::new(alloc),
            volume_names: NameTable::new(alloc),
            writer_names: NameTable::new(alloc),
            lane_names: NameTable::new(alloc),
            counts: Counts {
                lines: 0,
                agenda_lines: 0,
                answers: 0,
            },
        }
    }

    /// Whether the `scenario` line was read.
    pub(crate) fn is_opened(&self) -> bool
        ensures { result ≡ self.now.said.opened }
    {
        self.opened
    }

    /// The declared areas.
    pub(crate) fn areas(&self) -> &[AreaRow]
        ensures { result.now ≡ self.now.said.areas }
    {
        &self.areas
    }

    pub(crate) fn volumes(&self) -> &[VolumeRow]
        ensures { result.now ≡ self.now.said.volumes }
    {
        &self.volumes
    }

    /// How many groups there are.
    pub(crate) fn groups(&self) -> usize
        ensures { result ≡ length self.now.said.groups }
    {
        self.groups.len()
    }

    /// The blocks of all volumes and the slots of all areas together.
    pub(crate) fn size(&self) -> u64
        ensures { result ≡ self.now.said.size }
    {
        self.size
    }

    /// How many of this kind were declared.
    pub(crate) fn count(&self, kind: NameKind) -> usize
        ensures { result ≡ count_of self.now.said kind }
    {
        match kind {
            NameKind::Area => self.areas.len(),
            NameKind::Volume => self.volumes.len(),
            NameKind::Writer => self.writers.len(),
            NameKind::Lane => self.lanes.len(),
        }
    }

    /// Whether a row of the writer's script speaks of this order.
    pub(crate) fn is_answered(&self, w: u32, order: Order, nth: u32) -> bool
        requires { w < length self.now.said.writers }
        ensures { result ≡ is_answered self.now.said.writers w order nth }
    {
        self.writers[w as usize]
            .script
            .row_for(order, nth)
            .is_some()
    }

    /// The place of a name among those of its kind.
    pub(crate) fn named(&self, kind: NameKind, name: &[u8]) -> Option<usize>
        ensures place { result ≡ place_of name.now (names_of self.now.names kind) }
        ensures within { IfSome result (λ i. i < length (names_of self.now.names kind)) }
    {
        match kind {
            NameKind::Area => self.area_names.place_of(name),
            NameKind::Volume => self.volume_names.place_of(name),
            NameKind::Writer => self.writer_names.place_of(name),
            NameKind::Lane => self.lane_names.place_of(name),
        }
    }

    pub(crate) fn counts(&self) -> Counts
        ensures { result ≡ self.now.counts }
    {
        self.counts
    }

    /// Takes in what one more line says.
    pub(crate) fn add(
        &mut self,
        alloc: Global,
        text: &[u8],
        entry: Entry,
    ) -> Result<(), OutOfMemory>
        requires draft { IsDraft text.now self.old }
        requires entry { IsEntry text.now self.old entry }
        ensures added { OnOk result (self.new ≡ with_entry text.now self.old entry) }
        ensures takes { IfErr result (λ error. takes_itself (Ok (saying_in entry)) ≡ true) }
    {
        match entry {
            Entry::Skipped => Ok(()),
            Entry::Opening => {
                self.opened = true;
                Ok(())
            }
            Entry::Area(area) => self.add_area(alloc, text, area),
            Entry::OwnVolume(row) => self.add_own_volume(alloc, text, row),
            Entry::SharedVolume(row, a, area) => self.add_shared_volume(alloc, text, row, a, area),
            Entry::Writer(name, metadata) => self.add_writer(alloc, text, name, metadata),
            Entry::Answer(w, row) => self.add_answer(w, row),
            Entry::Lane(name, whom) => self.add_lane(alloc, text, name, whom),
            Entry::Line(line) => self.add_line(line),
        }
    }

    fn add_area(&mut self, alloc: Global, text: &[u8], area: GroupRow) -> Result<(), OutOfMemory>
        requires draft { IsDraft text.now self.old }
        requires entry { IsEntry text.now self.old (entry.Area area) }
        ensures { OnOk result (self.new ≡ with_entry text.now self.old (entry.Area area)) }
    {
        self.area_names.add(alloc, bytes_of(text, area.name))?;
        self.areas.push(AreaRow {
            name: area.name,
            slots: area.slots,
            group: None,
        })?;
        self.size += u64::from(area.slots);
        Ok(())
    }

    fn add_own_volume(
        &mut self,
        alloc: Global,
        text: &[u8],
        row: VolumeRow,
    ) -> Result<(), OutOfMemory>
        requires draft { IsDraft text.now self.old }
        requires entry { IsEntry text.now self.old (entry.OwnVolume row) }
        ensures { OnOk result (self.new ≡ with_entry text.now self.old (entry.OwnVolume row)) }
    {
        self.volume_names.add(alloc, bytes_of(text, row.name))?;
        self.volumes.push(row)?;
        self.groups.push(GroupRow {
            name: row.name,
            slots: row.slots,
        })?;
        self.size += u64::from(row.blocks) + u64::from(row.slots);
        Ok(())
    }

    fn add_shared_volume(
        &mut self,
        alloc: Global,
        text: &[u8],
        row: VolumeRow,
        a: u32,
        area: AreaRow,
    ) -> Result<(), OutOfMemory>
        requires draft { IsDraft text.now self.old }
        requires entry { IsEntry text.now self.old (entry.SharedVolume row a area) }
        ensures { OnOk result (self.new ≡ with_entry text.now self.old (entry.SharedVolume row a area)) }
    {
        self.volume_names.add(alloc, bytes_of(text, row.name))?;
        self.volumes.push(row)?;
        add_group(&mut self.groups, area)?;
        set_group(&mut self.areas, a, area, row.group);
        self.size += u64::from(row.blocks);
        Ok(())
    }

    fn add_writer(
        &mut self,
        alloc: Global,
        text: &[u8],
        name: Span,
        metadata: Metadata,
    ) -> Result<(), OutOfMemory>
        requires draft { IsDraft text.now self.old }
        requires entry { IsEntry text.now self.old (entry.Writer name metadata) }
        ensures { OnOk result (self.new ≡ with_entry text.now self.old (entry.Writer name metadata)) }
    {
        self.writer_names.add(alloc, bytes_of(text, name))?;
        self.writers.push(Writer {
            name,
            metadata,
            script: Script::new(alloc),
        })?;
        Ok(())
    }

    fn add_answer(&mut self, w: u32, row: Scripted) -> Result<(), OutOfMemory>
        requires answer { IsNewAnswer self.old.said w row }
        requires few { self.old.counts.answers < 10000 }
        ensures { OnOk result (self.new ≡ record self.old {
          said = after self.old.said (saying.Answer w row);
          counts = counts_after self.old.counts (saying.Answer w row);
        }) }
    {
        add_answer(&mut self.writers, w, row)?;
        self.counts.answers += 1;
        Ok(())
    }

    fn add_lane(
        &mut self,
        alloc: Global,
        text: &[u8],
        name: Span,
        whom: Option<u32>,
    ) -> Result<(), OutOfMemory>
        requires draft { IsDraft text.now self.old }
        requires entry { IsEntry text.now self.old (entry.Lane name whom) }
        ensures { OnOk result (self.new ≡ with_entry text.now self.old (entry.Lane name whom)) }
    {
        self.lane_names.add(alloc, bytes_of(text, name))?;
        self.lanes.push(Lane {
            name,
            acts_as: whom,
            lines: Vec::new(alloc),
        })?;
        Ok(())
    }

    fn add_line(&mut self, line: LaneLine) -> Result<(), OutOfMemory>
        requires in_lane { 0 < length self.old.said.lanes }
        requires few { self.old.counts.lines < 100000 }
        requires few_agendas { begins_agenda line.op ≡ true → self.old.counts.agenda_lines < 2000 }
        ensures { OnOk result (self.new ≡ record self.old {
          said = after self.old.said (saying.Line line);
          counts = counts_after self.old.counts (saying.Line line);
        }) }
    {
        add_line(&mut self.lanes, line)?;
        self.counts = self.counts.with_line(line.op);
        Ok(())
    }

    /// Where the names of a kind were declared, in order.
    pub(crate) fn declared(
        &self,
        alloc: Global,
        kind: Option<NameKind>,
    ) -> Result<Vec<Span>, OutOfMemory> {
        let mut names = Vec::new(alloc);
        match kind {
            None => {}
            Some(NameKind::Area) => {
                for area in &self.areas {
                    names.push(area.name)?;
                }
            }
            Some(NameKind::Volume) => {
                for volume in &self.volumes {
                    names.push(volume.name)?;
                }
            }
            Some(NameKind::Writer) => {
                for writer in &self.writers {
                    names.push(writer.name)?;
                }
            }
            Some(NameKind::Lane) => {
                for lane in &self.lanes {
                    names.push(lane.name)?;
                }
            }
        }
        Ok(names)
    }

    /// Gives each lane the `end` line that it has not written. If memory runs out, the lanes are gone.
    pub(crate) fn close_lanes(&mut self, alloc: Global) -> Result<(), OutOfMemory>
        ensures { OnOk result (self.new ≡ record self.old {
          said = record self.old.said { lanes = map closed_lane self.old.said.lanes };
        }) }
    {
        let lanes = mem::replace(&mut self.lanes, Vec::new(alloc));
        self.lanes = closed_lanes(alloc, lanes)?;
        Ok(())
    }

    /// What a scenario is made of. The draft is over.
    pub(crate) fn take_parts(&mut self, alloc: Global) -> Parts
        ensures volumes { result.volumes.items ≡ self.old.said.volumes }
        ensures groups { result.groups.items ≡ self.old.said.groups }
        ensures writers { map writer_plan result.writers.items ≡ self.old.said.writers }
        ensures lanes { map lane_plan result.lanes.items ≡ self.old.said.lanes }
    {
        Parts {
            volumes: mem::replace(&mut self.volumes, Vec::new(alloc)),
            groups: mem::replace(&mut self.groups, Vec::new(alloc)),
            writers: mem::replace(&mut self.writers, Vec::new(alloc)),
            lanes: mem::replace(&mut self.lanes, Vec::new(alloc)),
        }
    }
}
