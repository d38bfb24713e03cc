ghost use Rattle.std.specs.Prelude.{◌≡◌, ◌<◌, length, slice_get, Some, option_map};
ghost use Rattle.writer_meta.specs.Metadata.{meta_of};
ghost use Rattle.writer_calls.specs.Script.{scripted_answer};
ghost use Rattle.scenario.specs.Plan.{token, lines_of, acts_as, script_of};
ghost use Rattle.scenario.specs.Bounds.{IsPlan, IsSpan};
ghost use Rattle.scenario.specs.Named.{HasNames};
ghost use Rattle.scenario.specs.Places.{ArePlaces, IsPlaceOf, volume_in};

use crate::group_row::GroupRow;
use crate::lane::Lane;
use crate::lane_line::LaneLine;
use crate::op::Op;
use crate::parts::Parts;
use crate::place::{Place, find_place};
use crate::span::Span;
use crate::volume_row::VolumeRow;
use crate::writer::Writer;
use std::marker::Model;
use vss_names::{Order, Text};
use writer_calls::Answer;
use writer_meta::Metadata;

/// A scenario that was read. Contracts see it as its plan, which keeps to the limits.
#[derive(Drop)]
pub struct Scenario {
    source: Text,
    volumes: Vec<VolumeRow>,
    /// Where each volume is.
    places: Vec<Place>,
    groups: Vec<GroupRow>,
    writers: Vec<Writer>,
    lanes: Vec<Lane>,
}

impl Model for Scenario {
    ghost use Rattle.scenario.specs.Plan.{Plan};
    ghost use Rattle.scenario.specs.Views.{plan_of};
    ghost use Rattle.scenario.specs.Bounds.{IsPlan};
    ghost use Rattle.scenario.specs.Named.{HasNames};
    ghost use Rattle.std.specs.Prelude.{length};
    ghost use Rattle.scenario.specs.Places.{ArePlaces};

    ghost Value = { Plan };

    ghost view = { plan_of };

    ghost invariant = { λ a. IsPlan (plan_of a) × HasNames (plan_of a)
        × ArePlaces a.volumes.items (length a.volumes.items) a.places.items };
}

impl Scenario {
    ghost use Rattle.scenario.specs.Views.{plan_from};

    /// The scenario of a text, without taking memory.
    pub(crate) fn of(source: Text, parts: Parts, places: Vec<Place>) -> Scenario
        requires plan { IsPlan (plan_from source.bytes parts.volumes.items parts.groups.items parts.writers.items parts.lanes.items) }
        requires names { HasNames (plan_from source.bytes parts.volumes.items parts.groups.items parts.writers.items parts.lanes.items) }
        requires places { ArePlaces parts.volumes.items (length parts.volumes.items) places.items }
        ensures { result ≡ plan_from source.bytes parts.volumes.items parts.groups.items parts.writers.items parts.lanes.items }
    {
        Scenario {
            source,
            volumes: parts.volumes,
            places,
            groups: parts.groups,
            writers: parts.writers,
            lanes: parts.lanes,
        }
    }

    /// How many volumes are declared.
    pub fn volumes(&self) -> u32
        ensures count { result ≡ length self.now.volumes }
        ensures plan { IsPlan self.now }
        ensures names { HasNames self.now }
    {
        self.volumes.len() as u32
    }

    /// A declared volume.
    pub fn volume(&self, v: u32) -> VolumeRow
        requires { v < length self.now.volumes }
        ensures { slice_get self.now.volumes v ≡ Some result }
    {
        self.volumes[v as usize]
    }

    /// Where a declared volume is: its group, and its number within the group.
    pub fn place(&self, v: u32) -> Place
        requires { v < length self.now.volumes }
        ensures { IsPlaceOf self.now v result.group result.volume }
    {
        self.places[v as usize]
    }

    /// Which volume is at a place; how many volumes there are where none is.
    pub fn volume_at(&self, place: Place) -> u32
        ensures { result ≡ volume_in place.group self.now.volumes place.volume }
    {
        match find_place(&self.places, place) {
            Some(v) => v as u32,
            None => self.volumes.len() as u32,
        }
    }

    /// How many groups of volumes there are. They are numbered by their first volumes.
    pub fn groups(&self) -> u32
        ensures { result ≡ length self.now.groups }
    {
        self.groups.len() as u32
    }

    /// The name of a declared area; of a volume with an area of its own, the volume's name.
    pub fn group_name(&self, g: u32) -> Span
        requires { g < length self.now.groups }
        ensures { option_map (λ group. group.name) (slice_get self.now.groups g) ≡ Some result }
    {
        self.groups[g as usize].name
    }

    /// The slots of a group's diff area.
    pub fn group_slots(&self, g: u32) -> u32
        requires { g < length self.now.groups }
        ensures { option_map (λ group. group.slots) (slice_get self.now.groups g) ≡ Some result }
    {
        self.groups[g as usize].slots
    }

    /// How many writers are declared.
    pub fn writers(&self) -> u32
        ensures count { result ≡ length self.now.writers }
        ensures plan { IsPlan self.now }
        ensures names { HasNames self.now }
    {
        self.writers.len() as u32
    }

    /// The name of a writer.
    pub fn writer_name(&self, w: u32) -> Span
        requires { w < length self.now.writers }
        ensures { option_map (λ writer. writer.name) (slice_get self.now.writers w) ≡ Some result }
    {
        self.writers[w as usize].name
    }

    /// What a writer tells of itself.
    pub fn metadata(&self, w: u32) -> &Metadata
        requires { w < length self.now.writers }
        ensures { option_map (λ writer. writer.meta) (slice_get self.now.writers w) ≡ Some (meta_of result.now) }
    {
        &self.writers[w as usize].metadata
    }

    /// What a writer answers to its `nth` order of a kind, counted from 1; none is a lost answer. A writer answers ok
    /// where its script does not speak of the order.
    pub fn script(&self, w: u32, order: Order, nth: u32) -> Option<Answer>
        requires { w < length self.now.writers }
        ensures { result ≡ scripted_answer (script_of self.now w) order nth }
    {
        self.writers[w as usize].script.answer(order, nth)
    }

    /// How many lanes there are.
    pub fn lanes(&self) -> u32
        ensures count { result ≡ length self.now.lanes }
        ensures plan { IsPlan self.now }
        ensures names { HasNames self.now }
    {
        self.lanes.len() as u32
    }

    /// The name of a lane.
    pub fn lane_name(&self, lane: u32) -> Span
        requires { lane < length self.now.lanes }
        ensures { option_map (λ l. l.name) (slice_get self.now.lanes lane) ≡ Some result }
    {
        self.lanes[lane as usize].name
    }

    /// The number of the writer as which a lane acts; none of a lane without `as`.
    pub fn acts_as(&self, lane: u32) -> Option<u32>
        requires { lane < length self.now.lanes }
        ensures { result ≡ acts_as self.now lane }
    {
        self.lanes[lane as usize].acts_as
    }

    /// How many lines a lane has, with the `end` that it gets without writing it.
    pub fn lane_len(&self, lane: u32) -> u32
        requires { lane < length self.now.lanes }
        ensures { result ≡ length (lines_of self.now lane) }
    {
        self.lanes[lane as usize].lines.len() as u32
    }

    /// What line `i` of a lane says, counted from 0.
    pub fn op(&self, lane: u32, i: u32) -> Op
        requires lane { lane < length self.now.lanes }
        requires line { i < length (lines_of self.now lane) }
        ensures { option_map (λ line. line.op) (slice_get (lines_of self.now lane) i) ≡ Some result }
    {
        self.lanes[lane as usize].lines[i as usize].op
    }

    /// The number that line `i` of a lane has in the text; 0 for the `end` that it gets without writing it.
    pub fn op_line(&self, lane: u32, i: u32) -> u32
        requires lane { lane < length self.now.lanes }
        requires line { i < length (lines_of self.now lane) }
        ensures { option_map (λ line. line.number) (slice_get (lines_of self.now lane) i) ≡ Some result }
    {
        self.lanes[lane as usize].lines[i as usize].number
    }

    /// Line `i` of a lane, counted from 0; none where there is no such line or no such lane.
    pub fn line(&self, lane: u32, i: u32) -> Option<LaneLine>
        ensures { result ≡ slice_get (lines_of self.now lane) i }
    {
        let lines = &self.lanes.get(lane as usize)?.lines;
        lines.get(i as usize).copied()
    }

    /// The bytes of a part of the text.
    pub fn token(&self, span: Span) -> &[u8]
        requires { IsSpan self.now span }
        ensures { result.now ≡ token self.now span }
    {
        &self.source.bytes()[span.start as usize..span.end as usize]
    }
}
