ghost use Rattle.std.specs.Prelude.{◌≡◌, ◌+◌, ◌≤◌, ◌++◌, ◌⊎◌, Some, true, false, length, map, OnOk, OnErr, IfOk, IsErr, IsErrOf, option_map, is_some};
ghost use Rattle.vss_names.specs.Faults.{Rose, all_counted};
ghost use Rattle.vss_model.specs.Trail.{event_of};
ghost use Rattle.vss_report.specs.ToldLines.{IsLineOf};
ghost use Rattle.vss_play.specs.Closing.{AreDigests};
ghost use Rattle.vss_play.specs.Made.{AreLeft};
ghost use Rattle.vss_play.specs.Running.{MayIfCan};
ghost use Rattle.write_history.specs.declared.mark.Mark.{Mark};
ghost use Rattle.cow_volume.specs.Calls.{NeverFails, counted_as};
ghost use Rattle.vss_play.specs.Played.{run_of, is_finished, tells_in, IsKept, IsTurn, IsMarkedTurn, IsFresh, IsUndone, IsDropped, IsQuietPlay, IsClosed, IsEnded, AnyRose, AreNamed, AreasHold, device_names};

use crate::closing::close_all;
use crate::devices::{give_all, make_devices};
use crate::digests::digest_all;
use crate::end_digests::ready_digests;
use crate::groups::open_groups;
use crate::idle::{may_idle, next_answer};
use crate::moved::Moved;
use crate::play_fault::PlayFault;
use crate::step_fault::StepFault;
use crate::turn::{
    advance, answers_no_more, are_used_up, bytes_for, first_cursors, first_lines, lanes_with_lines,
    mark_of, next_line, push_move, step_by, turns_come_to_an_end, write_lines,
};
use provider::DigestsOf;
use scenario::Scenario;
use std::alloc::Global;
use std::marker::Model;
use std::thread::Threads;
use volume_device::{Device, Maker, Store};
use vss_model::Event;
use vss_names::{Failed, Text};
use vss_world::{Reply, World};
use write_history::{Actor, Mark, Move, Trail, TrailFault};

/// A run of a scenario. Contracts see its scenario, its moves, its devices and the report so far.
#[derive(Drop)]
pub struct Play<D: Device> {
    scenario: Scenario,
    world: World<D>,
    /// For each lane, how many lines it has made.
    cursors: Vec<u32>,
    /// How many lanes have a line left.
    going: u32,
    trail: Trail,
    lines: Text,
}

impl<D: Device> Model for Play<D> {
    ghost use Rattle.vss_play.specs.Played.{Played};
    ghost use Rattle.vss_play.specs.Running.{IsPlaying};

    ghost Value = { Played D };

    ghost view = { λ a. record { plan = a.scenario; trail = a.trail.moves; devices = a.world.devices; lines = a.lines.bytes } };

    ghost invariant = { λ a. IsPlaying D.told a.scenario a.world a.cursors.items a.going a.trail.moves a.lines.bytes };
}

impl<D: Device> Play<D> {
    /// A run of which nothing has happened yet. The maker makes each volume's device by the volume's name with `.vol` behind it,
    /// in order of the volumes, and then the device of each area, in order of the groups: that of a volume's own area by the
    /// volume's name with `.area`, that of a declared area by its name with `.shared`.
    /// Where one is refused, the maker gets back those that it made. Where memory is refused once all are made, they are dropped.
    pub fn new<M: Maker<Made = D>>(
        alloc: Global,
        scenario: Scenario,
        store: &Store,
        maker: &mut M,
    ) -> Result<Play<D>, PlayFault>
        ensures fresh { IfOk result (IsFresh D.Device (M.tells maker.old store.now) scenario) }
        ensures tells { M.tells maker.new ≡ M.tells maker.old }
        ensures named { OnOk result (AreNamed (device_names scenario) (M.named maker.old) (M.named maker.new)) }
        ensures kept { OnOk result (M.kept maker.new ≡ M.kept maker.old) }
        ensures undone { IsErrOf result PlayFault.Failed → IsUndone D.count scenario (M.named maker.old) (M.named maker.new) (M.kept maker.old) (M.kept maker.new) }
        ensures wanting { IsErrOf result PlayFault.OutOfMemory → IsUndone D.count scenario (M.named maker.old) (M.named maker.new) (M.kept maker.old) (M.kept maker.new) ⊎ IsDropped scenario (M.named maker.old) (M.named maker.new) (M.kept maker.old) (M.kept maker.new) }
        ensures places { IfOk result (λ play. length play.devices ≤ M.places maker.new) }
        ensures later { M.count maker.old ≤ M.count maker.new }
        ensures unfailed { OnOk result (M.count maker.new ≡ M.count maker.old) }
        ensures unmade { IsErrOf result PlayFault.OutOfMemory → M.count maker.new ≡ M.count maker.old }
        ensures rose { IsErrOf result PlayFault.Failed → Rose (M.count maker.old) (M.count maker.new) }
    {
        let lines = first_lines(alloc)?;
        let Ok(cursors) = first_cursors(alloc, scenario.lanes()) else {
            return Err(PlayFault::OutOfMemory);
        };
        let going = lanes_with_lines(&scenario);
        let devices = make_devices(alloc, &scenario, store, maker)?;
        let Ok(groups) = open_groups(alloc, &scenario, devices) else {
            return Err(PlayFault::OutOfMemory);
        };
        let Ok(world) = World::new(alloc, &scenario, groups) else {
            return Err(PlayFault::OutOfMemory);
        };
        let trail = Trail::new(alloc);
        Ok(Play {
            scenario,
            world,
            cursors,
            going,
            trail,
            lines,
        })
    }

    /// Makes the next move of an actor, where it may come. Time passes idly only where nothing else can move. An actor that has no move
    /// any more is told so without memory.
    pub fn step(&mut self, alloc: Global, actor: Actor) -> Result<Moved, StepFault>
        ensures { IsTurn D.Device self.old self.new actor result }
    {
        self.turn(alloc, actor, None)
    }

    /// Makes the next move of an actor as `step` does, with the mark of a move that is told: what a call of a device leaves that fails so,
    /// though no such call is made. Where the move may not come with this mark, its mark is as the devices give it.
    pub fn step_marked(&mut self, alloc: Global, item: Move) -> Result<Moved, StepFault>
        ensures moved { IsTurn (counted_as D.Device true) self.old self.new item.actor result }
        ensures marked { NeverFails D.count → IsMarkedTurn self.old self.new item result }
    {
        self.turn(alloc, item.actor, Some(item.mark))
    }

    /// The next move of an actor, by the calls of the devices or with a mark that is told.
    fn turn(&mut self, alloc: Global, actor: Actor, given: Option<Mark>) -> Result<Moved, StepFault>
        ensures moved { IsTurn (counted_as D.Device (is_some given)) self.old self.new actor result }
        ensures marked { NeverFails D.count → (mark : Mark) → given ≡ Some mark → IsMarkedTurn self.old self.new (record { actor = actor; mark = mark }) result }
    {
        match actor {
            Actor::Lane(lane) => match next_line(&self.scenario, &self.cursors, lane) {
                None => Ok(Moved::Finished),
                Some(line) => {
                    let event = Event::Line { lane, op: line.op };
                    self.make(alloc, actor, line.number, event, given)
                }
            },
            Actor::Writer(writer) => {
                if answers_no_more(&self.scenario, writer, self.going) {
                    return Ok(Moved::Finished);
                }
                match next_answer(&self.scenario, &self.world, writer) {
                    None => Ok(Moved::Blocked),
                    Some(answer) => {
                        let event = Event::Answer { writer, answer };
                        self.make(alloc, actor, 0, event, given)
                    }
                }
            }
            Actor::Advance => {
                if are_used_up(self.going) {
                    return Ok(Moved::Finished);
                }
                self.make(alloc, actor, 0, Event::Provider, given)
            }
            Actor::Idle => {
                if are_used_up(self.going) {
                    return Ok(Moved::Finished);
                }
                turns_come_to_an_end();
                if may_idle(&self.scenario, &self.world, &self.cursors) {
                    return self.make(alloc, actor, 0, Event::Idle, given);
                }
                Ok(Moved::Blocked)
            }
        }
    }

    /// The allocator of its memory.
    pub(crate) fn allocator(&self) -> Global {
        *self.cursors.allocator()
    }

    /// Makes the event of an actor, where it is enabled. `line` is the number of the lane's line. Memory for the trail and
    /// the report is taken first.
    fn make(
        &mut self,
        alloc: Global,
        actor: Actor,
        line: u32,
        event: Event,
        given: Option<Mark>,
    ) -> Result<Moved, StepFault>
        requires event { event_of self.old.plan (run_of self.old) actor ≡ Some event }
        requires may { MayIfCan self.old.plan (run_of self.old) actor }
        requires line { IsLineOf self.old.plan (run_of self.old) actor line }
        requires going { is_finished self.old.plan self.old.trail actor ≡ false }
        ensures moved { IsTurn (counted_as D.Device (is_some given)) self.old self.new actor result }
        ensures marked { NeverFails D.count → (mark : Mark) → given ≡ Some mark → IsMarkedTurn self.old self.new (record { actor = actor; mark = mark }) result }
    {
        turns_come_to_an_end();
        match self.trail.reserve() {
            Ok(()) => {}
            Err(TrailFault::Full) => unreachable!(),
            Err(TrailFault::OutOfMemory) => return Err(StepFault::OutOfMemory),
        }
        let most = bytes_for(&self.scenario, event);
        if self.lines.reserve(most).is_err() {
            return Err(StepFault::OutOfMemory);
        }
        match step_by(&mut self.world, alloc, &self.scenario, event, given) {
            Err(_) => Err(StepFault::OutOfMemory),
            Ok(Reply::Blocked) => Ok(Moved::Blocked),
            Ok(Reply::Moved(outcome)) => {
                let item = Move {
                    actor,
                    mark: mark_of(outcome.told),
                };
                let number = self.trail.len() + 1;
                write_lines(
                    &self.scenario,
                    &self.world,
                    number,
                    line,
                    item,
                    &outcome,
                    &mut self.lines,
                );
                push_move(&mut self.trail, item);
                self.going = advance(&self.scenario, &mut self.cursors, actor, self.going);
                Ok(Moved::Moved)
            }
        }
    }

    /// The moves so far.
    pub fn trail(&self) -> &Trail
        ensures { result.now.moves ≡ self.now.trail }
    {
        &self.trail
    }

    /// The report so far, without the closing lines.
    pub fn lines(&self) -> &[u8]
        ensures lines { result.now ≡ self.now.lines }
        ensures kept { IsKept D.told self.now }
    {
        self.lines.bytes()
    }

    /// How many lanes there are.
    pub fn lanes(&self) -> u32
        ensures count { result ≡ length self.now.plan.lanes }
        ensures kept { IsKept D.told self.now }
    {
        self.scenario.lanes()
    }

    /// How many writers there are.
    pub fn writers(&self) -> u32
        ensures count { result ≡ length self.now.plan.writers }
        ensures kept { IsKept D.told self.now }
    {
        self.scenario.writers()
    }

    /// Writes each group's area to its device, brings all that was written to the devices to where it lasts, and appends the closing lines:
    /// how many moves there are and the clock, for each volume how it stands, with its kept images, and for each writer its state. Where it
    /// is refused, `out` has the bytes that it had. Digests are made side by side where that can be done.
    pub fn close<R: Threads + Sync>(
        &mut self,
        rt: &R,
        alloc: Global,
        out: &mut Text,
    ) -> Result<(), PlayFault>
    where
        D: Sync,
        ensures closed { OnOk result (IsClosed D.told self.new out.old.bytes out.new.bytes) }
        ensures left { OnOk result (AreLeft D.Device self.new.plan self.new.devices) }
        ensures same { OnErr result (out.new.bytes ≡ out.old.bytes) }
        ensures quiet { IsQuietPlay D.Device self.old self.new }
        ensures kept { IsKept D.told self.new }
        ensures unfailed { OnOk result (map D.count self.new.devices ≡ map D.count self.old.devices) }
        ensures wanting { IsErrOf result PlayFault.OutOfMemory → map D.count self.new.devices ≡ map D.count self.old.devices }
        ensures rose { IsErrOf result PlayFault.Failed → AnyRose (map D.count self.old.devices) (map D.count self.new.devices) }
    {
        turns_come_to_an_end();
        let before = out.len();
        let mut ready = ready_digests(
            rt,
            alloc,
            &self.scenario,
            &self.trail,
            &self.world,
            DigestsOf::VolumesAndImages,
        );
        match close_all(
            &self.scenario,
            &self.trail,
            &mut self.world,
            &mut ready,
            out,
        ) {
            Err(fault) => {
                out.truncate(before);
                return Err(fault);
            }
            Ok(()) => {}
        }
        Ok(())
    }

    /// Writes each group's area to its device, brings all that was written to the devices to where it lasts, and gives the SHA-256 of all
    /// blocks of each volume, in order of the volumes. They are made side by side where that can be done.
    pub fn digests<R: Threads + Sync>(&mut self, rt: &R, out: &mut [[u8; 32]]) -> Result<(), Failed>
    where
        D: Sync,
        requires many { length out.old ≡ length self.old.plan.volumes }
        ensures digests { OnOk result (AreDigests (tells_in D.told self.new) self.new.plan self.new.trail out.new) }
        ensures areas { OnOk result (AreasHold D.told self.new.plan self.new.trail self.new.devices) }
        ensures left { OnOk result (AreLeft D.Device self.new.plan self.new.devices) }
        ensures quiet { IsQuietPlay D.Device self.old self.new }
        ensures kept { IsKept D.told self.new }
        ensures unfailed { OnOk result (map D.count self.new.devices ≡ map D.count self.old.devices) }
        ensures rose { IsErr result → AnyRose (map D.count self.old.devices) (map D.count self.new.devices) }
    {
        turns_come_to_an_end();
        let mut ready = ready_digests(
            rt,
            self.allocator(),
            &self.scenario,
            &self.trail,
            &self.world,
            DigestsOf::Volumes,
        );
        digest_all(
            &self.scenario,
            &self.trail,
            &mut self.world,
            &mut ready,
            out,
        )?;
        Ok(())
    }

    /// Closes the report in its own text, as `close` does, and hands the devices back to a maker, as `give_back` does, also where
    /// the closing lines are refused. The report is answered.
    pub fn finish<R: Threads + Sync, M: Maker<Made = D>>(
        self,
        rt: &R,
        maker: &mut M,
    ) -> Result<Text, PlayFault>
    where
        D: Sync,
        ensures ended { IsEnded D.Device self (M.places maker.old) (M.kept maker.old) (M.kept maker.new) (M.count maker.old) (M.count maker.new) result }
        ensures tells { M.tells maker.new ≡ M.tells maker.old }
        ensures named { M.named maker.new ≡ M.named maker.old }
        ensures later { M.count maker.old ≤ M.count maker.new }
    {
        let alloc = self.allocator();
        let Play {
            scenario,
            world,
            cursors: _,
            going: _,
            trail,
            lines,
        } = self;
        turns_come_to_an_end();
        let mut report = lines;
        let mut core = world;
        let mut ready = ready_digests(
            rt,
            alloc,
            &scenario,
            &trail,
            &core,
            DigestsOf::VolumesAndImages,
        );
        match close_all(&scenario, &trail, &mut core, &mut ready, &mut report) {
            Err(fault) => {
                give_all(core.into_devices(), maker);
                return Err(fault);
            }
            Ok(()) => {}
        }
        give_all(core.into_devices(), maker);
        Ok(report)
    }

    /// Hands the devices back to a maker, as they are: for each group its volumes' in order, and then its area's.
    pub fn give_back<M: Maker<Made = D>>(self, maker: &mut M)
        ensures tells { M.tells maker.new ≡ M.tells maker.old }
        ensures named { M.named maker.new ≡ M.named maker.old }
        ensures later { M.count maker.old ≤ M.count maker.new }
        ensures kept { length self.devices ≤ M.places maker.old → M.kept maker.new ≡ option_map (λ devices. devices ++ self.devices) (M.kept maker.old) }
        ensures count { M.count maker.new ≡ all_counted (M.count maker.old) (map D.count self.devices) }
    {
        let Play {
            scenario: _,
            world,
            cursors: _,
            going: _,
            trail: _,
            lines: _,
        } = self;
        give_all(world.into_devices(), maker);
    }
}
