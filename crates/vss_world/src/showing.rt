//! Lines that look at volumes and images.

ghost use Rattle.std.specs.Prelude.{◌≡◌, ◌<◌, ◌≤◌, length, is_some, unwrap_or};
ghost use Rattle.scenario.specs.Bounds.{IsBlock};
ghost use Rattle.scenario.specs.declared.op.Op.TheVariants as op;
ghost use Rattle.vss_model.specs.declared.event.Event.TheVariants.{Line};
ghost use Rattle.vss_model.specs.State.{kept_image};
ghost use Rattle.vss_world.specs.Stands.{IsOf, IfStands};
ghost use Rattle.provider.specs.Groups.{HasGroups};
ghost use Rattle.vss_world.specs.Moves.{IsStepped};
ghost use Rattle.vss_world.specs.Quiet.{AreKeptSets};

use crate::reading::{read_block, read_digest};
use crate::reply::{Reply, coded, told};
use crate::world::World;
use provider::Provider;
use scenario::Scenario;
use sessions::{Sessions, SetFacts};
use volume_device::Device;
use vss_model::Told;
use vss_names::VssResult;

impl<D: Device> World<D> {
    /// Whether the image of a set is kept on a volume.
    pub(crate) fn is_kept(&self, scenario: &Scenario, set: u32, volume: u32) -> bool
        requires of { IsOf self.now scenario.now }
        requires in_range { volume < length scenario.now.volumes }
        ensures { IfStands D.told self.now scenario.now (λ st. is_some (kept_image st set volume) ≡ result) }
    {
        if !self.sessions.is_complete(set) {
            return false;
        }
        self.provider.has_image(scenario, set, volume)
    }

    /// Reads a block of a volume.
    pub(crate) fn read(&mut self, scenario: &Scenario, lane: u32, volume: u32, block: u32) -> Reply
        requires of { IsOf self.old scenario.now }
        requires in_range { IsBlock scenario.now volume block }
        ensures { IsStepped D.Device self.old self.new scenario.now (Line lane (op.Read volume block)) result }
    {
        let Some(answer) = read_block(
            &mut self.provider,
            &mut self.block,
            scenario,
            volume,
            None,
            block,
        ) else {
            unreachable!();
        };
        self.evicted.clear();
        told(answer)
    }

    /// Reads a block of an image, where it is kept.
    pub(crate) fn show_block(
        &mut self,
        scenario: &Scenario,
        lane: u32,
        set: u32,
        volume: u32,
        block: u32,
    ) -> Reply
        requires of { IsOf self.old scenario.now }
        requires in_range { IsBlock scenario.now volume block }
        ensures { IsStepped D.Device self.old self.new scenario.now (Line lane (op.ImageBlock set volume block)) result }
    {
        let kept = self.is_kept(scenario, set, volume);
        self.evicted.clear();
        if !kept {
            return coded(VssResult::ObjectNotFound);
        }
        let Some(answer) = read_block(
            &mut self.provider,
            &mut self.block,
            scenario,
            volume,
            Some(set),
            block,
        ) else {
            return coded(VssResult::ObjectNotFound);
        };
        told(answer)
    }

    /// Tells the digest of an image, where it is kept.
    pub(crate) fn show_image(
        &mut self,
        scenario: &Scenario,
        lane: u32,
        set: u32,
        volume: u32,
    ) -> Reply
        requires of { IsOf self.old scenario.now }
        requires in_range { volume < length scenario.now.volumes }
        ensures { IsStepped D.Device self.old self.new scenario.now (Line lane (op.ImageDigest set volume)) result }
    {
        let kept = self.is_kept(scenario, set, volume);
        self.evicted.clear();
        if !kept {
            return coded(VssResult::ObjectNotFound);
        }
        let Some(answer) = read_digest(&mut self.provider, scenario, volume, Some(set)) else {
            return coded(VssResult::ObjectNotFound);
        };
        told(answer)
    }

    /// Lists the sets whose images are kept on a volume.
    pub(crate) fn query(&mut self, scenario: &Scenario, lane: u32, volume: u32) -> Reply
        requires of { IsOf self.old scenario.now }
        requires in_range { volume < length scenario.now.volumes }
        ensures { IsStepped D.Device self.old self.new scenario.now (Line lane (op.Query volume)) result }
    {
        let sets = kept_sets(&self.provider, &self.sessions, scenario, volume);
        self.listed.list(sets);
        self.evicted.clear();
        told(Told::Images)
    }

    /// Tells of an image, where it is kept.
    pub(crate) fn properties(
        &mut self,
        scenario: &Scenario,
        lane: u32,
        set: u32,
        volume: u32,
    ) -> Reply
        requires of { IsOf self.old scenario.now }
        requires in_range { volume < length scenario.now.volumes }
        ensures { IsStepped D.Device self.old self.new scenario.now (Line lane (op.Properties set volume)) result }
    {
        let kept = self.is_kept(scenario, set, volume);
        self.evicted.clear();
        if !kept {
            return coded(VssResult::ObjectNotFound);
        }
        let Some(facts) = self.sessions.facts(set) else {
            return coded(VssResult::ObjectNotFound);
        };
        let used = or_zero(self.provider.used_by(scenario, set, volume));
        let cut = cut_of(&facts);
        told(Told::Properties {
            context: facts.context,
            cut,
            used,
        })
    }
}

fn or_zero(number: Option<u32>) -> u32
    ensures { result ≡ unwrap_or number 0 }
{
    number.unwrap_or(0)
}

/// The clock at the cut of a set.
fn cut_of(facts: &SetFacts) -> u64
    ensures { result ≡ unwrap_or facts.now.cut_at 0 }
{
    match facts.cut_at {
        Some(cut) => cut,
        None => 0,
    }
}

/// The sets of the images of a volume that are kept: all, but for the one that is in progress, whose image is the newest.
pub(crate) fn kept_sets<'a, D: Device>(
    provider: &'a Provider<D>,
    sessions: &Sessions,
    scenario: &Scenario,
    volume: u32,
) -> &'a [u32]
    requires has { HasGroups scenario.now provider.now.groups }
    requires in_range { volume < length scenario.now.volumes }
    ensures sets { AreKeptSets D.told provider.now sessions.now scenario.now volume result.now }
    ensures few { length result.now ≤ 512 }
{
    let sets = provider.images(scenario, volume);
    let count = sets.len();
    if count == 0 {
        return sets;
    }
    if sessions.is_complete(sets[count - 1]) {
        return sets;
    }
    &sets[..count - 1]
}
