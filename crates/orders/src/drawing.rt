//! Runs whose order is drawn by a number.

ghost use Rattle.std.specs.Prelude.{◌≡◌, ◌<◌, length, IfOk};
ghost use Rattle.vss_play.specs.Acting.{actors_in_threads};
ghost use Rattle.orders.specs.Drawn.{word_of, generator_after, place_of, asked_from, IsFirstToGo, IsDrawnMove, IsPlayedAsDrawn};

use rand_core::SeedableRng;
use rand_core::utils::NextWord;
use rand_xoshiro::SplitMix64;
use std::alloc::Global;
use volume_device::Device;
use vss_names::OutOfMemory;
use vss_play::in_turn::turn;
use vss_play::{Play, actors_of};
use write_history::Actor;

/// The generator's next word.
#[tactic(auto, unfolding(crate::specs::Drawn::word_of, crate::specs::Drawn::generator_after))]
fn next_word(generator: &mut SplitMix64) -> u64
    ensures word { result ≡ word_of generator.old }
    ensures after { generator.new ≡ generator_after generator.old }
{
    generator.next_word()
}

/// A place among so many.
fn draw(generator: &mut SplitMix64, count: usize) -> usize
    requires { 0 < count }
    ensures place { result ≡ place_of generator.old count }
    ensures below { result < count }
    ensures after { generator.new ≡ generator_after generator.old }
{
    (next_word(generator) % count as u64) as usize
}

/// Makes the move of the first of these actors that goes, or answers false where none does.
fn first_to_go<D: Device>(
    alloc: Global,
    play: &mut Play<D>,
    actors: &[Actor],
) -> Result<bool, OutOfMemory>
    ensures { IsFirstToGo D.Device play.old play.new actors.now result }
{
    for actor in actors {
        if turn(alloc, play, *actor)? {
            return Ok(true);
        }
    }
    Ok(false)
}

/// Makes the move of the first that goes from a place on, once round, or else of time.
fn next_from<D: Device>(
    alloc: Global,
    play: &mut Play<D>,
    actors: &[Actor],
    place: usize,
) -> Result<bool, OutOfMemory>
    requires { place < length actors.now }
    ensures { IsFirstToGo D.Device play.old play.new (asked_from place actors.now) result }
{
    let parts = actors.split_at(place);
    if first_to_go(alloc, play, parts.1)? {
        return Ok(true);
    }
    if first_to_go(alloc, play, parts.0)? {
        return Ok(true);
    }
    first_to_go(alloc, play, &[Actor::Idle])
}

/// Makes the move that is drawn next, or answers false where the trail is complete.
fn drawn_move<D: Device>(
    alloc: Global,
    play: &mut Play<D>,
    actors: &[Actor],
    generator: &mut SplitMix64,
) -> Result<bool, OutOfMemory>
    requires all { actors.now ≡ actors_in_threads play.old.plan }
    requires some { 0 < length actors.now }
    ensures after { generator.new ≡ generator_after generator.old }
    ensures moved { IsDrawnMove D.Device generator.old play.old play.new result }
{
    let place = draw(generator, actors.len());
    next_from(alloc, play, actors, place)
}

/// Makes moves until the trail is complete: each time a place among the lanes, the writers and the provider is drawn, and the first
/// from there on moves that can, once round; time passes idly where none of them can.
pub fn play_drawn<D: Device>(
    alloc: Global,
    play: Play<D>,
    number: u32,
) -> Result<Play<D>, OutOfMemory>
    ensures { IfOk result (IsPlayedAsDrawn D.Device number play) }
{
    let actors = actors_of(alloc, &play)?;
    let mut play = play;
    let mut generator = SplitMix64::seed_from_u64(number as u64);
    'moves: while drawn_move(alloc, &mut play, actors.as_slice(), &mut generator)? {}
    let _facts = play.lanes();
    Ok(play)
}
