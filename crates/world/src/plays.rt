//! A play of events, from the first world on.

ghost use Rattle.std.specs.Prelude.{◌≡◌, IfOk, IsTrue};
ghost use Rattle.worlds.specs.World.{IsReached};
ghost use Rattle.world_laws.specs.Laws.{OneIsChosen, ChosenIsBacked, ChosenStands, ChosenIsKept, trims_none};
ghost use Rattle.one_server_laws.specs.Laws.{ShowsOneServer, KeepsItsRun};
ghost use Rattle.linear_laws.specs.Laws.{ShowsLinearizable};

use crate::world::World;
use events::{Config, Event};
use linear_laws::reached_are_linearizable;
use one_server_laws::{executors_keep_the_run, worlds_are_of_one_server};
use std::alloc::{AllocError, Global};
use world_laws::{
    chosen_is_backed_in_worlds, chosen_is_kept_in_worlds, chosen_stands_in_worlds,
    one_is_chosen_in_worlds,
};

/// The world to which the events lead from the first one.
#[tactic(auto, using(worlds::proofs::FirstLemmas::reached_first, worlds::proofs::LeadLemmas::reached_next))]
fn played(alloc: Global, config: &Config, events: &[Event]) -> Result<World, AllocError>
    ensures { IfOk result (λ world. IsReached config.now events.now world) }
{
    let mut world = World::open(alloc, config)?;
    for event in events {
        world = world.step(alloc, event)?;
    }
    Ok(world)
}

/// The world to which the events lead, one after the other, from the first one: whatever is delivered,
/// lost or sent again, and whichever nodes stop, are opened again or are lost for good.
///
/// At each place at most one decree is chosen, by the letters of this world; a chosen one is backed; and
/// if at most `u` verifiers are lost for good, the record of another one holds each, or begins above it
/// with what the chosen decrees up to there stand for; if no event trims a verifier, it holds each.
///
/// If digests tell the states apart that executors had on the way, all that clients were given and all
/// that executors have committed is of one run of a single server, in this world and in each one on the
/// way to it, and more events only extend that run; and if at most `u` executors are lost for good, the
/// record of another one has the state that the run ends with. Then what clients asked and were given on the
/// way is linearizable, as of one memcached server (`memcached_spec`), and no batch shows what is due at its moment.
///
/// A node that finds no memory stops. The only error is that the world finds none for its lists, for the copy
/// of a letter, or for a node that is opened for the first time.
pub fn play(alloc: Global, config: &Config, events: &[Event]) -> Result<World, AllocError>
    ensures reached { IfOk result (λ world. IsReached config.now events.now world) }
    ensures agree { IfOk result (λ world. OneIsChosen world) }
    ensures backed { IfOk result (λ world. ChosenIsBacked world) }
    ensures kept { IfOk result (λ world. ChosenStands world) }
    ensures kept_whole { IsTrue (trims_none events.now) → IfOk result (λ world. ChosenIsKept world) }
    ensures one_server { IfOk result (λ world. ShowsOneServer config.now events.now world) }
    ensures linearizable { IfOk result (λ world. ShowsLinearizable config.now events.now world) }
    ensures executors_keep { IfOk result (λ world. KeepsItsRun config.now events.now world) }
{
    one_is_chosen_in_worlds();
    chosen_is_backed_in_worlds();
    chosen_stands_in_worlds();
    chosen_is_kept_in_worlds();
    worlds_are_of_one_server();
    executors_keep_the_run();
    reached_are_linearizable();
    played(alloc, config, events)
}
