//! All processors and the clock on one thread, in an order that a seed gives.
ghost use Rattle.std.specs.Prelude.{◌≡◌, ◌≤◌, map, length, IfOk};
ghost use Rattle.fmp_smp.specs.Rounds.{TicksInTurn, next_of};
ghost use Rattle.fmp_smp.specs.Seeds as spec;
ghost use Rattle.fmp_smp.specs.Seeds.{AreSeated, IsInOrderOf};
ghost use Rattle.fmp_world.specs.Ends.{IsSmpRun};

use crate::rounds::Rounds;
use arrayvec::ArrayVec;
use fmp_codes::Proc;
use fmp_rules::Config;
use fmp_text_scripts::Scripts;
use fmp_world::{Cpu, Seats, SmpRun, Turn, World};
use rand_core::SeedableRng;
use rand_core::utils::NextWord;
use rand_xoshiro::SplitMix64;
use std::alloc::{AllocError, Global};

/// Plays all processors and the clock on one thread, in an order that the seed gives: the same seed gives the same run.
///
/// Before each record those are listed that can make one: the processors that have something to do, in their order, and after
/// them the clock, as long as it has ticks to give. Then the next number of SplitMix64 from the seed, modulo the length of this
/// list, is the place in it, from 0, of the one that does: a processor takes its turn, the clock gives its next tick. So there is
/// one number for each record, also where only one can make it. The clock gives its ticks as [`run_smp`](crate::run_smp) does:
/// one taken tick to each processor in order, round by round, or under a global timer to the master alone; a held tick is its next
/// one again.
///
/// The run ends when the list is empty, which says that all ticks are taken and no processor has anything to do, or when the history
/// has `turns` records. All memory is taken before the first turn.
///
/// The error is want of that memory, and there is no other.
pub fn run_seeded<'a>(
    alloc: Global,
    config: &'a Config,
    scripts: &'a Scripts,
    ticks: u32,
    turns: u32,
    seed: u64,
) -> Result<SmpRun<'a>, AllocError>
    requires ticks { ticks ≤ 1000000 }
    requires least { 1 ≤ turns }
    requires most { turns ≤ 1000000 }
    ensures run { IfOk result (λ r. IsSmpRun config.entry.now scripts.entry.now ticks turns r.history.records (map (λ v. v.items) r.receipts.items) r.ended) }
    ensures order { IfOk result (λ r. IsInOrderOf seed config.entry.now scripts.entry.now ticks r.history.records) }
    ensures ticked { IfOk result (λ r. TicksInTurn config.entry.now ticks r.history.records) }
    ensures configured { IfOk result (λ r. r.history.config ≡ config.entry.now) }
{
    let (mut world, mut seats) = World::boot(alloc, config, scripts, turns)?;
    let mut rounds = Rounds::new(config, ticks);
    let mut numbers = SplitMix64::seed_from_u64(seed);
    while go_on(alloc, &mut world, &mut seats, &mut rounds, &mut numbers) {}
    let run = world.finish(seats, config, scripts, ticks, turns);
    Ok(run.unwrap())
}

/// Who makes the next record.
#[derive(Clone, Copy, Default)]
enum Mover {
    Cpu(Proc),
    #[default]
    Clock,
}

/// One of these, at the place that a number gives modulo their count, if there are any.
#[tactic(auto, unfolding(crate::specs::Seeds::drawn))]
fn drawn(movers: &[Mover], number: u64) -> Option<Mover>
    ensures { result ≡ spec.drawn movers.now number }
{
    if movers.is_empty() {
        return None;
    }
    let place = number % movers.len() as u64;
    movers.get(place as usize).copied()
}

/// The processors that can make a record, in their order.
#[tactic(auto, unfolding(crate::specs::Seeds::cpus_of))]
fn cpus_of(alloc: Global, world: &World<'_>) -> ArrayVec<Mover, 9, Global>
    ensures are { result.items ≡ spec.cpus_of world.now.config world.now.scripts world.now.records world.now.config.processors }
    ensures few { length result.items ≤ 8 }
{
    let mut movers = ArrayVec::new_in(alloc);
    for at in 0..world.processors() {
        let p = Proc::new(at + 1);
        if world.has_turn(p) {
            movers.push(Mover::Cpu(p));
        }
    }
    movers
}

/// Those that can make a record: the processors in their order, and the clock after them.
#[tactic(auto, unfolding(crate::specs::Seeds::movers))]
fn movers(alloc: Global, world: &World<'_>, rounds: &Rounds) -> ArrayVec<Mover, 9, Global>
    ensures { result.items ≡ spec.movers world.now.config world.now.scripts world.now.records rounds.now }
{
    let mut movers = cpus_of(alloc, world);
    if !rounds.are_over() {
        movers.push(Mover::Clock);
    }
    movers
}

/// Whether a turn made a record.
fn is_recorded(turn: Turn) -> bool
    ensures { result ≡ spec.is_recorded turn }
{
    matches!(turn, Turn::Made(_))
}

/// What a mover does that has something to do. Says whether it made a record; if not, the history is full.
fn go(mover: Mover, world: &mut World<'_>, seats: &mut Seats, rounds: &mut Rounds) -> bool
    requires seated { AreSeated world.old seats.old.cpus.items seats.old.clock }
    requires can { spec.CanMove world.old rounds.old mover }
    ensures goes { spec.Goes world.old rounds.old mover result world.new rounds.new }
    ensures seated { AreSeated world.new seats.new.cpus.items seats.new.clock }
{
    match mover {
        Mover::Clock => is_recorded(rounds.give(world, &mut seats.clock)),
        Mover::Cpu(p) => match seats.cpus.get_mut(p.index()) {
            Some(cpu) => is_recorded(world.turn(cpu)),
            None => false,
        },
    }
}

/// The next record, by the one whom the next number draws. Says whether there is one.
fn go_on(
    alloc: Global,
    world: &mut World<'_>,
    seats: &mut Seats,
    rounds: &mut Rounds,
    numbers: &mut SplitMix64,
) -> bool
    requires seated { AreSeated world.old seats.old.cpus.items seats.old.clock }
    requires next { (next_of rounds.old).number ≤ world.old.config.processors }
    ensures goes { spec.GoesOn world.old rounds.old numbers.old result world.new rounds.new numbers.new }
    ensures seated { AreSeated world.new seats.new.cpus.items seats.new.clock }
{
    let movers = movers(alloc, world, rounds);
    let Some(mover) = drawn(movers.as_slice(), numbers.next_word()) else {
        return false;
    };
    go(mover, world, seats, rounds)
}
