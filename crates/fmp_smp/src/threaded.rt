//! One thread for each processor, and one for the clock.
ghost use Rattle.std.specs.Prelude.{◌≡◌, ◌≤◌, map, vec_len, IfOk};
ghost use Rattle.fmp_smp.specs.Rounds.{TicksInTurn};
ghost use Rattle.fmp_world.specs.Ends.{IsSmpRun};

use crate::clocked::Clocked;
use crate::fault::SmpFault;
use crate::gate::Gate;
use crate::shared::Shared;
use arrayvec::ArrayVec;
use crossbeam_utils::sync::{Parker, Unparker};
use fmp_rules::Config;
use fmp_text_scripts::Scripts;
use fmp_world::{Clock, Cpu, Seats, SmpRun, Turn, World};
use std::alloc::{AllocError, Global};
use std::sync::atomic::AtomicBool;
use std::sync::{Mutex, Wait};
use std::thread;
use std::thread::{JoinHandle, Threads};

/// Runs each processor in a thread of its own, and a clock in another, which gives each processor `ticks` taken ticks: round by
/// round in the order of the processors, or under a global timer to the master alone. A held tick is recorded so, and given again
/// in a later hold of the lock before any other (`TicksInTurn`). Each turn and each tick is one hold of the one lock.
///
/// The run ends when all ticks are taken and the world is quiet, or when the history has `turns` records. The memory of the world,
/// its seats and its judge is taken before the first turn.
///
/// Errors: `Memory` where there is no memory for that, `Start` where a thread could not be started (those that were are joined),
/// `Disagree` where what came back is no run.
pub fn run_smp<'a, T: Threads + Wait + Sync, G: Gate + Sync>(
    rt: &T,
    alloc: Global,
    config: &'a Config,
    scripts: &'a Scripts,
    ticks: u32,
    turns: u32,
    gate: &G,
) -> Result<SmpRun<'a>, SmpFault>
    requires ticks { ticks ≤ 1000000 }
    requires least { 1 ≤ turns }
    requires most { turns ≤ 1000000 }
    ensures run { IfOk result (λ r. IsSmpRun config.entry.now scripts.entry.now ticks turns r.history.records (map (λ v. v.items) r.receipts.items) r.ended) }
    ensures ticked { IfOk result (λ r. TicksInTurn config.entry.now ticks r.history.records) }
    ensures configured { IfOk result (λ r. r.history.config ≡ config.entry.now) }
{
    let crew = Crew::new(alloc, config.processors())?;
    let (world, seats) = World::boot(alloc, config, scripts, turns)?;
    run_world(
        rt,
        crew,
        Clocked::new(world, config, ticks),
        seats,
        config,
        scripts,
        ticks,
        turns,
        gate,
    )
}

/// The run of a world that was booted for it.
fn run_world<'a, T: Threads + Wait + Sync, G: Gate + Sync>(
    rt: &T,
    crew: Crew,
    clocked: Clocked<'a>,
    seats: Seats,
    config: &'a Config,
    scripts: &'a Scripts,
    ticks: u32,
    turns: u32,
    gate: &G,
) -> Result<SmpRun<'a>, SmpFault>
    ensures run { IfOk result (λ r. IsSmpRun config.entry.now scripts.entry.now ticks turns r.history.records (map (λ v. v.items) r.receipts.items) r.ended) }
    ensures ticked { IfOk result (λ r. TicksInTurn config.entry.now ticks r.history.records) }
    ensures configured { IfOk result (λ r. r.history.config ≡ config.entry.now) }
{
    let Crew {
        parkers,
        unparkers,
        threads,
    } = crew;
    let shared = Shared {
        world: Mutex::new(clocked),
        unparkers,
        over: AtomicBool::new(false),
        gate,
    };
    let seats = run_seats(rt, &shared, seats, parkers, threads);
    finish(
        shared.world.into_inner(),
        seats,
        config,
        scripts,
        ticks,
        turns,
    )
}

/// The run that the world and its seats are, where each thread could be started.
fn finish<'a>(
    clocked: Clocked<'a>,
    seats: Option<Seats>,
    config: &Config,
    scripts: &Scripts,
    ticks: u32,
    turns: u32,
) -> Result<SmpRun<'a>, SmpFault>
    ensures run { IfOk result (λ r. IsSmpRun config.now scripts.now ticks turns r.history.records (map (λ v. v.items) r.receipts.items) r.ended) }
    ensures ticked { IfOk result (λ r. TicksInTurn config.now ticks r.history.records) }
    ensures configured { IfOk result (λ r. r.history.config ≡ config.now) }
{
    match seats {
        Some(seats) => clocked
            .finish(seats, config, scripts, ticks, turns)
            .ok_or(SmpFault::Disagree),
        None => Err(SmpFault::Start),
    }
}

/// What the threads of the processors begin with: a parker for each, what wakes it, and room for their handles.
#[derive(Drop)]
struct Crew {
    parkers: Vec<Parker>,
    unparkers: Vec<Unparker>,
    threads: Vec<JoinHandle<Cpu>>,
}

impl Crew {
    /// A crew for so many processors. The error is want of memory.
    fn new(alloc: Global, processors: u8) -> Result<Crew, AllocError> {
        let (parkers, unparkers) = make_parkers(alloc, processors)?;
        let threads = Vec::with_capacity(alloc, 8)?;
        Ok(Crew {
            parkers,
            unparkers,
            threads,
        })
    }
}

/// A parker for each processor, and what wakes it.
fn make_parkers(alloc: Global, processors: u8) -> Result<(Vec<Parker>, Vec<Unparker>), AllocError>
    ensures parkers { IfOk result (λ made. vec_len made.0 ≡ processors) }
    ensures unparkers { IfOk result (λ made. vec_len made.1 ≡ processors) }
{
    let mut parkers = Vec::with_capacity(alloc, 8)?;
    let mut unparkers = Vec::with_capacity(alloc, 8)?;
    for _ in 0..processors {
        let parker = Parker::new(alloc)?;
        unparkers.push(parker.unparker().clone()?)?;
        parkers.push(parker)?;
    }
    Ok((parkers, unparkers))
}

/// Starts and joins all threads. The seats come back where each of them could be started.
fn run_seats<T: Threads + Wait + Sync, G: Gate + Sync>(
    rt: &T,
    shared: &Shared<'_, '_, G>,
    seats: Seats,
    parkers: Vec<Parker>,
    mut threads: Vec<JoinHandle<Cpu>>,
) -> Option<Seats> {
    let Seats { cpus, clock } = seats;
    let alloc = *cpus.allocator();
    thread::scope(thread::scope_env(), rt, move |scope| {
        let mut started = true;
        let ticking = match scope.spawn(move || run_clock(rt, shared, clock)) {
            Ok(thread) => Some(thread),
            Err(refused) => {
                drop(refused);
                None
            }
        };
        for (cpu, parker) in cpus.into_iter().zip(parkers) {
            match scope.spawn(move || run_cpu(rt, shared, cpu, parker)) {
                Ok(thread) => started = threads.push(thread).is_ok() && started,
                Err(refused) => {
                    drop(refused);
                    started = false;
                }
            }
        }
        if !started || ticking.is_none() {
            shared.end();
        }
        let mut cpus = ArrayVec::new_in(alloc);
        for thread in threads {
            started = cpus.try_push(thread.join(rt)).is_ok() && started;
        }
        let clock = ticking?.join(rt);
        started.then_some(Seats { cpus, clock })
    })
}

/// Takes turns until the run is over. Where there is nothing to do, it sleeps until it is woken.
fn run_cpu<T: Wait, G: Gate>(
    rt: &T,
    shared: &Shared<'_, '_, G>,
    mut cpu: Cpu,
    parker: Parker,
) -> Cpu {
    let p = cpu.processor();
    for _ in rt.forever() {
        if shared.is_over() {
            break;
        }
        shared.gate.before_turn(p);
        let (turn, requested) = shared.turn(rt, &mut cpu);
        shared.gate.between(p);
        match turn {
            Turn::Made(_) => shared.wake_requested(p, &requested),
            Turn::Nothing => parker.park(rt),
            Turn::Full => shared.end(),
        }
    }
    cpu
}

/// Gives the ticks, and then waits until the world is quiet. All processors are woken again and again, so that none sleeps on where
/// a wake-up was lost.
fn run_clock<T: Wait, G: Gate>(rt: &T, shared: &Shared<'_, '_, G>, mut clock: Clock) -> Clock {
    for _ in rt.forever() {
        if shared.is_over() {
            break;
        }
        match shared.tick(rt, &mut clock) {
            Turn::Made(_) => shared.wake_all(),
            Turn::Nothing if shared.is_quiet(rt) => shared.end(),
            Turn::Nothing => shared.wake_all(),
            Turn::Full => shared.end(),
        }
        thread::yield_now();
    }
    clock
}
