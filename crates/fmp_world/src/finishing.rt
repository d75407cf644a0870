//! The judge of a run: what came back from those that took turns is compared with the history, once.
ghost use Rattle.std.specs.Prelude.{◌≡◌, ◌+◌, ◌≤◌, ◌<◌, ◌^◌, ◌↔◌, ◌++◌, ◌∷◌, [], ℕ, List, length, map, IsTrue, IsSome, IfSome, Some, None, nat_lt, ◌&&◌, if◌then◌else◌};
ghost use Rattle.std.specs.Prelude.{◌⊎◌, slice_index};
ghost use Rattle.fmp_codes.specs.declared.records.Record.{Record};
ghost use Rattle.fmp_setup.specs.Setup.{has_time};
ghost use Rattle.fmp_world.specs.Views.{Seat};
ghost use Rattle.fmp_world.specs.Turns.{is_full, opening};
ghost use Rattle.fmp_world.specs.Ends.{EndsQuiet, TicksWithin, TicksAre, IsWhole, IsSmpRun};
ghost use Rattle.fmp_world.specs.Findings.{AreTaken};
ghost use Rattle.fmp_world.specs.Kept.{IsKnown};

use crate::findings::Findings;
use crate::history::History;
use crate::seats::{Receipt, Seats};
use crate::world::World;
use arrayvec::ArrayVec;
use fmp_codes::Proc;
use fmp_rules::{Config, Timer};
use fmp_text_scripts::Scripts;
use std::alloc::Global;

/// How a run ended.
#[derive(Clone, Copy, PartialEq, Eq, Debug)]
pub enum Ended {
    /// No handler is due, no task runs, no request is pending, and all ticks are taken; the history may be full.
    Quiet,
    /// The history is full.
    Limit,
}

/// A run, with the receipts of each processor and of the clock, which comes last.
#[derive(Drop)]
pub struct SmpRun<'a> {
    pub history: History<'a>,
    pub receipts: ArrayVec<Vec<Receipt>, 9, Global>,
    pub ended: Ended,
}

impl<'a> World<'a> {
    /// Judges a run of a configuration and scripts, with so many ticks for each processor whose ticks count and room for so many
    /// turns. It takes no memory.
    ///
    /// None says that it is not such a run, or not a whole one: the world is of another configuration, other scripts or another
    /// number of turns, the seats are not those of its processors in order, a seat has not exactly its receipts, a processor
    /// took more ticks than that, or the history is neither full nor quiet with all ticks taken.
    pub fn finish(
        self,
        seats: Seats,
        config: &Config,
        scripts: &Scripts,
        ticks: u32,
        turns: u32,
    ) -> Option<SmpRun<'a>>
        ensures whole { IsSome result ↔ IsWhole self.entry seats.cpus.items seats.clock config.now scripts.now ticks turns }
        ensures run { IfSome result (λ r. IsSmpRun config.now scripts.now ticks turns r.history.records (map (λ v. v.items) r.receipts.items) r.ended) }
        ensures history { IfSome result (λ r. r.history ≡ self.entry) }
        ensures configured { IfSome result (λ r. r.history.config ≡ config.now) }
    {
        let history = self.history;
        let ended = history.judge(self.spare, &seats, config, scripts, ticks, turns)?;
        Some(SmpRun {
            history,
            receipts: receipts_of(seats),
            ended,
        })
    }
}

impl<'a> History<'a> {
    /// How a run ended, if it is whole. Its records are made again on a second history.
    fn judge(
        &self,
        spare: History<'a>,
        seats: &Seats,
        config: &Config,
        scripts: &Scripts,
        ticks: u32,
        turns: u32,
    ) -> Option<Ended>
        requires { spare ≡ opening self.now.config self.now.scripts self.now.turns }
        ensures whole { IsSome result ↔ IsWhole self.now seats.now.cpus.items seats.now.clock config.now scripts.now ticks turns }
        ensures quiet { IfSome result (λ e. (e ≡ Ended.Quiet) ↔ EndsQuiet self.now.config ticks self.now.records) }
        ensures known { IsKnown self.now }
    {
        // (what is known of its records)
        let _count = self.count();
        if !self.is_of(config, scripts, turns) {
            return None;
        }
        let found = Findings::of(self.replay_on(spare), seats);
        if !found.fit(seats, self.processors()) {
            return None;
        }
        self.ended(&found.taken, ticks)
    }

    /// How the history ended, if no processor took too many ticks and it is whole.
    fn ended(&self, taken: &[u32; 8], ticks: u32) -> Option<Ended>
        requires { AreTaken taken.now self.now.records }
        ensures whole { IsSome result ↔ (TicksWithin (self.now.config.processors) ticks self.now.records
            × (EndsQuiet self.now.config ticks self.now.records ⊎ (self.now.turns ≤ length self.now.records))) }
        ensures quiet { IfSome result (λ e. (e ≡ Ended.Quiet) ↔ EndsQuiet self.now.config ticks self.now.records) }
    {
        let Some(all) = all_taken(taken, self.timer(), self.processors(), ticks) else {
            return None;
        };
        if !all {
            return self.limit();
        }
        if self.quiet() {
            return Some(Ended::Quiet);
        }
        self.limit()
    }

    /// That the history is full, if it is.
    fn limit(&self) -> Option<Ended>
        ensures { result ≡ (if is_full self.now then Some Ended.Limit else None) }
    {
        if self.is_full() {
            Some(Ended::Limit)
        } else {
            None
        }
    }
}

/// Whether the ticks of a processor count.
fn has_time(timer: Timer, p: Proc) -> bool
    ensures { result ≡ has_time timer p }
{
    match timer {
        Timer::Local => true,
        Timer::Global(master) => p.number == master.number,
    }
}

/// Whether a processor that took so many ticks is to take more.
fn owes(timer: Timer, p: Proc, taken: u32, ticks: u32) -> bool
    ensures { result ≡ has_time timer p && nat_lt taken ticks }
{
    has_time(timer, p) && taken < ticks
}

/// Whether each processor whose ticks count took all of them. None where a processor took more.
fn all_taken(counts: &[u32; 8], timer: Timer, processors: u8, ticks: u32) -> Option<bool>
    requires { processors ≤ 8 }
    ensures within { (h : List Record) → AreTaken counts.now h → (IsSome result ↔ TicksWithin processors ticks h) }
    ensures all { (h : List Record) → AreTaken counts.now h → IfSome result (λ a. IsTrue a ↔ TicksAre timer processors ticks h) }
{
    let mut all = true;
    for at in 0..processors {
        let taken = counts[usize::from(at)];
        if taken > ticks {
            return None;
        }
        if owes(timer, Proc::new(at + 1), taken, ticks) {
            all = false;
        }
    }
    Some(all)
}

/// The receipts of the processors, and then the clock's.
fn receipts_of(seats: Seats) -> ArrayVec<Vec<Receipt>, 9, Global>
    requires { length seats.cpus.items ≤ 8 }
    ensures { map (λ v. v.items) result.items ≡ map (λ (s : Seat). s.receipts) seats.cpus.items ++ seats.clock.receipts ∷ [] }
{
    let Seats { cpus, clock } = seats;
    let mut receipts = ArrayVec::new_in(*cpus.allocator());
    for cpu in cpus {
        receipts.push(cpu.into_receipts());
    }
    receipts.push(clock.into_receipts());
    receipts
}
