//! The drawing of an order: who makes its next event, and what that is.
ghost use Rattle.std.specs.Prelude.{◌≡◌, ◌≤◌, ◌<◌, ◌+◌, IfOk, length};
ghost use Rattle.fmp_search_random.specs.Drawn as spec;
ghost use Rattle.fmp_search_random.specs.Drawn.{IsDrawn};

use arrayvec::ArrayVec;
use fmp_codes::Event;
use fmp_ranges::{Limits, Ticks};
use fmp_rules::Config;
use fmp_search_kernel::Walker;
use fmp_search_orders::Rules;
use fmp_search_pattern::Question;
use fmp_text_scripts::Scripts;
use rand_core::SeedableRng;
use rand_core::utils::NextWord;
use rand_xoshiro::SplitMix64;
use std::alloc::{AllocError, Global};

/// From which of all orders one is drawn, and how.
#[derive(Clone, Copy)]
pub struct Drawing {
    /// Whether the interrupt of a pending request is one choice among others. Without it a request is taken before its processor's next
    /// call.
    pub late: bool,
    /// Whether a processor stands still for a while now and then.
    pub stalls: bool,
}

impl Drawing {
    ghost use Rattle.std.specs.Prelude.{◌≡◌};
    ghost use Rattle.fmp_search_random.specs.Drawn as spec;

    /// The rules of the orders of which one is drawn.
    pub fn rules(self, ticks: Ticks) -> Rules
        ensures { result ≡ spec.rules_of self ticks.count }
    {
        Rules {
            ticks: Some(ticks.count),
            prompt: !self.late,
            drift: None,
            pace: None,
            spurious: false,
        }
    }
}

/// An order that was drawn.
#[derive(Drop)]
pub struct DrawnOrder {
    /// Its events, the first one first.
    pub events: Vec<Event>,
    /// Whether nothing may happen after them.
    pub is_quiet: bool,
}

/// A processor that stands still.
#[derive(Clone, Copy)]
pub struct Stall {
    /// Which one, counted from 0.
    pub processor: u8,
    /// For how many events, this one among them.
    pub left: u8,
}

/// The numbers of a seed, and the processor that stands still.
#[derive(Drop)]
struct Draws {
    numbers: SplitMix64,
    stalls: bool,
    stall: Stall,
}

/// Who stands still at the next event, by its first number.
fn stall_after(stalls: bool, processors: u8, number: u64, stall: Stall) -> Stall
    requires { 1 ≤ processors }
    ensures { result ≡ spec.stall_after stalls processors number stall }
{
    if stall.left > 1 {
        return Stall {
            processor: stall.processor,
            left: stall.left - 1,
        };
    }
    if stalls && number % 32 == 0 {
        return Stall {
            processor: (number / 32 % u64::from(processors)) as u8,
            left: (number / 4096 % 128) as u8 + 1,
        };
    }
    Stall {
        processor: stall.processor,
        left: 0,
    }
}

/// Whether a step is one of the processor that stands still.
fn is_still(stall: Stall, step: u8) -> bool
    ensures { result ≡ spec.is_still stall step }
{
    stall.left > 0 && step / 6 == stall.processor
}

/// The step of a number, of those without a mark.
fn unmarked(at: u8) -> u8
    requires { at < 24 }
    ensures { result ≡ spec.unmarked at }
{
    at / 3 * 6 + at % 3
}

/// The steps whose events may happen next, processor by processor: its call, its interrupt, its tick.
#[tactic(auto, unfolding(crate::specs::Drawn::choices_of))]
fn choices(alloc: Global, walker: &Walker<'_>) -> ArrayVec<u8, 24, Global>
    ensures { result.items ≡ spec.choices walker.now.place }
{
    let mut steps = ArrayVec::new_in(alloc);
    for at in 0..24u8 {
        let step = unmarked(at);
        if walker.event_of(step).is_some() {
            steps.push(step);
        }
    }
    steps
}

/// Those of the steps whose processor does not stand still.
#[tactic(auto, unfolding(crate::specs::Drawn::awake))]
fn awake(alloc: Global, stall: Stall, steps: &[u8]) -> ArrayVec<u8, 24, Global>
    requires { length steps.now ≤ 24 }
    ensures { result.items ≡ spec.awake stall steps.now }
{
    let mut others = ArrayVec::new_in(alloc);
    for step in steps {
        if !is_still(stall, *step) {
            others.push(*step);
        }
    }
    others
}

/// One of these, at the place that a number gives modulo their count, if there are any.
#[tactic(auto, unfolding(crate::specs::Drawn::drawn))]
fn drawn(steps: &[u8], number: u64) -> Option<u8>
    ensures { result ≡ spec.drawn steps.now number }
{
    if steps.is_empty() {
        return None;
    }
    let place = number % steps.len() as u64;
    steps.get(place as usize).copied()
}

/// One of the steps whose processor does not stand still, or where there is none, one of all.
fn drawn_awake(alloc: Global, stall: Stall, steps: &[u8], number: u64) -> Option<u8>
    requires { length steps.now ≤ 24 }
    ensures { result ≡ spec.drawn (spec.offered stall steps.now) number }
{
    let others = awake(alloc, stall, steps);
    if others.is_empty() {
        drawn(steps, number)
    } else {
        drawn(others.as_slice(), number)
    }
}

impl Draws {
    /// The numbers of a seed, where nobody stands still.
    fn new(stalls: bool, seed: u64) -> Draws
        ensures { result ≡ spec.first stalls seed }
    {
        Draws {
            numbers: SplitMix64::seed_from_u64(seed),
            stalls,
            stall: Stall {
                processor: 0,
                left: 0,
            },
        }
    }

    /// The next step, if one can be made. It takes two numbers.
    fn next_step(&mut self, alloc: Global, processors: u8, walker: &Walker<'_>) -> Option<u8>
        requires least { 1 ≤ processors }
        requires same { processors ≡ walker.now.place.config.processors }
        ensures drawn { result ≡ spec.next_step self.old walker.now.place }
        ensures after { self.new ≡ spec.after_step self.old walker.now.place }
    {
        let number = self.numbers.next_word();
        self.stall = stall_after(self.stalls, processors, number, self.stall);
        let steps = choices(alloc, walker);
        let number = self.numbers.next_word();
        drawn_awake(alloc, self.stall, steps.as_slice(), number)
    }
}

/// The next event, which happens, unless there were as many as there may be.
fn go_on(
    alloc: Global,
    processors: u8,
    walker: &mut Walker<'_>,
    draws: &mut Draws,
    left: u32,
) -> Option<Event>
    requires least { 1 ≤ processors }
    requires same { processors ≡ walker.old.place.config.processors }
    requires room { left ≤ walker.old.left }
    ensures goes { spec.GoesOn walker.old.place draws.old left result walker.new.place draws.new }
    ensures room { walker.old.left ≤ walker.new.left + 1 }
{
    if left == 0 {
        return None;
    }
    let Some(step) = draws.next_step(alloc, processors, walker) else {
        return None;
    };
    walker.follow(step)
}

/// Draws one of all orders by the numbers of a seed: the same seed gives the same order.
///
/// Before each event those are listed that may happen: processor by processor the next call in the script of its due handler or else of its
/// running task, the interrupt that takes a pending request, and a tick. Two numbers of SplitMix64 from the seed belong to each event. The
/// first says, where processors may stand still and none does, whether one begins to: if it is a multiple of 32, the processor of its
/// next bits, for up to 128 events. The second, modulo how many events are left without those of a processor that stands still, is the place
/// of the one that happens, from 0; where that leaves none, all are taken.
///
/// The order ends where nothing may happen, or with as many events as `limits` say. The error is want of memory, and there is no other.
pub fn draw_order(
    alloc: Global,
    config: &Config,
    scripts: &Scripts,
    drawing: Drawing,
    limits: Limits,
    seed: u64,
) -> Result<DrawnOrder, AllocError>
    ensures { IfOk result (λ d. IsDrawn drawing seed config.now scripts.now limits.ticks.count limits.turns.count d.events.items d.is_quiet) }
{
    let processors = config.processors();
    let question = Question::new(Vec::new(alloc));
    let mut walker = Walker::new(config, scripts, drawing.rules(limits.ticks), &question)?;
    walker.start_over()?;
    let mut draws = Draws::new(drawing.stalls, seed);
    let mut events = Vec::new(alloc);
    let mut left = limits.turns.count;
    while let Some(event) = go_on(alloc, processors, &mut walker, &mut draws, left) {
        events.push(event)?;
        left -= 1;
    }
    let is_quiet = choices(alloc, &walker).is_empty();
    Ok(DrawnOrder { events, is_quiet })
}
