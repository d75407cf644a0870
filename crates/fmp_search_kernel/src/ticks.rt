//! Which ticks there may be.
ghost use Rattle.std.specs.Prelude.{◌≡◌, ◌<◌, ◌+◌, ◌-◌, ◌^◌, ℕ, map, slice_index};
ghost use Rattle.fmp_setup.specs.Setup.{has_time};
ghost use Rattle.fmp_search_orders.specs.Orders as orders;
ghost use Rattle.fmp_search_orders.specs.Places as places;
ghost use Rattle.fmp_search_orders.specs.Sights.{is_out_of_time};
ghost use Rattle.fmp_search_kernel.specs.Walked.{count_in, is_beside, is_out, is_ticked};

use fmp_codes::{Answer, Event, Proc, Record};
use fmp_rules::{Config, Timer};
use fmp_search_orders::Rules;
use fmp_smp_histories::is_taken;

/// Whether the ticks of a processor count.
pub(crate) fn has_time(timer: Timer, p: Proc) -> bool
    ensures { result ≡ has_time timer p }
{
    match timer {
        Timer::Local => true,
        Timer::Global(master) => p.number == master.number,
    }
}

/// Whether ticks are counted.
pub(crate) fn counts_ticks(rules: Rules) -> bool
    ensures { result ≡ orders.counts_ticks rules }
{
    rules.ticks.is_some() || rules.drift.is_some()
}

/// Whether one who has taken so many ticks may take another.
fn is_left(most: Option<u32>, count: u32) -> bool
    ensures { result ≡ orders.is_left most count }
{
    match most {
        None => true,
        Some(most) => count < most,
    }
}

/// Whether one tick more than so many is not too many beside what a processor has taken, if its ticks count.
fn is_beside(config: &Config, drift: u32, taken: &[u32; 8], count: u32, q: Proc) -> bool
    ensures { result ≡ is_beside config.now drift taken.now count q }
{
    !has_time(config.timer(), q)
        || u64::from(count) < u64::from(taken[q.index()]) + u64::from(drift)
}

/// Whether one tick more is not too many beside what each other processor has taken whose ticks count.
fn is_near(config: &Config, drift: Option<u32>, taken: &[u32; 8], count: u32) -> bool
    ensures { result ≡ orders.is_near config.now drift (count_in taken.now) count }
{
    let Some(drift) = drift else {
        return true;
    };
    for at in 0..config.processors() {
        let q = Proc::new(at + 1);
        if !is_beside(config, drift, taken, count, q) {
            return false;
        }
    }
    true
}

/// Whether a processor may take a tick.
pub(crate) fn may_tick(config: &Config, rules: Rules, taken: &[u32; 8], p: Proc) -> bool
    ensures { result ≡ orders.may_tick config.now rules (count_in taken.now) p }
{
    let count = taken[p.index()];
    has_time(config.timer(), p)
        && is_left(rules.ticks, count)
        && is_near(config, rules.drift, taken, count)
}

/// Counts the tick of a record, if it was taken and ticks are counted.
pub fn advance_taken(rules: Rules, taken: &mut [u32; 8], made: &Record)
    requires { (i : ℕ) → i < 8 → slice_index taken.old i + 1 < 2 ^ 32 }
    ensures { taken.new ≡ places.moved_taken rules taken.old made.now.event made.now.answer }
{
    let Event::Tick(p) = made.event else {
        return;
    };
    if counts_ticks(rules) && is_taken(made.answer) {
        taken[p.index()] += 1;
    }
}

/// Whether a processor has taken a tick, or its ticks do not count.
fn is_ticked(config: &Config, taken: &[u32; 8], q: Proc) -> bool
    ensures { result ≡ is_ticked config.now taken.now q }
{
    !has_time(config.timer(), q) || 0 < taken[q.index()]
}

/// Whether each processor whose ticks count has taken one.
fn all_ticked(config: &Config, taken: &[u32; 8]) -> bool
    ensures { result ≡ orders.each (is_ticked config.now taken.now) config.now.processors }
{
    for at in 0..config.processors() {
        if !is_ticked(config, taken, Proc::new(at + 1)) {
            return false;
        }
    }
    true
}

/// One less, or none of none.
fn one_less(count: u32) -> u32
    ensures { result ≡ count - 1 }
{
    count.saturating_sub(1)
}

/// Takes one from each count.
fn take_one(taken: &mut [u32; 8])
    ensures { taken.new ≡ map (λ n. n - 1) taken.old }
{
    for count in taken.iter_mut() {
        *count = one_less(*count);
    }
}

/// Keeps only the differences of the counts, where the number of ticks is not limited: so there are finitely many of them.
pub(crate) fn lower_taken(config: &Config, rules: Rules, taken: &mut [u32; 8])
    ensures { taken.new ≡ places.lowered config.now rules taken.old }
{
    if rules.ticks.is_none() && all_ticked(config, taken) {
        take_one(taken);
    }
}

/// Whether another tick is not too many before a busy processor does something, where it has taken so many since it did.
pub(crate) fn keeps_pace(pace: Option<u32>, busy: bool, idled: u32) -> bool
    ensures { result ≡ orders.keeps_pace pace busy idled }
{
    match pace {
        None => true,
        Some(most) => !busy || idled < most,
    }
}

/// What an event makes of that number of its processor, which was busy before it or was not.
fn idled_next(busy: bool, event: Event, answer: Answer, idled: u32) -> u32
    requires { idled + 1 < 2 ^ 32 }
    ensures { result ≡ orders.idled_next busy event answer idled }
{
    match event {
        Event::Call(_, _) => 0,
        Event::Tick(_) if !is_taken(answer) => idled,
        Event::Tick(_) if busy => idled + 1,
        Event::Tick(_) => 0,
        Event::Ipi(_) if is_taken(answer) => 0,
        Event::Ipi(_) => idled,
    }
}

/// Counts so the event of a record, if a rule asks for it.
pub(crate) fn advance_idled(rules: Rules, busy: bool, idled: &mut [u32; 8], made: &Record)
    requires { (i : ℕ) → i < 8 → slice_index idled.old i + 1 < 2 ^ 32 }
    ensures { idled.new ≡ places.moved_idled rules busy idled.old made.now }
{
    if rules.pace.is_none() {
        return;
    }
    let at = made.event.processor().index();
    idled[at] = idled_next(busy, made.event, made.answer, idled[at]);
}

/// Whether the ticks of a processor do not count, or it may take none any more.
fn is_out(config: &Config, rules: Rules, taken: &[u32; 8], p: Proc) -> bool
    ensures { result ≡ is_out config.now rules taken.now p }
{
    !(has_time(config.timer(), p) && is_left(rules.ticks, taken[p.index()]))
}

/// Whether no processor may take a tick that counts.
pub(crate) fn is_out_of_time(config: &Config, rules: Rules, taken: &[u32; 8]) -> bool
    ensures { result ≡ is_out_of_time config.now rules (count_in taken.now) }
{
    for at in 0..config.processors() {
        if !is_out(config, rules, taken, Proc::new(at + 1)) {
            return false;
        }
    }
    true
}
