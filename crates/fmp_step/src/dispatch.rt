//! The end of an event: which processors run another task or are sent a request.
ghost use Rattle.std.specs.Prelude.{◌≡◌, ◌≤◌, IsTrue, [], length};
ghost use Rattle.fmp_rules.specs.Step.{is_same, is_requested, requests, latched, dispatched, settle, changed_run};

use fmp_codes::{Proc, Requests, Task};
use fmp_rules::Processor;
use fmp_step_words::{Overview, Tops, Words, is_held};

/// Whether both are the same task, or neither is one.
fn is_same(a: Option<Task>, b: Option<Task>) -> bool
    ensures { result ≡ is_same a b }
{
    match (a, b) {
        (None, None) => true,
        (None, Some(_)) => false,
        (Some(_), None) => false,
        (Some(a), Some(b)) => a.number == b.number,
    }
}

/// The task that runs now, where that is another than before.
pub(crate) fn changed_run(before: Option<Task>, after: Option<Task>) -> Option<Option<Task>>
    ensures { result ≡ changed_run before after }
{
    if is_same(before, after) {
        None
    } else {
        Some(after)
    }
}

/// Whether an event on q sends p a request: p is another processor, and its top is not what it was before.
fn is_requested<M: Words>(machine: &M, before: &Tops, q: Proc, p: Proc) -> bool
    ensures { result ≡ is_requested M.ordering before.now (M.world machine.now) q p }
{
    p.number != q.number && !is_same(before.of(p), machine.top(p))
}

/// Makes a list have the processors to which an event on q sends a request. It has none before.
#[inline(never)]
fn add_requests<M: Words>(machine: &M, before: &Tops, q: Proc, sent: &mut Requests)
    requires { sent.old ≡ [] }
    ensures { sent.new ≡ requests M.ordering before.now (M.world machine.now) q }
{
    for index in 0..machine.processor_count() {
        let p = Proc::from_index(index);
        if is_requested(machine, before, q, p) {
            sent.push(p);
        }
    }
}

/// Sets the latches of these processors.
#[inline(never)]
fn latch<M: Words>(machine: &mut M, processors: &[Proc])
    ensures state { M.world machine.new ≡ latched (M.world machine.old) processors.now }
    ensures room { M.room machine.new ≡ M.room machine.old }
{
    for p in processors {
        let processor = machine.processor(*p);
        machine.set_processor(
            *p,
            Processor {
                latch: true,
                ..processor
            },
        );
    }
}

/// Whether a processor runs its top, and no request to it is pending, so that dispatching would change nothing.
#[inline(always)]
#[tactic(auto, using(crate::proofs::Dispatched::dispatched_same, crate::proofs::Dispatched::same_tasks))]
pub(crate) fn is_settled<M: Words>(machine: &M, q: Proc) -> bool
    ensures settled { let w = M.world machine.now in IsTrue result → dispatched M.ordering w q ≡ w }
    ensures few { length (M.world machine.now).processors ≤ 8 }
{
    let processor = machine.processor(q);
    q.index() < machine.processor_count()
        && !processor.latch
        && is_same(processor.running, machine.top(q))
}

/// Lets a processor that is not held run its top. In TOPPERS/FMP: dispatch, where p_runtsk becomes p_schedtsk.
fn dispatch<M: Words>(machine: &mut M, q: Proc)
    ensures state { M.world machine.new ≡ dispatched M.ordering (M.world machine.old) q }
    ensures room { M.room machine.new ≡ M.room machine.old }
{
    if !is_held(machine, q) {
        let processor = machine.processor(q);
        let running = machine.top(q);
        machine.set_processor(
            q,
            Processor {
                running,
                latch: false,
                ..processor
            },
        );
    }
}

/// Makes a list have the processors to which an event on q sends a request, and sets their latches: none, where the tops are
/// those before, as after most events.
#[inline(always)]
fn request<M: Overview>(machine: &mut M, before: &Tops, q: Proc, sent: &mut Requests)
    ensures state { let w = M.world machine.old in M.world machine.new ≡ latched w (requests M.ordering before.now w q) }
    ensures requests { sent.new ≡ requests M.ordering before.now (M.world machine.old) q }
    ensures room { M.room machine.new ≡ M.room machine.old }
{
    *sent = Requests::new();
    if !before.is_same(&machine.tops()) {
        add_requests(machine, before, q, sent);
        latch(machine, sent.as_slice());
    }
}

/// Ends an event on q, where these were the tops before it, and tells to which processors it sends a request.
#[inline(always)]
pub(crate) fn settle<M: Overview>(machine: &mut M, before: &Tops, q: Proc, sent: &mut Requests)
    ensures state { M.world machine.new ≡ settle M.ordering before.now (M.world machine.old) q }
    ensures requests { sent.new ≡ requests M.ordering before.now (M.world machine.old) q }
    ensures room { M.room machine.new ≡ M.room machine.old }
{
    request(machine, before, q, sent);
    dispatch(machine, q);
}
