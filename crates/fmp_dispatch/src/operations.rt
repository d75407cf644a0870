//! The operations on one processor, which the kernel does not call: a call's rule stands in `fmp_rules/specs`. They are
//! this part's own surface.
ghost use Rattle.std.specs.Prelude.{◌≡◌, false, true};
ghost use Rattle.fmp_rules.specs.Step.{changed_run};
ghost use Rattle.fmp_dispatch.specs.Dispatching.{processor_in, with_processor_in, with_disabled_in, with_latch_in, is_held_in, dispatched_to};

use crate::dispatch::Dispatch;
use fmp_codes::{Proc, Task};
use fmp_rules::Processor;

impl Dispatch {
    /// The task that a processor runs.
    pub fn running(&self, p: Proc) -> Option<Task>
        ensures { result ≡ (processor_in self.now p).running }
    {
        self.processor(p).running
    }

    /// Whether a request to a processor is pending.
    pub fn pending(&self, p: Proc) -> bool
        ensures { result ≡ (processor_in self.now p).latch }
    {
        self.processor(p).latch
    }

    /// Whether dispatching on a processor is held.
    pub fn held(&self, p: Proc) -> bool
        ensures { result ≡ is_held_in self.now p }
    {
        let processor = self.processor(p);
        self.handler(p).is_some() || processor.locked || processor.disabled
    }

    /// Disables dispatching on a processor.
    pub fn disable(&mut self, p: Proc)
        ensures { self.new ≡ with_disabled_in self.old p true }
    {
        let processor = self.processor(p);
        self.set_processor(
            p,
            Processor {
                disabled: true,
                ..processor
            },
        );
    }

    /// Enables dispatching on a processor.
    pub fn enable(&mut self, p: Proc)
        ensures { self.new ≡ with_disabled_in self.old p false }
    {
        let processor = self.processor(p);
        self.set_processor(
            p,
            Processor {
                disabled: false,
                ..processor
            },
        );
    }

    /// Sends a processor a request, which is pending until it dispatches.
    pub fn request(&mut self, p: Proc)
        ensures { self.new ≡ with_latch_in self.old p true }
    {
        let processor = self.processor(p);
        self.set_processor(
            p,
            Processor {
                latch: true,
                ..processor
            },
        );
    }

    /// Lets a processor that is not held run this task or none, and takes its request. Tells what it runs now, where that is
    /// another than before.
    pub fn settle(&mut self, p: Proc, top: Option<Task>) -> Option<Option<Task>>
        ensures state { self.new ≡ dispatched_to self.old p top }
        ensures change { result ≡ changed_run (processor_in self.old p).running (processor_in self.new p).running }
    {
        let before = self.running(p);
        if !self.held(p) {
            self.run(p, top);
        }
        changed_run(before, self.running(p))
    }

    /// Lets a processor run this task or none, and takes its request.
    fn run(&mut self, p: Proc, top: Option<Task>)
        ensures { self.new ≡ with_processor_in self.old p (record (processor_in self.old p) { running = top; latch = false }) }
    {
        let processor = self.processor(p);
        self.set_processor(
            p,
            Processor {
                running: top,
                latch: false,
                ..processor
            },
        );
    }
}

/// What runs now, where that is another than before.
fn changed_run(before: Option<Task>, after: Option<Task>) -> Option<Option<Task>>
    ensures { result ≡ changed_run before after }
{
    match (before, after) {
        (None, None) => None,
        (Some(a), Some(b)) if a.number == b.number => None,
        _ => Some(after),
    }
}
