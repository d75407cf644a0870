//! The machine before any task is started.
ghost use Rattle.std.specs.Prelude.{◌≡◌, ◌≤◌, [], IfOk, replicate};
ghost use Rattle.fmp_rules.specs.Boot.{blank, unnumbered};

use crate::counts::Counts;
use crate::due::Due;
use crate::handlers::Handlers;
use crate::kept::{copies, each};
use crate::machine::PlainMachine;
use crate::resources::Resources;
use crate::tops::Tasks;
use arrayvec::ArrayVec;
use fmp_codes::Pri;
use fmp_rules::{Config, Processor};
use std::alloc::AllocError;

/// For so many processors, that no handler is due.
fn nothing_due(count: u8) -> ArrayVec<Due, 8>
    requires { count ≤ 8 }
    ensures { result.items ≡ replicate count [] }
{
    let mut due = ArrayVec::new();
    for _index in 0..count {
        due.push(Due::default());
    }
    due
}

impl PlainMachine {
    /// The machine of a configuration, on which every task is dormant and no processor runs one. It takes all the memory
    /// that it will ever need, or fails where there is not enough.
    pub fn blank(config: &Config) -> Result<PlainMachine, AllocError>
        ensures { IfOk result (λ m. m ≡ blank (unnumbered config.now) config.now) }
    {
        let resources = Resources::of(config)?;
        let limits = config.limits();
        Ok(PlainMachine {
            tasks: Tasks::of(config.tasks()),
            waits_left: Counts::new(each(config.tasks())),
            processors: copies(usize::from(config.processors()), Processor::default()),
            due: nothing_due(config.processors()),
            resources,
            handlers: Handlers::of(config),
            begun: each(config.tasks()),
            next: 0,
            most_wakeups: limits.wakeups,
            last_priority: Pri::new(limits.priorities),
        })
    }
}
