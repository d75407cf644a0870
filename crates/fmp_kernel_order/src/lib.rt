//! The kernel's way to keep what came before what: by lists.
//!
//! `specs/Queues.antt` has it, in the words of the kernel's parts: a ready queue for each processor and priority
//! (`fmp_ready`), a wait queue for each object, of which a data queue has two (`fmp_waitq`), and the tasks whose waits have
//! ticks left, in the order in which these waits began (`fmp_time`). It says the same as the model's numbers
//! (`fmp_rules/specs/Arrivals.antt`), which is shown in `fmp_law_lists`. There is no code here.
#![tactic(auto)]
