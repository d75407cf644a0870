//! The objects for which tasks wait, and the spin locks.
use crate::data_queues::DataQueues;
use crate::kept::{copies, each};
use arrayvec::ArrayVec;
use fmp_codes::Proc;
use fmp_rules::{Config, Eventflag, Pool, Semaphore};
use std::alloc::AllocError;

/// The objects for which tasks wait, and who holds the spin locks, each kind in the order of its numbers.
#[derive(Drop)]
pub(crate) struct Resources {
    pub(crate) semaphores: ArrayVec<Semaphore, 32>,
    pub(crate) eventflags: ArrayVec<Eventflag, 32>,
    pub(crate) data_queues: DataQueues,
    pub(crate) pools: ArrayVec<Pool, 32>,
    pub(crate) holders: ArrayVec<Option<Proc>, 32>,
}

impl Resources {
    ghost use Rattle.std.specs.Prelude.{◌≡◌, IfOk, None, map, replicate, false, []};

    /// Those of a configuration.
    pub(crate) fn of(config: &Config) -> Result<Resources, AllocError>
        ensures semaphores { IfOk result (λ r. r.semaphores.items ≡ map (λ s. record { setup = s; count = s.initial }) config.now.semaphores) }
        ensures eventflags { IfOk result (λ r. r.eventflags.items ≡ map (λ s. record { setup = s; pattern = s.initial }) config.now.eventflags) }
        ensures setups { IfOk result (λ r. r.data_queues.setups ≡ config.now.data_queues) }
        ensures contents { IfOk result (λ r. r.data_queues.contents ≡ map (λ s. []) config.now.data_queues) }
        ensures pools { IfOk result (λ r. r.pools.items ≡ map (λ s. record { setup = s; handed = replicate 64 false }) config.now.pools) }
        ensures holders { IfOk result (λ r. r.holders.items ≡ replicate config.now.spin_locks None) }
    {
        Ok(Resources {
            semaphores: each(config.semaphores()),
            eventflags: each(config.eventflags()),
            data_queues: DataQueues::new(config.allocator(), config.data_queues())?,
            pools: each(config.pools()),
            holders: copies(usize::from(config.spin_locks()), None),
        })
    }
}
