//! The state of the machine. Where there is none of a number, a read gives a blank record and a write does nothing.
use crate::counts::Counts;
use crate::due::Due;
use crate::handlers::Handlers;
use crate::resources::Resources;
use crate::tops::Tasks;
use arrayvec::ArrayVec;
use fmp_codes::Pri;
use fmp_rules::Processor;
use std::marker::Model;

/// The state of the plain machine. Contracts see it as the state of the model.
#[derive(Drop)]
pub struct PlainMachine {
    pub(crate) tasks: Tasks,
    pub(crate) waits_left: Counts<64>,
    pub(crate) processors: ArrayVec<Processor, 8>,
    pub(crate) due: ArrayVec<Due, 8>,
    pub(crate) resources: Resources,
    pub(crate) handlers: Handlers,
    /// For each task, when its wait began.
    pub(crate) begun: ArrayVec<u64, 64>,
    pub(crate) next: u64,
    /// The greatest number of queued wakeups.
    pub(crate) most_wakeups: u16,
    /// The greatest priority.
    pub(crate) last_priority: Pri,
}

impl Model for PlainMachine {
    ghost use Rattle.fmp_rules.specs.Arrivals.{State};

    ghost Value = { State };

    ghost view = { λ a. record {
      timer = a.handlers.timer;
      limits = record { wakeups = a.most_wakeups; priorities = a.last_priority.number };
      tasks = a.tasks.records;
      waits_left = a.waits_left;
      processors = a.processors.items;
      due = a.due.items;
      semaphores = a.resources.semaphores.items;
      eventflags = a.resources.eventflags.items;
      data_queues = a.resources.data_queues.setups;
      contents = a.resources.data_queues.contents;
      pools = a.resources.pools.items;
      cyclics = a.handlers.cyclics.items;
      cyclics_left = a.handlers.cyclics_left;
      alarms = a.handlers.alarms.items;
      alarms_left = a.handlers.alarms_left;
      holders = a.resources.holders.items;
      order = record { ready = a.tasks.ready; begun = a.begun.items; next = a.next };
    } };
}
