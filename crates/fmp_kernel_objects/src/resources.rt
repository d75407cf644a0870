//! All objects for which tasks wait.
ghost use Rattle.std.specs.Prelude.{◌≡◌, ◌≤◌, ◌<◌, ◌≤ℤ◌, ◌++◌, ◌∷◌, [], pos, not, length, map, take, slice_get, slice_set, IfOk, IsTrue, ◌↔◌};
ghost use Rattle.std.specs.List.{position};
ghost use Rattle.fmp_rules.specs.Objects.{blank_semaphore, blank_eventflag, no_data_queue, blank_pool};
ghost use Rattle.fmp_rules.specs.World.{first, rest, item, with_item};
ghost use Rattle.fmp_waitq.specs.Queue.{task_of, left_by, joined_by, waiter_of};
ghost use Rattle.fmp_interned.specs.Parts.{AreNumbersOf, HasNumbers};
ghost use Rattle.fmp_kernel_order.specs.Queues.{queue, place_of, place_in, changed};
ghost use Rattle.fmp_kernel_objects.specs.Rows.{semaphores_in, eventflags_in, queues_in, pools_in};
ghost use Rattle.fmp_kernel_objects.specs.Kinds.{is_handed_in};
ghost use Rattle.fmp_kernel_objects.specs.Objects.{blank_objects, order_for, AreAlike};

use crate::kinds::{Receivers, Senders, Waiters};
use crate::objects::Objects;
use arrayvec::ArrayVec;
use fmp_codes::{Object, Pri, Task};
use fmp_dtq::Dtq;
use fmp_flag::Flag;
use fmp_interned::Interned;
use fmp_kernel_parts::Part;
use fmp_mpf::Mpf;
use fmp_rules::{Config, DataQueueSetup, Eventflag, Order, Pool, QueueKind, Semaphore, Wait};
use fmp_sem::Sem;
use std::alloc::AllocError;
use std::marker::Model;

/// All objects for which tasks wait, each with the tasks that do.
#[derive(Drop)]
pub struct Resources {
    semaphores: Objects<Sem>,
    eventflags: Objects<Flag>,
    data_queues: Objects<Dtq>,
    pools: Objects<Mpf>,
}

impl Model for Resources {
    ghost use Rattle.std.specs.Prelude.{map};
    ghost use Rattle.fmp_kernel_objects.specs.Objects.{AllObjects};

    ghost Value = { AllObjects };

    ghost view = { λ a. record {
      semaphores = map (λ s. s.semaphore) a.semaphores;
      eventflags = map (λ f. f.eventflag) a.eventflags;
      data_queues = map (λ q. q.setup) a.data_queues;
      contents = map (λ q. q.values) a.data_queues;
      pools = map (λ m. m.pool) a.pools;
      waits = record {
        semaphores = map (λ s. s.waiters) a.semaphores;
        eventflags = map (λ f. f.waiters) a.eventflags;
        senders = map (λ q. q.senders) a.data_queues;
        receivers = map (λ q. q.receivers) a.data_queues;
        pools = map (λ m. m.waiters) a.pools;
      };
    } };
}

#[tactic(auto, using(crate::proofs::Columns::columns))]
impl Resources {
    /// The objects of a configuration as it says, for which nobody waits. Takes all the memory that they will ever need, or
    /// fails where there is not enough.
    #[tactic(auto, using(crate::proofs::Columns::made))]
    pub fn new(config: &Config) -> Result<Resources, AllocError>
        ensures { IfOk result (λ r. r ≡ blank_objects config.now) }
    {
        let alloc = config.allocator();
        Ok(Resources {
            semaphores: Objects::new(alloc, config.semaphores())?,
            eventflags: Objects::new(alloc, config.eventflags())?,
            data_queues: Objects::new(alloc, config.data_queues())?,
            pools: Objects::new(alloc, config.pools())?,
        })
    }

    /// Whether there are as many objects of each kind, and the same data queues, so that these become as the others are without
    /// taking memory.
    pub fn is_alike(&self, other: &Resources) -> bool
        ensures { IsTrue result ↔ AreAlike self.now other.now }
    {
        self.semaphores.len() == other.semaphores.len()
            && self.eventflags.len() == other.eventflags.len()
            && self.pools.len() == other.pools.len()
            && self.data_queues.have_same_setups(&other.data_queues)
    }

    // ---- waiting

    /// The task that comes first in a queue of an object.
    pub fn first_waiter(&self, kind: QueueKind, o: Object) -> Option<Task>
        ensures { result ≡ first (map task_of (queue self.now.waits kind o)) }
    {
        match kind {
            QueueKind::Semaphore => self.semaphores.first::<Waiters>(o),
            QueueKind::Eventflag => self.eventflags.first::<Waiters>(o),
            QueueKind::Send => self.data_queues.first::<Senders>(o),
            QueueKind::Receive => self.data_queues.first::<Receivers>(o),
            QueueKind::Pool => self.pools.first::<Waiters>(o),
        }
    }

    /// The tasks that wait in a queue of an object, in their order.
    pub fn waiters(&self, kind: QueueKind, o: Object) -> ArrayVec<Task, 64>
        ensures { result.items ≡ map task_of (queue self.now.waits kind o) }
    {
        match kind {
            QueueKind::Semaphore => self.semaphores.list::<Waiters>(o),
            QueueKind::Eventflag => self.eventflags.list::<Waiters>(o),
            QueueKind::Send => self.data_queues.list::<Senders>(o),
            QueueKind::Receive => self.data_queues.list::<Receivers>(o),
            QueueKind::Pool => self.pools.list::<Waiters>(o),
        }
    }

    /// The order of the queue in which a wait stands. A wait that stands in none counts as one by arrival.
    pub fn order_of(&self, wait: Wait) -> Order
        ensures { result ≡ order_for self.now wait }
    {
        match wait {
            Wait::Sleep | Wait::Delay | Wait::Receive(_) => Order::First,
            Wait::Semaphore(s) => self.semaphore(s).setup.order,
            Wait::Eventflag(f, _, _) => self.eventflag(f).setup.order,
            Wait::Send(d, _) => self.data_queue(d).order,
            Wait::Pool(m) => self.pools.order(m),
        }
    }

    /// A task with this wait and this priority joins the queue in which the wait stands, if it stands in one, and leaves the
    /// place where it stood there.
    pub fn join(&mut self, task: Task, priority: Pri, wait: Wait)
        ensures { self.new ≡ record self.old { waits = changed self.old.waits (place_of wait) (joined_by (waiter_of (order_for self.old wait) task priority)) } }
    {
        match wait {
            Wait::Sleep | Wait::Delay => {}
            Wait::Semaphore(s) => self.semaphores.place::<Waiters>(s, task, priority),
            Wait::Eventflag(f, _, _) => self.eventflags.place::<Waiters>(f, task, priority),
            Wait::Send(d, _) => self.data_queues.place::<Senders>(d, task, priority),
            Wait::Receive(d) => self.data_queues.place::<Receivers>(d, task, priority),
            Wait::Pool(m) => self.pools.place::<Waiters>(m, task, priority),
        }
    }

    /// A task with this wait leaves the queue in which the wait stands, if there is such.
    pub fn leave(&mut self, task: Task, wait: Option<Wait>)
        ensures { self.new ≡ record self.old { waits = changed self.old.waits (place_in wait) (left_by task) } }
    {
        match wait {
            None | Some(Wait::Sleep | Wait::Delay) => {}
            Some(Wait::Semaphore(s)) => self.semaphores.leave::<Waiters>(s, task),
            Some(Wait::Eventflag(f, _, _)) => self.eventflags.leave::<Waiters>(f, task),
            Some(Wait::Send(d, _)) => self.data_queues.leave::<Senders>(d, task),
            Some(Wait::Receive(d)) => self.data_queues.leave::<Receivers>(d, task),
            Some(Wait::Pool(m)) => self.pools.leave::<Waiters>(m, task),
        }
    }

    // ---- semaphores

    /// How many semaphores there are.
    pub fn semaphore_count(&self) -> usize
        ensures value { result ≡ length self.now.semaphores }
        ensures few { result ≤ 32 }
    {
        self.semaphores.len()
    }

    /// A semaphore.
    pub fn semaphore(&self, s: Object) -> Semaphore
        ensures { result ≡ item blank_semaphore self.now.semaphores s.number }
    {
        match self.semaphores.get(s) {
            Some(semaphore) => semaphore.semaphore(),
            None => Semaphore::default(),
        }
    }

    /// Changes the count of a semaphore.
    pub fn set_count(&mut self, s: Object, count: u16)
        ensures { let semaphore = item blank_semaphore self.old.semaphores s.number in
            self.new ≡ record self.old { semaphores = with_item self.old.semaphores s.number (record semaphore { count = count }) } }
    {
        self.semaphores.set_count(s, count);
    }

    // ---- eventflags

    /// How many eventflags there are.
    pub fn eventflag_count(&self) -> usize
        ensures value { result ≡ length self.now.eventflags }
        ensures few { result ≤ 32 }
    {
        self.eventflags.len()
    }

    /// An eventflag.
    pub fn eventflag(&self, f: Object) -> Eventflag
        ensures { result ≡ item blank_eventflag self.now.eventflags f.number }
    {
        match self.eventflags.get(f) {
            Some(eventflag) => eventflag.eventflag(),
            None => Eventflag::default(),
        }
    }

    /// Changes the pattern of an eventflag.
    pub fn set_pattern(&mut self, f: Object, pattern: u32)
        ensures { let eventflag = item blank_eventflag self.old.eventflags f.number in
            self.new ≡ record self.old { eventflags = with_item self.old.eventflags f.number (record eventflag { pattern = pattern }) } }
    {
        self.eventflags.set_pattern(f, pattern);
    }

    // ---- data queues

    /// How many data queues there are.
    pub fn data_queue_count(&self) -> usize
        ensures value { result ≡ length self.now.data_queues }
        ensures few { result ≤ 32 }
    {
        self.data_queues.len()
    }

    /// What the configuration says of a data queue.
    pub fn data_queue(&self, d: Object) -> DataQueueSetup
        ensures { result ≡ item no_data_queue self.now.data_queues d.number }
    {
        match self.data_queues.get(d) {
            Some(queue) => queue.setup(),
            None => DataQueueSetup::default(),
        }
    }

    /// How many values there are in a data queue.
    pub fn value_count(&self, d: Object) -> usize
        ensures value { result ≡ length (item [] self.now.contents d.number) }
        ensures within { result ≤ (item no_data_queue self.now.data_queues d.number).capacity }
    {
        match self.data_queues.get(d) {
            Some(queue) => queue.len(),
            None => 0,
        }
    }

    /// The oldest value of a data queue.
    pub fn first_value(&self, d: Object) -> Option<i64>
        ensures { result ≡ first (item [] self.now.contents d.number) }
    {
        self.data_queues.get(d)?.first_value()
    }

    /// The value at a place after the oldest one of a data queue, if there are so many.
    pub fn value(&self, d: Object, index: usize) -> Option<i64>
        ensures { result ≡ slice_get (item [] self.now.contents d.number) index }
    {
        self.data_queues.get(d)?.value(index)
    }

    /// Takes the oldest value out of a data queue, if there is one.
    pub fn drop_value(&mut self, d: Object)
        ensures { let values = item [] self.old.contents d.number in
            self.new ≡ record self.old { contents = with_item self.old.contents d.number (rest values) } }
    {
        self.data_queues.drop_value(d);
    }

    /// Puts a value last into a data queue that has a place for it.
    pub fn add_value(&mut self, d: Object, value: i64)
        requires { length (item [] self.old.contents d.number) < (item no_data_queue self.old.data_queues d.number).capacity }
        ensures { let values = item [] self.old.contents d.number in
            self.new ≡ record self.old { contents = with_item self.old.contents d.number (values ++ value ∷ []) } }
    {
        self.data_queues.add_value(d, value);
    }

    // ---- pools

    /// How many pools there are.
    pub fn pool_count(&self) -> usize
        ensures value { result ≡ length self.now.pools }
        ensures few { result ≤ 32 }
    {
        self.pools.len()
    }

    /// A pool, with a mark for each block that is handed out.
    pub fn pool(&self, m: Object) -> Pool
        ensures { result ≡ item blank_pool self.now.pools m.number }
    {
        match self.pools.get(m) {
            Some(pool) => pool.pool(),
            None => Pool::default(),
        }
    }

    /// The least block of a pool that is not handed out.
    pub fn free_block(&self, m: Object) -> Option<u8>
        ensures { let pool = item blank_pool self.now.pools m.number in
            result ≡ position not (take pool.setup.blocks pool.handed) }
    {
        match self.pools.get(m) {
            Some(pool) => pool.free_block(),
            // A pool that is not there counts as one of one block.
            None => Some(0),
        }
    }

    /// Whether an argument is the number of a block of a pool that is handed out.
    pub fn is_handed(&self, m: Object, block: i32) -> bool
        ensures value { result ≡ is_handed_in (item blank_pool self.now.pools m.number) block }
        ensures few { IsTrue result → block ≤ℤ pos 63 }
    {
        match self.pools.get(m) {
            Some(pool) => pool.is_handed(block),
            None => false,
        }
    }

    /// Marks a block of a pool as handed out or as free.
    pub fn set_handed(&mut self, m: Object, block: u8, handed: bool)
        ensures { let pool = item blank_pool self.old.pools m.number in
            self.new ≡ record self.old { pools = with_item self.old.pools m.number (record pool { handed = slice_set pool.handed block handed }) } }
    {
        self.pools.set_handed(m, block, handed);
    }

    // ---- whole objects

    /// The semaphores with those who wait for each, in the order of their numbers.
    pub fn semaphores(&self) -> &[Sem]
        ensures value { result.now ≡ semaphores_in self.now }
        ensures columns { (map (λ x. x.semaphore) result.now ≡ self.now.semaphores) × (map (λ x. x.waiters) result.now ≡ self.now.waits.semaphores) }
    {
        self.semaphores.items.as_slice()
    }

    /// The semaphores become as those are that have these numbers among others, as many as there are here.
    pub fn become_semaphores(&mut self, kept: &Interned<Sem>, numbers: &[u32])
        requires long { length numbers.now ≡ length self.old.semaphores }
        requires kept { HasNumbers kept.now numbers.now }
        ensures { (xs : _) → AreNumbersOf kept.now numbers.now xs → self.new ≡ record self.old {
          semaphores = map (λ x. x.semaphore) xs;
          waits = record self.old.waits { semaphores = map (λ x. x.waiters) xs };
        } }
    {
        self.semaphores.become_kept(kept, numbers);
    }

    /// The eventflags with those who wait for each, in the order of their numbers.
    pub fn eventflags(&self) -> &[Flag]
        ensures value { result.now ≡ eventflags_in self.now }
        ensures columns { (map (λ x. x.eventflag) result.now ≡ self.now.eventflags) × (map (λ x. x.waiters) result.now ≡ self.now.waits.eventflags) }
    {
        self.eventflags.items.as_slice()
    }

    /// The eventflags become as those are that have these numbers among others, as many as there are here.
    pub fn become_eventflags(&mut self, kept: &Interned<Flag>, numbers: &[u32])
        requires long { length numbers.now ≡ length self.old.eventflags }
        requires kept { HasNumbers kept.now numbers.now }
        ensures { (xs : _) → AreNumbersOf kept.now numbers.now xs → self.new ≡ record self.old {
          eventflags = map (λ x. x.eventflag) xs;
          waits = record self.old.waits { eventflags = map (λ x. x.waiters) xs };
        } }
    {
        self.eventflags.become_kept(kept, numbers);
    }

    /// The pools with those who wait for each, in the order of their numbers.
    pub fn pools(&self) -> &[Mpf]
        ensures value { result.now ≡ pools_in self.now }
        ensures columns { (map (λ x. x.pool) result.now ≡ self.now.pools) × (map (λ x. x.waiters) result.now ≡ self.now.waits.pools) }
    {
        self.pools.items.as_slice()
    }

    /// The pools become as those are that have these numbers among others, as many as there are here.
    pub fn become_pools(&mut self, kept: &Interned<Mpf>, numbers: &[u32])
        requires long { length numbers.now ≡ length self.old.pools }
        requires kept { HasNumbers kept.now numbers.now }
        ensures { (xs : _) → AreNumbersOf kept.now numbers.now xs → self.new ≡ record self.old {
          pools = map (λ x. x.pool) xs;
          waits = record self.old.waits { pools = map (λ x. x.waiters) xs };
        } }
    {
        self.pools.become_kept(kept, numbers);
    }

    /// The data queues with those who wait for each, in the order of their numbers.
    pub fn data_queues(&self) -> &[Dtq]
        ensures value { result.now ≡ queues_in self.now }
        ensures columns { (map (λ q. q.setup) result.now ≡ self.now.data_queues) × (map (λ q. q.values) result.now ≡ self.now.contents) }
        ensures waiters { (map (λ q. q.senders) result.now ≡ self.now.waits.senders) × (map (λ q. q.receivers) result.now ≡ self.now.waits.receivers) }
    {
        self.data_queues.items.as_slice()
    }

    /// The data queues become as those are that have these numbers among others, of each of which the configuration says the same.
    pub fn become_data_queues(&mut self, kept: &Interned<Dtq>, numbers: &[u32])
        requires kept { (xs : _) × AreNumbersOf kept.now numbers.now xs × (map (λ q. q.setup) xs ≡ self.old.data_queues) }
        ensures { (xs : _) → AreNumbersOf kept.now numbers.now xs → self.new ≡ record self.old {
          contents = map (λ q. q.values) xs;
          waits = record self.old.waits {
            senders = map (λ q. q.senders) xs;
            receivers = map (λ q. q.receivers) xs;
          };
        } }
    {
        self.data_queues.become_kept(kept, numbers);
    }
}

impl Part for Resources {
    ghost fits = { AreAlike };

    fn is_same(&self, other: &Self) -> bool {
        self.semaphores.is_same(&other.semaphores)
            && self.eventflags.is_same(&other.eventflags)
            && self.data_queues.is_same(&other.data_queues)
            && self.pools.is_same(&other.pools)
    }

    fn copy_from(&mut self, other: &Self) {
        self.semaphores.copy_from(&other.semaphores);
        self.eventflags.copy_from(&other.eventflags);
        self.data_queues.copy_from(&other.data_queues);
        self.pools.copy_from(&other.pools);
    }
}
