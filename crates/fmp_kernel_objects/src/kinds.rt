//! The kinds of objects for which tasks wait: semaphores, eventflags, data queues and memory pools.
ghost use Rattle.std.specs.Prelude.{◌≡◌, ◌<◌, ◌++◌, ◌∷◌, [], false, length, map, refl, replicate, slice_set, IsTrue, ◌↔◌};
ghost use Rattle.fmp_rules.specs.World.{rest, item, with_item};
ghost use Rattle.fmp_setup.specs.declared.setup.Order.TheVariants as orders;
ghost use Rattle.fmp_kernel_objects.specs.Kinds.{no_semaphore, no_eventflag, no_queue, no_pool};

use crate::objects::{Kind, Objects, Waited};
use arrayvec::ArrayVec;
use fmp_codes::{Object, Pri, Task};
use fmp_dtq::Dtq;
use fmp_flag::Flag;
use fmp_mpf::Mpf;
use fmp_rules::{DataQueueSetup, EventflagSetup, Order, PoolSetup, SemaphoreSetup};
use fmp_sem::Sem;
use std::alloc::{AllocError, Global};

/// The queue of an object that has one.
pub(crate) struct Waiters;

/// The queue of the tasks that wait to send to a data queue.
pub(crate) struct Senders;

/// The queue of the tasks that wait to receive from a data queue.
pub(crate) struct Receivers;

impl Kind for Sem {
    type Setup = SemaphoreSetup;

    ghost blank = { no_semaphore };

    ghost made = { λ s. record { semaphore = record { setup = s; count = s.initial }; waiters = [] } };

    fn make(_alloc: Global, setup: &SemaphoreSetup) -> Result<Sem, AllocError> {
        Ok(Sem::new(*setup))
    }
}

impl Waited<Waiters> for Sem {
    ghost waiters = { λ x. x.waiters };

    ghost order = { λ x. x.semaphore.setup.order };

    ghost with_waiters = { λ x es. record x { waiters = es } };

    ghost nobody = { refl };

    fn first(&self) -> Option<Task> {
        self.first()
    }

    fn list(&self) -> ArrayVec<Task, 64> {
        self.list()
    }

    fn place(&mut self, task: Task, priority: Pri) {
        self.place(task, priority);
    }

    fn leave(&mut self, task: Task) {
        self.leave(task);
    }
}

impl Objects<Sem> {
    /// Changes the count of one.
    pub(crate) fn set_count(&mut self, o: Object, count: u16)
        ensures { let x = item no_semaphore self.old o.number in
            self.new ≡ with_item self.old o.number (record x { semaphore = record x.semaphore { count = count } }) }
    {
        if let Some(semaphore) = self.items.get_mut(o.index()) {
            semaphore.set_count(count);
        }
    }
}

impl Kind for Flag {
    type Setup = EventflagSetup;

    ghost blank = { no_eventflag };

    ghost made = { λ s. record { eventflag = record { setup = s; pattern = s.initial }; waiters = [] } };

    fn make(_alloc: Global, setup: &EventflagSetup) -> Result<Flag, AllocError> {
        Ok(Flag::new(*setup))
    }
}

impl Waited<Waiters> for Flag {
    ghost waiters = { λ x. x.waiters };

    ghost order = { λ x. x.eventflag.setup.order };

    ghost with_waiters = { λ x es. record x { waiters = es } };

    ghost nobody = { refl };

    fn first(&self) -> Option<Task> {
        self.first()
    }

    fn list(&self) -> ArrayVec<Task, 64> {
        self.list()
    }

    fn place(&mut self, task: Task, priority: Pri) {
        self.place(task, priority);
    }

    fn leave(&mut self, task: Task) {
        self.leave(task);
    }
}

impl Objects<Flag> {
    /// Changes the pattern of one.
    pub(crate) fn set_pattern(&mut self, o: Object, pattern: u32)
        ensures { let x = item no_eventflag self.old o.number in
            self.new ≡ with_item self.old o.number (record x { eventflag = record x.eventflag { pattern = pattern } }) }
    {
        if let Some(eventflag) = self.items.get_mut(o.index()) {
            eventflag.set_pattern(pattern);
        }
    }
}

impl Kind for Mpf {
    type Setup = PoolSetup;

    ghost blank = { no_pool };

    ghost made = { λ s. record { pool = record { setup = s; handed = replicate 64 false }; waiters = [] } };

    fn make(_alloc: Global, setup: &PoolSetup) -> Result<Mpf, AllocError> {
        Ok(Mpf::new(*setup))
    }
}

impl Waited<Waiters> for Mpf {
    ghost waiters = { λ x. x.waiters };

    ghost order = { λ x. x.pool.setup.order };

    ghost with_waiters = { λ x es. record x { waiters = es } };

    ghost nobody = { refl };

    fn first(&self) -> Option<Task> {
        self.first()
    }

    fn list(&self) -> ArrayVec<Task, 64> {
        self.list()
    }

    fn place(&mut self, task: Task, priority: Pri) {
        self.place(task, priority);
    }

    fn leave(&mut self, task: Task) {
        self.leave(task);
    }
}

impl Objects<Mpf> {
    /// The order in which tasks wait for one.
    pub(crate) fn order(&self, o: Object) -> Order
        ensures { result ≡ (item no_pool self.now o.number).pool.setup.order }
    {
        match self.get(o) {
            Some(pool) => pool.setup().order,
            None => Order::First,
        }
    }

    /// Marks a block of one as handed out or as free.
    pub(crate) fn set_handed(&mut self, o: Object, block: u8, handed: bool)
        ensures { let x = item no_pool self.old o.number in
            self.new ≡ with_item self.old o.number (record x { pool = record x.pool { handed = slice_set x.pool.handed block handed } }) }
    {
        if let Some(pool) = self.items.get_mut(o.index()) {
            pool.set_handed(block, handed);
        }
    }
}

impl Kind for Dtq {
    type Setup = DataQueueSetup;

    ghost blank = { no_queue };

    ghost made = { λ s. record { setup = s; values = []; senders = []; receivers = [] } };

    fn make(alloc: Global, setup: &DataQueueSetup) -> Result<Dtq, AllocError> {
        Dtq::new(alloc, *setup)
    }
}

impl Waited<Senders> for Dtq {
    ghost waiters = { λ x. x.senders };

    ghost order = { λ x. x.setup.order };

    ghost with_waiters = { λ x es. record x { senders = es } };

    ghost nobody = { refl };

    fn first(&self) -> Option<Task> {
        self.first_sender()
    }

    fn list(&self) -> ArrayVec<Task, 64> {
        self.senders()
    }

    fn place(&mut self, task: Task, priority: Pri) {
        self.place_sender(task, priority);
    }

    fn leave(&mut self, task: Task) {
        self.leave_senders(task);
    }
}

impl Waited<Receivers> for Dtq {
    ghost waiters = { λ x. x.receivers };

    ghost order = { λ x. orders.First };

    ghost with_waiters = { λ x es. record x { receivers = es } };

    ghost nobody = { refl };

    fn first(&self) -> Option<Task> {
        self.first_receiver()
    }

    fn list(&self) -> ArrayVec<Task, 64> {
        self.receivers()
    }

    fn place(&mut self, task: Task, priority: Pri) {
        self.place_receiver(task, priority);
    }

    fn leave(&mut self, task: Task) {
        self.leave_receivers(task);
    }
}

impl Objects<Dtq> {
    /// Takes the oldest value out of one, if it has one.
    pub(crate) fn drop_value(&mut self, o: Object)
        ensures { let x = item no_queue self.old o.number in
            self.new ≡ with_item self.old o.number (record x { values = rest x.values }) }
    {
        if let Some(queue) = self.items.get_mut(o.index()) {
            queue.drop_value();
        }
    }

    /// Puts a value last into one that has a place for it.
    pub(crate) fn add_value(&mut self, o: Object, value: i64)
        requires { let x = item no_queue self.old o.number in length x.values < x.setup.capacity }
        ensures { let x = item no_queue self.old o.number in
            self.new ≡ with_item self.old o.number (record x { values = x.values ++ value ∷ [] }) }
    {
        if let Some(queue) = self.items.get_mut(o.index()) {
            queue.add_value(value);
        }
    }

    /// Whether the configurations say the same of both.
    pub(crate) fn have_same_setups(&self, other: &Self) -> bool
        ensures { IsTrue result ↔ (map (λ q. q.setup) self.now ≡ map (λ q. q.setup) other.now) }
    {
        are_same_setups(self.items.as_slice(), other.items.as_slice())
    }
}

/// Whether the configurations say the same of two data queues.
fn have_same_setup(queue: &Dtq, other: &Dtq) -> bool
    ensures { IsTrue result ↔ (queue.now.setup ≡ other.now.setup) }
{
    queue.setup() == other.setup()
}

/// Whether the configurations say the same of two lists of data queues.
fn are_same_setups(queues: &[Dtq], others: &[Dtq]) -> bool
    ensures { IsTrue result ↔ (map (λ q. q.setup) queues.now ≡ map (λ q. q.setup) others.now) }
{
    if queues.len() != others.len() {
        return false;
    }
    for at in 0..queues.len() {
        if !have_same_setup(&queues[at], &others[at]) {
            return false;
        }
    }
    true
}
