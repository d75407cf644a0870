//! The records of the tasks, and what comes first on each processor.
ghost use Rattle.std.specs.Prelude.{◌≡◌, ◌≤◌, ◌==◌, ◌&&◌, false, IsTrue, None, length, map};
ghost use Rattle.fmp_rules.specs.Ordering.{is_runnable};
ghost use Rattle.fmp_rules.specs.Arrivals.{comes_before, priority_in};
ghost use Rattle.fmp_rules.specs.World.{item, with_item, no_task, processors_to, resting};
ghost use Rattle.fmp_plain_machine.specs.Tops.{ahead, is_task, looked, raised, rank_of, top_among};
ghost use Rattle.fmp_plain_machine.specs.Best.{is_after, met};

use crate::firsts::Firsts;
use crate::kept::each;
use arrayvec::ArrayVec;
use fmp_codes::{Proc, Task};
use fmp_rules::{TaskRecord, TaskSetup};
use fmp_step_words::Tops;
use std::marker::Model;

/// The records of the tasks, and for each when it last became ready or was put last. What comes first on each processor is looked
/// for once when a task changes.
#[derive(Drop)]
pub(crate) struct Tasks {
    records: ArrayVec<TaskRecord, 64>,
    ready: ArrayVec<u64, 64>,
    tops: Firsts,
}

impl Model for Tasks {
    ghost use Rattle.fmp_plain_machine.specs.Tops.{Ranked, AreTops};

    ghost Value = { Ranked };

    ghost view = { λ a. record { records = a.records.items; ready = a.ready.items } };

    ghost invariant = { λ a. AreTops a.records.items a.ready.items a.tops };
}

/// Whether a task is active, with no wait and not suspended.
#[inline(always)]
pub(crate) fn is_runnable(task: &TaskRecord) -> bool
    ensures { result ≡ is_runnable task.now }
{
    task.active & task.wait.is_none() & !task.suspended
}

/// The record of a task, or the default one where it has none.
fn record_of(records: &[TaskRecord], t: Task) -> TaskRecord
    ensures { result ≡ item no_task records.now t.number }
{
    records
        .get(t.index())
        .copied()
        .unwrap_or(TaskRecord::default())
}

/// The priority of a task as a number, of which the least comes first. It is that of the default record where the task has none.
#[inline(always)]
fn priority_of(records: &[TaskRecord], t: Task) -> u8
    ensures { result ≡ priority_in records.now t }
{
    match records.get(t.index()) {
        Some(record) => record.priority.number,
        None => TaskRecord::default().priority.number,
    }
}

/// The processor of a task.
#[inline(always)]
fn home_of(records: &[TaskRecord], t: Task) -> Proc
    ensures { result ≡ (item no_task records.now t.number).assigned }
{
    match records.get(t.index()) {
        Some(record) => record.assigned,
        None => TaskRecord::default().assigned,
    }
}

/// The number that tells when a task last became ready or was put last, or 0 where it has none.
#[inline(always)]
fn number_of(ready: &[u64], t: Task) -> u64
    ensures { result ≡ item 0 ready.now t.number }
{
    ready.get(t.index()).copied().unwrap_or(0)
}

/// Whether a ready task comes before another.
#[inline(always)]
fn comes_before(records: &[TaskRecord], ready: &[u64], t: Task, u: Task) -> bool
    ensures { result ≡ comes_before (priority_in records.now) ready.now t u }
{
    let a = priority_of(records, t);
    let b = priority_of(records, u);
    a < b || (a == b && number_of(ready, t) < number_of(ready, u))
}

/// The task that comes first of those that were met, with its priority and when it became ready. Where none was met, these are 0.
#[derive(Drop)]
pub(crate) struct Best {
    pub(crate) task: Option<Task>,
    pub(crate) priority: u8,
    pub(crate) number: u64,
}

impl Best {
    /// Whether a task of this priority that became ready then comes before it.
    #[inline(always)]
    fn is_after(&self, priority: u8, number: u64) -> bool
        ensures { result ≡ is_after self.now priority number }
    {
        self.task.is_none()
            || priority < self.priority
            || (priority == self.priority && number < self.number)
    }

    /// Meets a task. The fields are written one by one, so that the walk keeps each in a register.
    #[inline(always)]
    fn meet(&mut self, task: Task, priority: u8, number: u64)
        ensures { self.new ≡ met self.old task priority number }
    {
        if self.is_after(priority, number) {
            self.task = Some(task);
            self.priority = priority;
            self.number = number;
        }
    }
}

/// Whether both records say the same of what comes first: whether the task is ready, on which processor and with which priority.
#[inline(always)]
fn ranks_alike(a: &TaskRecord, b: &TaskRecord) -> bool
    ensures { IsTrue result → rank_of a.now ≡ rank_of b.now }
{
    is_runnable(a) == is_runnable(b)
        && a.assigned.number == b.assigned.number
        && a.priority.number == b.priority.number
}

/// Whether a task comes first on a processor.
#[inline(always)]
fn is_top(tops: &Firsts, p: Proc, t: Task) -> bool
    ensures { result ≡ is_task t (item None tops.now p.number) }
{
    match tops.at(p.index()) {
        Some(u) => u.number == t.number,
        None => false,
    }
}

/// The first of a task and another that came first without it. Where neither comes before the other, the one of the lesser number does.
#[inline(always)]
fn ahead(records: &[TaskRecord], ready: &[u64], t: Task, best: Option<Task>) -> Option<Task>
    ensures { result ≡ ahead (comes_before (priority_in records.now) ready.now) t best }
{
    match best {
        None => Some(t),
        Some(u) => {
            let is_first = comes_before(records, ready, t, u)
                || (!comes_before(records, ready, u, t) && t.number < u.number);
            if is_first { Some(t) } else { Some(u) }
        }
    }
}

/// Puts a task first on its processor where it is ready and comes before what came first there.
fn raise(records: &[TaskRecord], ready: &[u64], t: Task, tops: &mut Firsts)
    ensures { tops.new ≡ raised records.now ready.now t tops.old }
{
    if let Some(record) = records.get(t.index()) {
        if is_runnable(record) {
            let place = record.assigned.index();
            let best = ahead(records, ready, t, tops.at(place));
            tops.set(place, best);
        }
    }
}

/// Whether a task of this record is ready on a processor.
#[inline(always)]
fn is_ready_on(task: &TaskRecord, p: Proc) -> bool
    ensures { result ≡ (is_runnable task.now && task.now.assigned.number == p.number) }
{
    is_runnable(task) && task.assigned.number == p.number
}

/// What comes first on a processor, found in one walk over the tasks.
fn first_on(records: &[TaskRecord], ready: &[u64], p: Proc) -> Option<Task>
    requires { length records.now ≤ 64 }
    ensures { result ≡ top_among records.now ready.now (length records.now) p }
{
    let mut best = Best {
        task: None,
        priority: 0,
        number: 0,
    };
    for (index, record) in records.iter().enumerate() {
        if is_ready_on(record, p) {
            let task = Task::from_index(index);
            best.meet(task, record.priority.number, number_of(ready, task));
        }
    }
    best.task
}

/// Looks for what comes first on a processor, of which a task changed that came first there. Where that is on another one now, it may
/// come first on that.
fn look_again(records: &[TaskRecord], ready: &[u64], t: Task, p: Proc, tops: &mut Firsts)
    requires { length records.now ≤ 64 }
    ensures { tops.new ≡ looked records.now ready.now t p tops.old }
{
    tops.set(p.index(), first_on(records, ready, p));
    if home_of(records, t).number != p.number {
        raise(records, ready, t, tops);
    }
}

/// Finds what comes first on each processor once a task has changed that was on this one. Only where it came first there on its own
/// there is a walk over the tasks.
fn renew(
    tops: &mut Firsts,
    records: &ArrayVec<TaskRecord, 64>,
    ready: &ArrayVec<u64, 64>,
    t: Task,
    p: Proc,
    was_top: bool,
)
    ensures few { length records.now.items ≤ 64 }
    ensures looked { IsTrue was_top → tops.new ≡ looked records.now.items ready.now.items t p tops.old }
    ensures raised { was_top ≡ false → tops.new ≡ raised records.now.items ready.now.items t tops.old }
{
    if was_top {
        look_again(records.as_slice(), ready.as_slice(), t, p, tops);
    } else {
        raise(records.as_slice(), ready.as_slice(), t, tops);
    }
}

/// Changes the record of a task, if it has one.
fn write(records: &mut ArrayVec<TaskRecord, 64>, t: Task, changed: TaskRecord)
    ensures { records.new.items ≡ with_item records.old.items t.number changed }
{
    if let Some(place) = records.get_mut(t.index()) {
        *place = changed;
    }
}

/// Changes the number that tells when a task became ready, if there is one.
fn write_number(ready: &mut ArrayVec<u64, 64>, t: Task, number: u64)
    ensures { ready.new.items ≡ with_item ready.old.items t.number number }
{
    if let Some(place) = ready.get_mut(t.index()) {
        *place = number;
    }
}

impl Tasks {
    /// Dormant tasks, as the configuration says.
    pub(crate) fn of(setups: &[TaskSetup]) -> Tasks
        requires { length setups.now ≤ 64 }
        ensures { result ≡ record { records = map resting setups.now; ready = map (λ s. 0) setups.now } }
    {
        let records = each(setups);
        let ready = each(setups);
        Tasks {
            records,
            ready,
            tops: Firsts::none(),
        }
    }

    /// Their records.
    pub(crate) fn records(&self) -> &[TaskRecord]
        ensures records { result.now ≡ self.now.records }
        ensures few { length result.now ≤ 64 }
    {
        self.records.as_slice()
    }

    /// The record of a task.
    pub(crate) fn record(&self, t: Task) -> TaskRecord
        ensures { result ≡ item no_task self.now.records t.number }
    {
        record_of(self.records.as_slice(), t)
    }

    /// The priority of a task.
    pub(crate) fn priority(&self, t: Task) -> u8
        ensures priority { result ≡ priority_in self.now.records t }
        ensures few { length self.now.records ≤ 64 }
    {
        priority_of(self.records.as_slice(), t)
    }

    /// When a task last became ready or was put last.
    pub(crate) fn ready_number(&self, t: Task) -> u64
        ensures { result ≡ item 0 self.now.ready t.number }
    {
        number_of(self.ready.as_slice(), t)
    }

    /// What comes first on a processor.
    pub(crate) fn top(&self, p: Proc) -> Option<Task>
        ensures { result ≡ top_among self.now.records self.now.ready (length self.now.records) p }
    {
        self.tops.at(p.index())
    }

    /// What comes first on each of the first so many processors.
    #[inline(always)]
    pub(crate) fn tops(&self, count: usize) -> Tops
        requires { count ≤ 8 }
        ensures { result ≡ map (top_among self.now.records self.now.ready (length self.now.records)) (processors_to count) }
    {
        Tops::new(self.tops.numbers(), count)
    }

    /// Changes the record of a task. Most changes are none of what comes first, so nothing is looked for then.
    pub(crate) fn set(&mut self, t: Task, changed: TaskRecord)
        ensures { self.new ≡ record self.old { records = with_item self.old.records t.number changed } }
    {
        let same = ranks_alike(&self.record(t), &changed);
        let p = home_of(self.records.as_slice(), t);
        let was_top = is_top(&self.tops, p, t);
        write(&mut self.records, t, changed);
        if !same {
            renew(&mut self.tops, &self.records, &self.ready, t, p, was_top);
        }
    }

    /// Changes the record of a task, which becomes ready or is put last.
    pub(crate) fn put(&mut self, t: Task, changed: TaskRecord, number: u64)
        ensures { self.new ≡ record self.old { records = with_item self.old.records t.number changed; ready = with_item self.old.ready t.number number } }
    {
        let p = home_of(self.records.as_slice(), t);
        let was_top = is_top(&self.tops, p, t);
        write(&mut self.records, t, changed);
        write_number(&mut self.ready, t, number);
        renew(&mut self.tops, &self.records, &self.ready, t, p, was_top);
    }
}
