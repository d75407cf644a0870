//! What is assigned to processors.
ghost use Rattle.std.specs.Prelude.{◌≡◌, ◌≤◌, ◌++◌, ◌&&◌, None, [], false, is_none, length, map, true, IfOk};
ghost use Rattle.std.specs.List.{list_all};
ghost use Rattle.fmp_codes.specs.declared.numbers.Task.{Task as AnyTask};
ghost use Rattle.fmp_rules.specs.Boot.{phase_left};
ghost use Rattle.fmp_setup.specs.Setup.{counts_for};
ghost use Rattle.fmp_rules.specs.Tick.{lowered, expired, tasks_expired};
ghost use Rattle.fmp_rules.specs.World.{item, with_item, no_task, resting};
ghost use Rattle.fmp_kernel_parts.specs.Tasks.{has_task, without};
ghost use Rattle.fmp_kernel_order.specs.Queues.{timed_by};
ghost use Rattle.fmp_time.specs.Times.{no_times};
ghost use Rattle.fmp_time.specs.Words.{made_from, words_of};
ghost use Rattle.fmp_kernel_assigned.specs.Assignments.{assignments_of, cyclic_in, alarm_in, IsNextDue};
ghost use Rattle.fmp_kernel_assigned.specs.Counting.{AreInStep};
ghost use Rattle.fmp_kernel_assigned.specs.Telling.{times_in, IsTold};
ghost use Rattle.fmp_kernel_assigned.specs.Starting.{first_cyclic, first_alarm};

use crate::counting::{count_down, follow, least, set_left, shown};
use crate::expired::{objects_among, tasks_among};
use crate::handlers::{
    copy_alarms, copy_cyclics, first_alarms, first_cyclics, first_timers, put_alarm, put_cyclic,
};
use arrayvec::ArrayVec;
use fmp_codes::{Object, Proc, Task};
use fmp_interned::Words;
use fmp_kernel_parts::Part;
use fmp_kernel_same::{Same, are_equal};
use fmp_rules::{Alarm, Config, Cyclic, TaskRecord, Timer};
use fmp_task::Tasks;
use fmp_time::{Item, Timers};
use std::alloc::AllocError;
use std::marker::Model;

/// The tasks, the cyclic handlers and the alarms, with the ticks that each has left.
#[derive(Drop)]
pub struct Assigned {
    timer: Timer,
    tasks: Tasks,
    cyclics: ArrayVec<Cyclic, 32>,
    alarms: ArrayVec<Alarm, 32>,
    /// What of these counts, each on the processor to which it is assigned.
    timers: Timers,
}

impl Model for Assigned {
    ghost use Rattle.fmp_kernel_assigned.specs.Assignments.{Assignments, assignments_of};
    ghost use Rattle.fmp_kernel_assigned.specs.Counting.{AreInStep};

    ghost Value = { Assignments };

    ghost view = { λ a. assignments_of a.timer a.tasks a.cyclics.items a.alarms.items a.timers };

    ghost invariant = { λ a. AreInStep a.tasks a.cyclics.items a.alarms.items a.timers.left };
}

impl Assigned {
    /// What a configuration has, before any tick: no task waits, and the cyclic handlers count that are started at boot.
    pub fn new(config: &Config) -> Self
        ensures timer { result.timer ≡ config.now.timer }
        ensures tasks { result.tasks ≡ map resting config.now.tasks }
        ensures waits_left { result.waits_left ≡ map (λ s. None) config.now.tasks }
        ensures timed { result.timed ≡ [] }
        ensures cyclics { result.cyclics ≡ map first_cyclic config.now.cyclics }
        ensures cyclics_left { result.cyclics_left ≡ map phase_left config.now.cyclics }
        ensures alarms { result.alarms ≡ map first_alarm config.now.alarms }
        ensures alarms_left { result.alarms_left ≡ map (λ s. None) config.now.alarms }
    {
        let cyclics = first_cyclics(config.cyclics());
        let timers = first_timers(cyclics.as_slice());
        Assigned {
            timer: config.timer(),
            tasks: Tasks::new(config.tasks()),
            cyclics,
            alarms: first_alarms(config.alarms()),
            timers,
        }
    }

    // ---- reads

    /// The processors whose ticks count.
    pub fn timer(&self) -> Timer
        ensures { result ≡ self.now.timer }
    {
        self.timer
    }

    /// The records of the tasks, in the order of their numbers.
    pub fn tasks(&self) -> &[TaskRecord]
        ensures { result.now ≡ self.now.tasks }
    {
        self.tasks.as_slice()
    }

    /// The cyclic handlers, in the order of their numbers.
    pub fn cyclics(&self) -> &[Cyclic]
        ensures { result.now ≡ self.now.cyclics }
    {
        self.cyclics.as_slice()
    }

    /// The alarms, in the order of their numbers.
    pub fn alarms(&self) -> &[Alarm]
        ensures { result.now ≡ self.now.alarms }
    {
        self.alarms.as_slice()
    }

    /// The record of a task.
    pub fn task(&self, t: Task) -> TaskRecord
        ensures { result ≡ item no_task self.now.tasks t.number }
    {
        self.tasks.get(t)
    }

    /// The ticks left of a task's wait, where it is timed.
    pub fn wait_left(&self, t: Task) -> Option<u64>
        ensures { result ≡ item None self.now.waits_left t.number }
    {
        if t.index() < self.tasks.len() {
            self.timers.left(Item::Wait(t))
        } else {
            None
        }
    }

    /// How many tasks there are.
    pub fn task_count(&self) -> usize
        ensures value { result ≡ length self.now.tasks }
        ensures few { result ≤ 64 }
    {
        self.tasks.len()
    }

    /// A cyclic handler.
    pub fn cyclic(&self, c: Object) -> Cyclic
        ensures { result ≡ cyclic_in self.now.cyclics c }
    {
        let cyclic = self.cyclics.as_slice().get(c.index()).copied();
        cyclic.unwrap_or(Cyclic::default())
    }

    /// The ticks left of a cyclic handler, where it is started.
    pub fn cyclic_left(&self, c: Object) -> Option<u64>
        ensures { result ≡ item None self.now.cyclics_left c.number }
    {
        if c.index() < self.cyclics.len() {
            self.timers.left(Item::Cyclic(c))
        } else {
            None
        }
    }

    /// How many cyclic handlers there are.
    pub fn cyclic_count(&self) -> usize
        ensures value { result ≡ length self.now.cyclics }
        ensures few { result ≤ 32 }
    {
        self.cyclics.len()
    }

    /// An alarm.
    pub fn alarm(&self, a: Object) -> Alarm
        ensures { result ≡ alarm_in self.now.alarms a }
    {
        let alarm = self.alarms.as_slice().get(a.index()).copied();
        alarm.unwrap_or(Alarm::default())
    }

    /// The ticks left of an alarm, where it is started.
    pub fn alarm_left(&self, a: Object) -> Option<u64>
        ensures { result ≡ item None self.now.alarms_left a.number }
    {
        if a.index() < self.alarms.len() {
            self.timers.left(Item::Alarm(a))
        } else {
            None
        }
    }

    /// How many alarms there are.
    pub fn alarm_count(&self) -> usize
        ensures value { result ≡ length self.now.alarms }
        ensures few { result ≤ 32 }
    {
        self.alarms.len()
    }

    // ---- tasks

    /// Changes the record of a task. Where its wait counts, it goes on with the ticks that it has left.
    pub fn set_task(&mut self, t: Task, changed: TaskRecord)
        ensures { self.new ≡ record self.old { tasks = with_item self.old.tasks t.number changed } }
    {
        if t.index() < self.tasks.len() {
            let from = self.tasks.get(t).assigned;
            follow(&mut self.timers, Item::Wait(t), from, changed.assigned);
            self.tasks.set(t, changed);
        }
    }

    /// A wait of a task begins, with so many ticks left or for ever. With ticks left it is the last that began.
    pub fn begin_wait(&mut self, t: Task, left: Option<u64>)
        ensures { self.new ≡ record self.old { waits_left = with_item self.old.waits_left t.number left; timed = timed_by left t self.old.timed } }
    {
        let p = self.tasks.get(t).assigned;
        let left = shown(t.index() < self.tasks.len(), left);
        set_left(&mut self.timers, p, Item::Wait(t), left);
    }

    /// The wait of a task counts no more, if it did.
    pub fn end_wait(&mut self, t: Task)
        ensures { self.new ≡ record self.old { waits_left = with_item self.old.waits_left t.number None; timed = without t self.old.timed } }
    {
        self.timers.cancel(Item::Wait(t));
    }

    /// The wait of a task begins anew, with the ticks that it has left, if it has some: it is the last that began.
    pub fn renew_wait(&mut self, t: Task)
        ensures { self.new ≡ record self.old { timed = timed_by (item None self.old.waits_left t.number) t (without t self.old.timed) } }
    {
        let item = Item::Wait(t);
        if t.index() < self.tasks.len() && self.timers.counts(item) {
            self.timers.renew(item);
        } else {
            self.timers.cancel(item);
        }
    }

    // ---- handlers

    /// Starts a cyclic handler with so many ticks left, or stops it.
    pub fn set_cyclic_left(&mut self, c: Object, left: Option<u64>)
        ensures { self.new ≡ record self.old { cyclics_left = with_item self.old.cyclics_left c.number left } }
    {
        if c.index() < self.cyclics.len() {
            let p = self.cyclic(c).assigned;
            set_left(&mut self.timers, p, Item::Cyclic(c), left);
        }
    }

    /// Assigns a cyclic handler to a processor. Where it counts, it goes on with the ticks that it has left.
    pub fn assign_cyclic(&mut self, c: Object, p: Proc)
        ensures { self.new ≡ record self.old { cyclics = with_item self.old.cyclics c.number (record (cyclic_in self.old.cyclics c) { assigned = p }) } }
    {
        let cyclic = self.cyclic(c);
        self.set_cyclic(
            c,
            Cyclic {
                assigned: p,
                ..cyclic
            },
        );
    }

    /// Starts an alarm with so many ticks left, or stops it.
    pub fn set_alarm_left(&mut self, a: Object, left: Option<u64>)
        ensures { self.new ≡ record self.old { alarms_left = with_item self.old.alarms_left a.number left } }
    {
        if a.index() < self.alarms.len() {
            let p = self.alarm(a).assigned;
            set_left(&mut self.timers, p, Item::Alarm(a), left);
        }
    }

    /// Assigns an alarm to a processor. Where it counts, it goes on with the ticks that it has left.
    pub fn assign_alarm(&mut self, a: Object, p: Proc)
        ensures { self.new ≡ record self.old { alarms = with_item self.old.alarms a.number (record (alarm_in self.old.alarms a) { assigned = p }) } }
    {
        let alarm = self.alarm(a);
        self.set_alarm(
            a,
            Alarm {
                assigned: p,
                ..alarm
            },
        );
    }

    // ---- all that counts

    /// Adds the numbers that tell what counts. The error is want of memory: only some of the numbers were added then.
    pub fn add_words(&self, words: &mut Words) -> Result<(), AllocError>
        ensures added { IfOk result (λ done. words.new ≡ words.old ++ words_of (times_in self.now)) }
        ensures told { IsTold self.now }
    {
        self.timers.know_waits();
        self.timers.add_words(words)
    }

    /// What counts becomes as these numbers tell, where it is on the processors to which things are assigned.
    pub fn become_words(&mut self, words: &[u32])
        requires { AreInStep self.old.tasks self.old.cyclics self.old.alarms (made_from no_times words.now).left }
        ensures { self.new ≡ assignments_of self.old.timer self.old.tasks self.old.cyclics self.old.alarms (made_from no_times words.now) }
    {
        self.timers.become_words(words);
    }

    /// Changes a cyclic handler. Where it counts, it goes on with the ticks that it has left.
    pub fn set_cyclic(&mut self, c: Object, changed: Cyclic)
        ensures { self.new ≡ record self.old { cyclics = with_item self.old.cyclics c.number changed } }
    {
        put_cyclic(&mut self.cyclics, c.index(), changed);
        self.timers.move_to(Item::Cyclic(c), changed.assigned);
    }

    /// Changes an alarm. Where it counts, it goes on with the ticks that it has left.
    pub fn set_alarm(&mut self, a: Object, changed: Alarm)
        ensures { self.new ≡ record self.old { alarms = with_item self.old.alarms a.number changed } }
    {
        put_alarm(&mut self.alarms, a.index(), changed);
        self.timers.move_to(Item::Alarm(a), changed.assigned);
    }

    // ---- ticks

    /// The least ticks left for which a tick on a processor counts, if there are some.
    pub fn next_due(&self, p: Proc) -> Option<u64>
        requires { (t : AnyTask) → has_task t self.now.timed ≡ true → t.number ≤ length self.now.tasks }
        ensures { IsNextDue self.now p result }
    {
        match self.timer {
            Timer::Local => self.timers.next(p),
            Timer::Global(master) => {
                if p.number == master.number {
                    least(&self.timers)
                } else {
                    None
                }
            }
        }
    }

    /// Whether nothing has ticks left.
    pub fn is_untimed(&self) -> bool
        requires { (t : AnyTask) → has_task t self.now.timed ≡ true → t.number ≤ length self.now.tasks }
        ensures { result ≡ (list_all is_none self.now.waits_left && list_all is_none self.now.cyclics_left && list_all is_none self.now.alarms_left) }
    {
        least(&self.timers).is_none()
    }

    /// Lowers the ticks left for which a tick on a processor counts.
    pub fn count_down(&mut self, p: Proc)
        ensures { self.new ≡ record self.old {
          waits_left = lowered (λ r. counts_for self.old.timer p r.assigned) self.old.tasks self.old.waits_left;
          cyclics_left = lowered (λ c. counts_for self.old.timer p c.assigned) self.old.cyclics self.old.cyclics_left;
          alarms_left = lowered (λ a. counts_for self.old.timer p a.assigned) self.old.alarms self.old.alarms_left;
        } }
    {
        count_down(&mut self.timers, self.timer, p);
    }

    /// Whether anything may have 0 ticks left: there may be a wait of a task that there is not.
    pub fn may_have_expired(&self) -> bool
        ensures waits { result ≡ false → tasks_expired self.now.waits_left self.now.timed ≡ [] }
        ensures alarms { result ≡ false → expired self.now.alarms_left self.now.alarms ≡ [] }
        ensures cyclics { result ≡ false → expired self.now.cyclics_left self.now.cyclics ≡ [] }
    {
        self.timers.has_due()
    }

    /// The tasks whose waits have 0 ticks left, in the order in which the waits began.
    pub fn expired_waits(&self) -> ArrayVec<Task, 64>
        ensures { result.items ≡ tasks_expired self.now.waits_left self.now.timed }
    {
        tasks_among(self.tasks.len(), self.timers.due_waits().as_slice())
    }

    /// The alarms that have 0 ticks left, in the order of their numbers.
    pub fn expired_alarms(&self) -> ArrayVec<Object, 32>
        ensures { result.items ≡ expired self.now.alarms_left self.now.alarms }
    {
        objects_among(self.alarms.len(), self.timers.due_alarms().as_slice())
    }

    /// The cyclic handlers that have 0 ticks left, in the order of their numbers.
    pub fn expired_cyclics(&self) -> ArrayVec<Object, 32>
        ensures { result.items ≡ expired self.now.cyclics_left self.now.cyclics }
    {
        objects_among(self.cyclics.len(), self.timers.due_cyclics().as_slice())
    }
}

impl Part for Assigned {
    ghost fits = { λ a b. Unit {0} };

    fn is_same(&self, other: &Self) -> bool {
        self.timers.know_waits();
        other.timers.know_waits();
        self.tasks.is_same(&other.tasks)
            && self.timers.is_same(&other.timers)
            && are_equal(self.cyclics.as_slice(), other.cyclics.as_slice())
            && are_equal(self.alarms.as_slice(), other.alarms.as_slice())
            && self.timer.is_same(&other.timer)
    }

    fn copy_from(&mut self, other: &Self) {
        self.timer = other.timer;
        self.tasks.copy_from(&other.tasks);
        copy_cyclics(&mut self.cyclics, &other.cyclics);
        copy_alarms(&mut self.alarms, &other.alarms);
        self.timers.copy_from(&other.timers);
    }
}
