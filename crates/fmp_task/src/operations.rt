//! The operations on one task, which the kernel does not call: a call's rule stands in `fmp_rules/specs`. They are this part's
//! own surface: how a task changes, each way under the condition that its state sets.
ghost use Rattle.std.specs.Prelude.{◌≡◌, ◌+◌, ◌<◌, Some, None, true, false};
ghost use Rattle.fmp_rules.specs.Ordering.{is_runnable};
ghost use Rattle.fmp_rules.specs.Tasks.{started, ended};
ghost use Rattle.fmp_task.specs.States.{record_of, with_record, is_dormant, is_waiting, is_suspended};

use crate::tasks::Tasks;
use fmp_codes::{Pri, Proc, Task};
use fmp_rules::{TaskRecord, Wait};

impl Tasks {
    /// Starts a dormant task on a processor.
    pub fn activate(&mut self, t: Task, p: Proc)
        requires { is_dormant (record_of self.old t) ≡ true }
        ensures { self.new ≡ with_record self.old t (started (record_of self.old t) p) }
    {
        let task = self.get(t);
        self.set(t, task.started(p));
    }

    /// Ends an active task. A queued activation starts it anew, on the processor that it kept if it named one.
    pub fn finish(&mut self, t: Task)
        requires { is_dormant (record_of self.old t) ≡ false }
        ensures { self.new ≡ with_record self.old t (ended (record_of self.old t)) }
    {
        let task = self.get(t);
        self.set(t, task.ended());
    }

    /// Lets a runnable task wait for something.
    pub fn begin_wait(&mut self, t: Task, wait: Wait)
        requires { is_runnable (record_of self.old t) ≡ true }
        ensures { self.new ≡ with_record self.old t (record (record_of self.old t) { wait = Some wait }) }
    {
        let task = self.get(t);
        self.set(
            t,
            TaskRecord {
                wait: Some(wait),
                ..task
            },
        );
    }

    /// Ends the wait of a task that waits. It stays suspended if it was.
    pub fn end_wait(&mut self, t: Task)
        requires { is_waiting (record_of self.old t) ≡ true }
        ensures { self.new ≡ with_record self.old t (record (record_of self.old t) { wait = None }) }
    {
        let task = self.get(t);
        self.set(t, TaskRecord { wait: None, ..task });
    }

    /// Suspends an active task that is not. It goes on waiting if it waits.
    pub fn suspend(&mut self, t: Task)
        requires active { is_dormant (record_of self.old t) ≡ false }
        requires other { is_suspended (record_of self.old t) ≡ false }
        ensures { self.new ≡ with_record self.old t (record (record_of self.old t) { suspended = true }) }
    {
        let task = self.get(t);
        self.set(
            t,
            TaskRecord {
                suspended: true,
                ..task
            },
        );
    }

    /// Lets a suspended task go on.
    pub fn resume(&mut self, t: Task)
        requires { is_suspended (record_of self.old t) ≡ true }
        ensures { self.new ≡ with_record self.old t (record (record_of self.old t) { suspended = false }) }
    {
        let task = self.get(t);
        self.set(
            t,
            TaskRecord {
                suspended: false,
                ..task
            },
        );
    }

    /// Gives an active task another priority.
    pub fn set_priority(&mut self, t: Task, priority: Pri)
        requires { is_dormant (record_of self.old t) ≡ false }
        ensures { self.new ≡ with_record self.old t (record (record_of self.old t) { priority = priority }) }
    {
        let task = self.get(t);
        self.set(t, TaskRecord { priority, ..task });
    }

    /// Assigns a task, in any state, to a processor.
    pub fn assign(&mut self, t: Task, p: Proc)
        ensures { self.new ≡ with_record self.old t (record (record_of self.old t) { assigned = p }) }
    {
        let task = self.get(t);
        self.set(
            t,
            TaskRecord {
                assigned: p,
                ..task
            },
        );
    }

    /// Queues an activation of an active task, of which none is queued, with the processor on which it is to start, if one was
    /// named.
    pub fn queue_act(&mut self, t: Task, kept: Option<Proc>)
        requires active { is_dormant (record_of self.old t) ≡ false }
        requires room { (record_of self.old t).activations ≡ 0 }
        ensures { self.new ≡ with_record self.old t (record (record_of self.old t) { activations = 1; kept = kept }) }
    {
        let task = self.get(t);
        self.set(
            t,
            TaskRecord {
                activations: 1,
                kept,
                ..task
            },
        );
    }

    /// Takes back the queued activations of a task, in any state, and tells how many there were.
    pub fn take_act(&mut self, t: Task) -> u8
        ensures count { result ≡ (record_of self.old t).activations }
        ensures state { self.new ≡ with_record self.old t (record (record_of self.old t) { activations = 0; kept = None }) }
    {
        let task = self.get(t);
        self.set(
            t,
            TaskRecord {
                activations: 0,
                kept: None,
                ..task
            },
        );
        task.activations
    }

    /// Queues a wakeup of an active task, of which fewer than 65535 are queued.
    pub fn queue_wup(&mut self, t: Task)
        requires active { is_dormant (record_of self.old t) ≡ false }
        requires room { (record_of self.old t).wakeups < 65535 }
        ensures { self.new ≡ with_record self.old t (record (record_of self.old t) { wakeups = (record_of self.old t).wakeups + 1 }) }
    {
        let task = self.get(t);
        self.set(
            t,
            TaskRecord {
                wakeups: task.wakeups + 1,
                ..task
            },
        );
    }

    /// Takes back all queued wakeups of an active task, and tells how many there were.
    pub fn take_wup(&mut self, t: Task) -> u16
        requires { is_dormant (record_of self.old t) ≡ false }
        ensures count { result ≡ (record_of self.old t).wakeups }
        ensures state { self.new ≡ with_record self.old t (record (record_of self.old t) { wakeups = 0 }) }
    {
        let task = self.get(t);
        self.set(t, TaskRecord { wakeups: 0, ..task });
        task.wakeups
    }
}
