//! Groups of tasks that have an order.
ghost use Rattle.std.specs.Prelude.{◌≡◌};
ghost use Rattle.fmp_rules.specs.World.{item};
ghost use Rattle.fmp_rules.specs.Arrivals.{priority_in, rank_in};
ghost use Rattle.fmp_plain_machine.specs.Groups.{takes, rule_of, rank, numbers, precedes};

use crate::machine::PlainMachine;
use crate::tops::is_runnable;
use crate::waiting::waits_in;
use fmp_codes::{Object, Pri, Proc, Task};
use fmp_rules::{Order, QueueKind, TaskRecord};

/// A group of tasks that have an order.
#[derive(Clone, Copy)]
pub(crate) enum Group {
    /// The ready tasks of a processor and a priority.
    ReadyAt(Proc, Pri),
    /// The tasks that wait in a queue of an object, which is in this order.
    Queue(QueueKind, Object, Order),
}

/// What decides which of two tasks comes first.
#[derive(Clone, Copy)]
pub(crate) enum Rule {
    /// Their priorities, and where these are equal when they became ready.
    Ready,
    /// Their ranks in a queue of this order, and where these are equal when their waits began.
    Waits(Order),
}

/// Whether a task of this record is of a group.
#[inline(always)]
pub(crate) fn takes(group: Group, task: &TaskRecord) -> bool
    ensures { result ≡ takes group task.now }
{
    match group {
        Group::ReadyAt(p, priority) => {
            is_runnable(task)
                && task.assigned.number == p.number
                && task.priority.number == priority.number
        }
        Group::Queue(kind, o, _) => waits_in(kind, o, task.wait),
    }
}

/// What decides who of a group comes first.
#[inline(always)]
pub(crate) fn rule_of(group: Group) -> Rule
    ensures { result ≡ rule_of group }
{
    match group {
        Group::ReadyAt(_, _) => Rule::Ready,
        Group::Queue(_, _, order) => Rule::Waits(order),
    }
}

impl PlainMachine {
    /// The priority of a task as a number, of which the least comes first.
    fn priority_in(&self, t: Task) -> u8
        ensures { result ≡ priority_in self.now.tasks t }
    {
        self.tasks.priority(t)
    }

    /// The rank of a task that waits in this order.
    #[inline(always)]
    fn rank_in(&self, order: Order, t: Task) -> u8
        ensures { result ≡ rank_in order self.now.tasks t }
    {
        match order {
            Order::First => 0,
            Order::Priority => self.priority_in(t),
        }
    }

    /// The rank of a task by a rule.
    #[inline(always)]
    fn rank(&self, rule: Rule, t: Task) -> u8
        ensures { result ≡ rank self.now rule t }
    {
        match rule {
            Rule::Ready => self.priority_in(t),
            Rule::Waits(order) => self.rank_in(order, t),
        }
    }

    /// When a task last became ready or was put last.
    pub fn ready_number(&self, t: Task) -> u64
        ensures { result ≡ item 0 self.now.order.ready t.number }
    {
        self.tasks.ready_number(t)
    }

    /// When the wait of a task began.
    fn begun_number(&self, t: Task) -> u64
        ensures { result ≡ item 0 self.now.order.begun t.number }
    {
        self.begun.as_slice().get(t.index()).copied().unwrap_or(0)
    }

    /// The number of a task, which decides where ranks are equal.
    #[inline(always)]
    fn number(&self, rule: Rule, t: Task) -> u64
        ensures { result ≡ item 0 (numbers self.now rule) t.number }
    {
        match rule {
            Rule::Ready => self.ready_number(t),
            Rule::Waits(_) => self.begun_number(t),
        }
    }

    /// Whether a task comes before another one by a rule.
    #[inline(always)]
    pub(crate) fn precedes(&self, rule: Rule, t: Task, u: Task) -> bool
        ensures { result ≡ precedes self.now rule t u }
    {
        let a = self.rank(rule, t);
        let b = self.rank(rule, u);
        a < b || (a == b && self.number(rule, t) < self.number(rule, u))
    }
}
