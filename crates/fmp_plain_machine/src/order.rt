//! What comes first, and what comes after it.
ghost use Rattle.std.specs.Prelude.{◌≡◌, ◌+◌, ◌≤◌, ◌<◌, length, insert};
ghost use Rattle.fmp_rules.specs.World.{first};
ghost use Rattle.fmp_rules.specs.Arrivals.{inserted};
ghost use Rattle.fmp_plain_machine.specs.Better.{better};
ghost use Rattle.fmp_plain_machine.specs.Groups.{members, precedes, waits_over};

use crate::counts::is_over;
use crate::groups::{Group, Rule, rule_of, takes};
use crate::machine::PlainMachine;
use arrayvec::ArrayVec;
use fmp_codes::Task;
use fmp_rules::Order;

impl PlainMachine {
    /// The task of a group that comes first.
    #[inline(always)]
    #[tactic(auto, using(crate::proofs::First::first_in_order))]
    pub(crate) fn first_of(&self, group: Group) -> Option<Task>
        ensures { result ≡ first (members self.now group) }
    {
        let mut best: Option<Task> = None;
        for (index, record) in self.tasks.records().iter().enumerate() {
            if takes(group, record) {
                best = self.better(rule_of(group), Task::from_index(index), best);
            }
        }
        best
    }

    /// The task, or the best one so far where there is one that the task does not come before.
    #[inline(always)]
    fn better(&self, rule: Rule, t: Task, best: Option<Task>) -> Option<Task>
        ensures { result ≡ better (precedes self.now rule) t best }
    {
        match best {
            None => Some(t),
            Some(u) => {
                if self.precedes(rule, t, u) {
                    Some(t)
                } else {
                    Some(u)
                }
            }
        }
    }

    /// The tasks of a group, in their order.
    #[inline(always)]
    #[tactic(auto, using(crate::proofs::Inserted::one_more))]
    pub(crate) fn members(&self, group: Group) -> ArrayVec<Task, 64>
        ensures { result.items ≡ members self.now group }
    {
        let mut list = ArrayVec::new();
        for (index, record) in self.tasks.records().iter().enumerate() {
            if takes(group, record) {
                self.insert(rule_of(group), Task::from_index(index), &mut list);
            }
        }
        list
    }

    /// The tasks whose waits have no ticks left, in the order in which these began.
    #[inline(always)]
    pub(crate) fn waits_over(&self) -> ArrayVec<Task, 64>
        ensures { result.items ≡ waits_over self.now }
    {
        let mut list = ArrayVec::new();
        for (index, left) in self.waits_left.as_slice().iter().enumerate() {
            if is_over(*left) {
                self.insert(
                    Rule::Waits(Order::First),
                    Task::from_index(index),
                    &mut list,
                );
            }
        }
        list
    }

    /// Puts a task before those that it comes before.
    #[inline(always)]
    fn insert(&self, rule: Rule, t: Task, list: &mut ArrayVec<Task, 64>)
        requires { length list.old.items < 64 }
        ensures list { list.new.items ≡ inserted (precedes self.now rule) t list.old.items }
        ensures length { length list.new.items ≡ length list.old.items + 1 }
    {
        let place = self.place_of(rule, t, list.as_slice());
        list.insert(place, t);
    }

    /// The place in a list of the first task that another one comes before, or else its end.
    #[inline(always)]
    fn place_of(&self, rule: Rule, t: Task, list: &[Task]) -> usize
        ensures within { result ≤ length list.now }
        ensures place { insert list.now result t ≡ inserted (precedes self.now rule) t list.now }
    {
        for (index, u) in list.iter().enumerate() {
            if self.precedes(rule, t, *u) {
                return index;
            }
        }
        list.len()
    }
}
