//! The numbers by which the machine keeps what came before what.
ghost use Rattle.std.specs.Prelude.{◌≡◌, ◌+◌, ◌<◌, ◌≤◌, ◌^◌, ℕ, Option, option_map};
ghost use Rattle.fmp_rules.specs.World.{task, with_item};
ghost use Rattle.fmp_rules.specs.Ordering.{order_of, rejoin};
ghost use Rattle.fmp_rules.specs.Arrivals.{numbered};
ghost use Rattle.fmp_rules.specs.declared.machine.TaskRecord.{TaskRecord as AnyTaskRecord};

use crate::machine::PlainMachine;
use fmp_codes::Task;
use fmp_rules::{Order, TaskRecord};
use fmp_step_words::Words;

impl PlainMachine {
    /// The next number, which is used up.
    fn take_number(&mut self) -> u64
        requires { self.old.order.next + 1 < 2 ^ 64 }
        ensures number { result ≡ self.old.order.next }
        ensures state { self.new ≡ record self.old { order = record self.old.order { next = self.old.order.next + 1 } } }
    {
        let number = self.next;
        self.next += 1;
        number
    }

    /// Changes the fields of a task and gives it the next number, so that it comes last of its priority.
    #[tactic(auto, unfolding(fmp_rules::specs::Arrivals::numbered))]
    pub(crate) fn put_last(&mut self, t: Task, changed: TaskRecord)
        requires { self.old.order.next + 1 < 2 ^ 64 }
        ensures { self.new ≡ record self.old { tasks = with_item self.old.tasks t.number changed; order = numbered.put_last self.old.order changed t } }
    {
        let number = self.take_number();
        self.tasks.put(t, changed, number);
    }

    /// Changes how many ticks a wait of a task has left.
    pub(crate) fn set_wait_left(&mut self, t: Task, left: Option<u64>)
        ensures { self.new ≡ record self.old { waits_left = with_item self.old.waits_left t.number left } }
    {
        self.waits_left.set(t.index(), left);
    }

    /// Gives a wait of a task the next number, so that it is the last in its queue and of the timed waits.
    pub(crate) fn join(&mut self, t: Task)
        requires { self.old.order.next + 1 < 2 ^ 64 }
        ensures { self.new ≡ record self.old {
          order = record self.old.order {
            begun = with_item self.old.order.begun t.number self.old.order.next;
            next = self.old.order.next + 1;
          };
        } }
    {
        let number = self.take_number();
        if let Some(place) = self.begun.get_mut(t.index()) {
            *place = number;
        }
    }

    /// The order of the queue in which a task waits, if it waits.
    pub(crate) fn queue_order(&self, t: Task) -> Option<Order>
        ensures { result ≡ option_map (order_of self.now) (task self.now t).wait }
    {
        let wait = self.task(t).wait?;
        Some(self.order_of(wait))
    }

    /// In a queue by priority, begins the wait of a task anew.
    #[tactic(auto, unfolding(fmp_rules::specs::Arrivals::numbered))]
    pub(crate) fn rejoin(&mut self, t: Task, order: Order)
        requires { self.old.order.next + 1 < 2 ^ 64 }
        ensures state { (r : AnyTaskRecord) (left : Option ℕ) → self.new ≡ record self.old { order = rejoin numbered self.old.order order r left t } }
        ensures next { self.new.order.next ≤ self.old.order.next + 1 }
    {
        match order {
            Order::First => {}
            Order::Priority => self.join(t),
        }
    }
}
