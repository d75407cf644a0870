//! The operations on a data queue alone, which the kernel does not call: a call's rule stands in `fmp_rules/specs`. They are
//! this part's own surface.
ghost use Rattle.std.specs.Prelude.{◌≡◌, ◌++◌, ◌∷◌, pos, [], true, false, unwrap_or};
ghost use Rattle.fmp_rules.specs.World.{first, rest};
ghost use Rattle.fmp_waitq.specs.Queue.{has_waiter, joined_by, put_ranked, waiter_of};
ghost use Rattle.fmp_dtq.specs.Operations.{send, force_send, receive};
ghost use Rattle.fmp_dtq.specs.Served.{can_send, can_receive, IsServed};

use crate::Dtq;
use fmp_codes::{Pri, Task};
use fmp_rules::Order;

/// What became of a value that was sent.
#[derive(Clone, Copy)]
pub enum Sent {
    /// This task, which waited to receive, is released with it.
    To(Task),
    /// It is the last value of the data queue.
    Kept,
    /// There is no place for it.
    Full,
}

/// What became of a value that was forced in.
#[derive(Clone, Copy)]
pub enum Forced {
    /// This task, which waited to receive, is released with it.
    To(Task),
    /// It is the last value of the data queue, for which the oldest value may have been lost.
    Kept(Option<i64>),
    /// The data queue keeps no values.
    Refused,
}

/// A value that was received.
#[derive(Clone, Copy)]
pub struct Received {
    pub value: i64,
    /// The task that waited to send and is released, as the value that it offers has gone last.
    pub sender: Option<Task>,
}

impl Dtq {
    /// Sends a value.
    pub fn send(&mut self, value: i64) -> Sent
        ensures queue { self.new ≡ (send self.old value).0 }
        ensures answer { result ≡ (send self.old value).1 }
        ensures served { IsServed self.old → IsServed self.new }
    {
        if let Some(task) = self.first_receiver() {
            self.leave_receivers(task);
            return Sent::To(task);
        }
        if self.len() < usize::from(self.setup.capacity) {
            self.add_value(value);
            return Sent::Kept;
        }
        Sent::Full
    }

    /// Sends a value, for which the oldest value is lost where there is no place.
    pub fn force_send(&mut self, value: i64) -> Forced
        ensures queue { self.new ≡ (force_send self.old value).0 }
        ensures answer { result ≡ (force_send self.old value).1 }
        ensures served { IsServed self.old → IsServed self.new }
    {
        let capacity = usize::from(self.setup.capacity);
        if capacity == 0 {
            return Forced::Refused;
        }
        if let Some(task) = self.first_receiver() {
            self.leave_receivers(task);
            return Forced::To(task);
        }
        if self.len() < capacity {
            self.add_value(value);
            return Forced::Kept(None);
        }
        let lost = self.first_value();
        self.drop_value();
        self.add_value(value);
        Forced::Kept(lost)
    }

    /// Receives the oldest value. Where a task waits to send, the value that it offers goes last and the task is released:
    /// `offers` has the values at the tasks' places.
    pub fn receive(&mut self, offers: &[i64]) -> Option<Received>
        ensures queue { self.new ≡ (receive self.old offers.now).0 }
        ensures answer { result ≡ (receive self.old offers.now).1 }
        ensures served { IsServed self.old → IsServed self.new }
    {
        match self.first_sender() {
            Some(task) => {
                self.leave_senders(task);
                let offer = offers.get(task.index()).copied().unwrap_or(0);
                Some(Received {
                    value: self.exchange(offer),
                    sender: Some(task),
                })
            }
            None => {
                let value = self.first_value()?;
                self.drop_value();
                Some(Received {
                    value,
                    sender: None,
                })
            }
        }
    }

    /// Takes out the oldest value after a value has gone last.
    fn exchange(&mut self, value: i64) -> i64
        ensures values { self.new ≡ record self.old { values = rest (self.old.values ++ value ∷ []) } }
        ensures oldest { result ≡ unwrap_or (first (self.old.values ++ value ∷ [])) (pos 0) }
    {
        match self.values.pop_front() {
            Some(oldest) => {
                self.values.try_push_back(value).unwrap();
                oldest
            }
            None => value,
        }
    }

    /// A task of this priority that does not wait to send begins to, last among its equals.
    pub fn join_senders(&mut self, task: Task, priority: Pri)
        requires { has_waiter task self.old.senders ≡ false }
        ensures queue { self.new ≡ record self.old { senders = put_ranked (waiter_of self.old.setup.order task priority) self.old.senders } }
        ensures served { can_send self.old ≡ false → IsServed self.old → IsServed self.new }
    {
        self.senders.join(task, priority);
    }

    /// A task that does not wait to receive begins to, after all others.
    pub fn join_receivers(&mut self, task: Task, priority: Pri)
        requires { has_waiter task self.old.receivers ≡ false }
        ensures queue { self.new ≡ record self.old { receivers = put_ranked (waiter_of Order.First task priority) self.old.receivers } }
        ensures served { can_receive self.old ≡ false → IsServed self.old → IsServed self.new }
    {
        self.receivers.join(task, priority);
    }

    /// A task that waits to send leaves its place and joins the senders anew, with this priority.
    pub fn reorder_senders(&mut self, task: Task, priority: Pri)
        requires { has_waiter task self.old.senders ≡ true }
        ensures queue { self.new ≡ record self.old { senders = joined_by (waiter_of self.old.setup.order task priority) self.old.senders } }
        ensures served { IsServed self.old → IsServed self.new }
    {
        self.senders.reorder(task, priority);
    }

    /// A task that waits to receive leaves its place and joins the receivers anew, after all others.
    pub fn reorder_receivers(&mut self, task: Task, priority: Pri)
        requires { has_waiter task self.old.receivers ≡ true }
        ensures queue { self.new ≡ record self.old { receivers = joined_by (waiter_of Order.First task priority) self.old.receivers } }
        ensures served { IsServed self.old → IsServed self.new }
    {
        self.receivers.reorder(task, priority);
    }
}
