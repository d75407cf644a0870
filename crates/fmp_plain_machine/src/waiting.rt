//! For what tasks wait, and in which order.
ghost use Rattle.std.specs.Prelude.{◌≡◌};
ghost use Rattle.fmp_rules.specs.Ordering.{is_in, waits_in, order_in, order_of};

use crate::machine::PlainMachine;
use fmp_codes::Object;
use fmp_rules::{Order, QueueKind, Wait};
use fmp_step_words::Objects;

/// Whether a wait is in the queue of an object.
#[inline(always)]
fn is_in(kind: QueueKind, o: Object, wait: Wait) -> bool
    ensures { result ≡ is_in kind o wait }
{
    match kind {
        QueueKind::Semaphore => matches!(wait, Wait::Semaphore(s) if s.number == o.number),
        QueueKind::Eventflag => matches!(wait, Wait::Eventflag(f, _, _) if f.number == o.number),
        QueueKind::Send => matches!(wait, Wait::Send(d, _) if d.number == o.number),
        QueueKind::Receive => matches!(wait, Wait::Receive(d) if d.number == o.number),
        QueueKind::Pool => matches!(wait, Wait::Pool(m) if m.number == o.number),
    }
}

/// Whether there is a wait, and it is in the queue of an object.
#[inline(always)]
pub(crate) fn waits_in(kind: QueueKind, o: Object, wait: Option<Wait>) -> bool
    ensures { result ≡ waits_in kind o wait }
{
    match wait {
        None => false,
        Some(wait) => is_in(kind, o, wait),
    }
}

impl PlainMachine {
    /// The order of a queue of an object.
    pub(crate) fn order_in(&self, kind: QueueKind, o: Object) -> Order
        ensures { result ≡ order_in self.now kind o }
    {
        match kind {
            QueueKind::Semaphore => self.semaphore(o).setup.order,
            QueueKind::Eventflag => self.eventflag(o).setup.order,
            QueueKind::Send => self.data_queue(o).order,
            QueueKind::Receive => Order::First,
            QueueKind::Pool => self.pool(o).setup.order,
        }
    }

    /// The order of the queue in which a wait stands.
    pub(crate) fn order_of(&self, wait: Wait) -> Order
        ensures { result ≡ order_of self.now wait }
    {
        match wait {
            Wait::Sleep => Order::First,
            Wait::Delay => Order::First,
            Wait::Semaphore(s) => self.order_in(QueueKind::Semaphore, s),
            Wait::Eventflag(f, _, _) => self.order_in(QueueKind::Eventflag, f),
            Wait::Send(d, _) => self.order_in(QueueKind::Send, d),
            Wait::Receive(d) => self.order_in(QueueKind::Receive, d),
            Wait::Pool(m) => self.order_in(QueueKind::Pool, m),
        }
    }
}
