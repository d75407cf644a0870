//! What a run with threads calls around its turns.
use fmp_codes::Proc;

/// What a run with threads calls around its turns. What is known of a run holds whatever a gate does.
pub trait Gate {
    /// Before a processor takes the lock for a turn.
    fn before_turn(&self, p: Proc);

    /// After it has left the lock.
    fn between(&self, p: Proc);

    /// How often a request of one processor wakes another: 0 loses the wake-up, 2 doubles it.
    fn wakes(&self, from: Proc, to: Proc) -> u8;
}

/// A gate that does nothing, and wakes once.
#[derive(Clone, Copy)]
pub struct Open;

impl Gate for Open {
    fn before_turn(&self, _p: Proc) {}

    fn between(&self, _p: Proc) {}

    fn wakes(&self, _from: Proc, _to: Proc) -> u8 {
        1
    }
}
