//! What steps between places have in common.
ghost use Rattle.fmp_search.specs.Kinds.{hash_of};

use fmp_interned::Value;
use std::alloc::AllocError;

/// The number of a step, and the tests that it passes.
#[derive(Clone, Copy)]
pub(crate) struct Kind {
    pub(crate) passes: u64,
    pub(crate) step: u8,
}

impl Value for Kind {
    ghost hashed = { hash_of };

    fn is_same(&self, other: &Self) -> bool {
        self.passes == other.passes && self.step == other.step
    }

    fn hash(&self) -> u64 {
        self.passes.wrapping_add(u64::from(self.step)).hash()
    }

    fn another(&self) -> Result<Self, AllocError> {
        Ok(*self)
    }
}
