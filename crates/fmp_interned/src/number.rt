//! Numbers that can be kept once, such as keys.
ghost use Rattle.fmp_interned.specs.Hashes.{hash_of_number};

use crate::value::Value;
use std::alloc::AllocError;

impl Value for u64 {
    ghost hashed = { hash_of_number };

    fn is_same(&self, other: &Self) -> bool {
        self == other
    }

    /// Keys that come one after the other differ in their low bits alone: the product's high bits depend on these.
    #[tactic(auto, unfolding(crate::specs::Hashes::hash_of_number))]
    fn hash(&self) -> u64 {
        self.wrapping_mul(0x9e37_79b9_7f4a_7c15) >> 32
    }

    fn another(&self) -> Result<Self, AllocError> {
        Ok(*self)
    }
}
