//! What can be kept once.
ghost use Rattle.std.specs.Prelude.{◌≡◌, ◌↔◌, ℕ, IfOk, IsTrue};

use std::alloc::AllocError;

/// A value that can be kept once.
pub trait Value {
    // A number of each value. Values that are the same have the same.
    ghost hashed: { Self → ℕ };

    /// Whether another is the same.
    fn is_same(&self, other: &Self) -> bool
        ensures { IsTrue result ↔ (self.now ≡ other.now) };

    /// The number of the value. No answer depends on it; where it often differs between values, they are found sooner.
    fn hash(&self) -> u64
        ensures { result ≡ hashed self.now };

    /// One more that is the same. The error is want of memory.
    fn another(&self) -> Result<Self, AllocError>
        ensures { IfOk result (λ v. v ≡ self.now) };
}
