//! A number that tells values apart.
ghost use Rattle.std.specs.Prelude.{◌≡◌, ℕ};
ghost use Rattle.fmp_kernel_parts.specs.Digests.{seed, added, added_all, told};

use std::marker::Model;

/// A number made of others, in their order. Different numbers may give the same, so no answer may depend on it. Contracts see
/// it as a number.
#[derive(Drop)]
pub struct Digest {
    sum: u64,
}

impl Model for Digest {
    ghost use Rattle.std.specs.Prelude.{ℕ};

    ghost Value = { ℕ };

    ghost view = { λ a. a.sum };
}

impl Digest {
    /// That of no number.
    pub fn new() -> Self
        ensures { result ≡ seed }
    {
        Digest {
            sum: 0x9e37_79b9_7f4a_7c15,
        }
    }

    /// Adds a number.
    pub fn add(&mut self, number: u64)
        ensures { self.new ≡ added self.old number }
    {
        self.sum = (self.sum.rotate_left(5) ^ number).wrapping_mul(0x517c_c1b7_2722_0a95);
    }

    /// The number made of all that were added. Its high bits depend on them all as its low ones do.
    pub fn value(&self) -> u64
        ensures { result ≡ told self.now }
    {
        self.sum ^ (self.sum >> 32)
    }
}

impl Default for Digest {
    fn default() -> Self {
        Digest::new()
    }
}

/// What a digest tells apart, as a part of a kernel that is kept once.
pub trait ToDigest {
    // What a digest is after it was added.
    ghost digested: { Self → ℕ → ℕ };

    /// Adds what it is to a digest. Those that are the same add the same; no answer may depend on it.
    fn add_to(&self, digest: &mut Digest)
        ensures { digest.new ≡ digested self.now digest.old };
}

/// Adds those of a list to a digest.
pub fn add_all<T: ToDigest>(items: &[T], digest: &mut Digest)
    ensures { digest.new ≡ added_all T.digested items.now digest.old }
{
    for item in items {
        item.add_to(digest);
    }
}
