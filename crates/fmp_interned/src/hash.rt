//! Numbers that tell values apart.
ghost use Rattle.std.specs.Prelude.{◌≡◌};
ghost use Rattle.fmp_interned.specs.Hashes.{hash_of, mixed};
ghost use Rattle.fmp_kernel_parts.specs.Digests.{seed, told};

use fmp_kernel_parts::{Digest, ToDigest};

/// Mixes one number more into a hash. The product's high bits, which depend on all bits of the number, are folded onto the low ones, by which a table is
/// entered.
#[tactic(auto, unfolding(crate::specs::Hashes::mixed))]
fn mixed(sum: u64, word: u32) -> u64
    ensures { result ≡ mixed sum word }
{
    let product = (sum ^ word as u64).wrapping_mul(0x517c_c1b7_2722_0a95);
    product ^ (product >> 32)
}

/// A number made of others, in their order. Lists that differ may have the same.
#[tactic(auto, unfolding(crate::specs::Hashes::hash_of))]
pub(crate) fn hash_of(words: &[u32]) -> u64
    ensures { result ≡ hash_of words.now }
{
    let mut sum = 0x9e37_79b9_7f4a_7c15;
    for word in words {
        sum = mixed(sum, *word);
    }
    sum
}

/// A number made of what a part adds to a digest. Parts that differ may have the same.
pub fn part_hash<P: ToDigest>(part: &P) -> u64
    ensures { result ≡ told (P.digested part.now seed) }
{
    let mut digest = Digest::new();
    part.add_to(&mut digest);
    digest.value()
}
