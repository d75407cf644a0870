//! A guess by the first bytes of a word: which object of a kind it may name. Nothing is said of a guess, since
//! whoever asks for one compares the name. A word that is guessed wrong is only found more slowly.
ghost use Rattle.std.specs.Prelude.{◌<◌};

use fmp_bytes::word_key;
use std::alloc::{AllocError, Global};

/// How many slots there are for the objects of each kind.
const SLOTS: usize = 512;

/// How many kinds of objects there are.
const KINDS: usize = 8;

/// What a word with a key may name.
#[derive(Drop)]
pub struct Likely {
    /// For each kind of objects, and in that for each slot, the number of an object or 0. Nothing before the first name is added.
    objects: Vec<u8>,
}

/// The slot of a key.
#[inline(always)]
fn slot_of(key: u64) -> usize
    ensures { result < 512 }
{
    (key.wrapping_mul(0x8c09_786b_766b_5e3d) >> 55) as usize % SLOTS
}

impl Likely {
    /// No names yet. It takes no memory.
    pub fn new(alloc: Global) -> Likely {
        Likely {
            objects: Vec::new(alloc),
        }
    }

    /// The numbers of two objects of the kind at this place that a word with this key may name, the likelier first.
    #[inline(always)]
    pub fn objects(&self, place: usize, key: u64) -> (u8, u8)
        requires { place < 8 }
    {
        let slot = place * SLOTS + slot_of(key);
        (self.object_at(slot), self.object_at(slot ^ 1))
    }

    /// The number of the object in this slot, and 0 where it is empty or no name was added yet. Slots count through all kinds.
    #[inline(always)]
    fn object_at(&self, slot: usize) -> u8 {
        self.objects.get(slot).copied().unwrap_or(0)
    }

    /// Keeps in mind that a name is that of the object with this number.
    pub fn add(&mut self, place: usize, name: &[u8], number: usize) -> Result<(), AllocError>
        requires { place < 8 }
    {
        if self.objects.is_empty() {
            self.objects.resize(KINDS * SLOTS, 0)?;
        }
        let slot = place * SLOTS + slot_of(word_key(name));
        let free = if self.object_at(slot) == 0 {
            slot
        } else {
            slot ^ 1
        };
        if let (Some(object), Ok(number)) = (self.objects.get_mut(free), u8::try_from(number)) {
            *object = number;
        }
        Ok(())
    }
}
