//! How many places are left where one thing is not looked at.
ghost use Rattle.std.specs.Prelude.{◌≡◌, ◌+◌, ◌<◌, ◌++◌, ℕ, length, slice_index, IfOk};
ghost use Rattle.fmp_kernel_packed.specs.Told.{things_of};
ghost use Rattle.fmp_search_kernel.specs.Keys.{count_of_words, IsPlaceKey};
ghost use Rattle.fmp_search_kernel.specs.Walked.{origin_of};
ghost use Rattle.fmp_search_kernel.specs.Weights.{spot_of, untimed, AreLeft, AreLeftEach, TellsKey};
ghost use Rattle.fmp_search_orders.specs.Places.{Place};
ghost use Rattle.fmp_setup.specs.Valid.{IsValid};

use crate::keys::{MOST_WORDS, PlaceTables, add_all};
use crate::walker::Walker;
use fmp_interned::{Interned, Words};
use fmp_kernel_packed::thing_count;
use fmp_rules::Config;
use std::alloc::{AllocError, Global};

/// How many numbers a kernel has at most of its parts.
const MOST_PARTS: usize = 259;

/// Where the numbers of a thing stand among those that tell a place.
#[derive(Clone, Copy)]
pub(crate) struct Spot {
    /// Among those of the kernel's parts.
    pub(crate) part: usize,
    /// Among those beside the kernel.
    pub(crate) position: usize,
    /// Which item it is of those that count.
    pub(crate) item: usize,
}

/// Where the numbers of a thing stand: of an alarm, a cyclic handler, a task, a pool, an eventflag, a semaphore or a data queue, in this order.
pub(crate) fn spot_of(config: &Config, thing: usize) -> Spot
    requires { thing < 256 }
    ensures { result ≡ spot_of config.now thing }
{
    let (alarms, cyclics, tasks) = (
        config.alarms().len(),
        config.cyclics().len(),
        config.tasks().len(),
    );
    let before = 1 + 3 * usize::from(config.processors());
    let (position, item) = if thing < alarms {
        (before + tasks, 64 + thing)
    } else if thing < alarms + cyclics {
        (before + tasks, 96 + (thing - alarms))
    } else if thing - (alarms + cyclics) < tasks {
        (
            before + (thing - (alarms + cyclics)),
            thing - (alarms + cyclics),
        )
    } else {
        (before + tasks, 128)
    };
    Spot {
        part: thing,
        position,
        item,
    }
}

/// Adds the numbers that tell what counts, but those of one item. The error is want of memory.
fn add_untimed(words: &mut Words, times: &[u32], item: usize) -> Result<(), AllocError>
    ensures { IfOk result (λ done. words.new ≡ words.old ++ untimed item times.now) }
{
    match times {
        [word, low, high, rest @ ..] => {
            if *word as usize / 8 != item {
                add_all(words, &[*word, *low, *high])?;
            }
            add_untimed(words, rest, item)
        }
        _ => Ok(()),
    }
}

impl<'a> Walker<'a> {
    /// Puts what tells the place of a key without a thing, with room for the numbers of the kernel's parts and beside it. The error is want of memory.
    fn put_without(
        &self,
        tables: &mut PlaceTables,
        key: u64,
        spot: Spot,
        parts: &mut [u32],
        words: &mut [u32],
        list: &mut Words,
    ) -> Result<(), AllocError>
        requires valid { IsValid self.now.place.config }
        requires parts { length parts.old ≡ things_of (origin_of self.now.place).machine + 3 }
        requires words { length words.old ≡ count_of_words self.now.place.config }
        requires part { spot.part < things_of (origin_of self.now.place).machine + 3 }
        requires position { spot.position < count_of_words self.now.place.config }
        requires kept { (p : Place) × IsPlaceKey (origin_of self.now.place) tables.old key p }
        ensures list { IfOk result (λ done. TellsKey (origin_of self.now.place) tables.old spot key list.new) }
        ensures same { tables.new ≡ tables.old }
        ensures parts { length parts.new ≡ length parts.old }
        ensures words { length words.new ≡ length words.old }
    {
        let packed = self.put_words(tables, key, words);
        tables.parts.put_numbers(packed, parts);
        words[words.len() - 1] = 0;
        parts[spot.part] = 0;
        words[spot.position] = 0;
        list.become_slice(parts)?;
        add_all(list, words)?;
        add_untimed(list, tables.parts.times(packed), spot.item)
    }

    /// How many of the places of these keys are left where a thing is not looked at, whose numbers stand there. The error is want of memory.
    fn count_without(
        &self,
        tables: &mut PlaceTables,
        keys: &[u64],
        spot: Spot,
        parts: &mut [u32],
        words: &mut [u32],
    ) -> Result<usize, AllocError>
        requires valid { IsValid self.now.place.config }
        requires parts { length parts.old ≡ things_of (origin_of self.now.place).machine + 3 }
        requires words { length words.old ≡ count_of_words self.now.place.config }
        requires part { spot.part < things_of (origin_of self.now.place).machine + 3 }
        requires position { spot.position < count_of_words self.now.place.config }
        requires kept { (i : ℕ) → i < length keys.now → (p : Place) × IsPlaceKey (origin_of self.now.place) tables.old (slice_index keys.now i) p }
        ensures left { IfOk result (λ n. AreLeft (TellsKey (origin_of self.now.place) tables.old spot) keys.now n) }
        ensures same { tables.new ≡ tables.old }
        ensures parts { length parts.new ≡ length parts.old }
        ensures words { length words.new ≡ length words.old }
    {
        let alloc = self.config.allocator();
        let mut kept: Interned<Words> = Interned::new(alloc);
        let mut list = Words::new(alloc);
        for key in keys {
            self.put_without(tables, *key, spot, parts, words, &mut list)?;
            kept.number_of(&list)?;
        }
        kept.validity();
        Ok(kept.len())
    }

    /// Of each thing, how many of the places of these keys are left where it is not looked at: of alarms, cyclic handlers, tasks, pools, eventflags, semaphores and
    /// data queues, in this order. The error is want of memory.
    pub fn left_without(
        &self,
        alloc: Global,
        tables: &mut PlaceTables,
        keys: &[u64],
    ) -> Result<Vec<usize>, AllocError>
        requires { (i : ℕ) → i < length keys.now → (p : Place) × IsPlaceKey (origin_of self.now.place) tables.old (slice_index keys.now i) p }
        ensures left { IfOk result (λ v. AreLeftEach (origin_of self.now.place) tables.old keys.now v.items) }
        ensures same { tables.new ≡ tables.old }
    {
        let mut parts = [0; MOST_PARTS];
        let mut words = [0; MOST_WORDS];
        tables.validity();
        let things = thing_count(self.start.machine());
        let count = self.word_count();
        let (parts, words) = (&mut parts[..things + 3], &mut words[..count]);
        let mut left = Vec::new(alloc);
        for thing in 0..things {
            let spot = spot_of(self.config, thing);
            let places = self.count_without(tables, keys, spot, parts, words)?;
            left.push(places)?;
        }
        Ok(left)
    }
}
