//! Ready queues: the tasks that are ready on each processor, in their precedence. The kernel does not call `rotate`, which is
//! this part's own surface: a call's rule stands in `fmp_rules/specs`.
//!
//! Contracts see a list of tasks for each processor and priority (`lists`, at `list_number`). No task stands in two lists, nor
//! twice in one.
//!
//! Each processor has a word with a bit for each priority, set where that list is not empty, so its first task is found by
//! the lowest bit. That is done where a list of the processor changes, and the first tasks are kept, so that to read one is to
//! look into an array. The lists are linked in arrays: no call walks one but `list`, which gives it out. No call allocates.
#![tactic(auto)]

ghost use Rattle.std.specs.Prelude.{◌≡◌, ℕ, ◌+◌, ◌-◌, ◌*◌, ◌<◌, ◌≤◌, ◌==◌, false, true, Option, Some, None, [], length, replicate, slice_index, slice_set, if◌then◌else◌};
ghost use Rattle.fmp_kernel_parts.specs.Digests.{seed, told};
ghost use Rattle.std.specs.Int.{bit_at};
ghost use Rattle.fmp_codes.specs.Numbers.{task_number};
ghost use Rattle.fmp_codes.specs.declared.numbers.Pri.{Pri as AnyPri};
ghost use Rattle.fmp_codes.specs.declared.numbers.Task.{Task as AnyTask};
ghost use Rattle.fmp_kernel_parts.specs.Lists.{first_of};
ghost use Rattle.fmp_kernel_parts.specs.Tasks.{has_task};
ghost use Rattle.fmp_ready.specs.Queues.{list_number, queue_at, push_last, take_out, rotated, top_of, top_at, bit_of, added_lists, AreDisjoint};
ghost use Rattle.fmp_ready.specs.Kept.{tasks_of, IsKept};

use arrayvec::ArrayVec;
use fmp_codes::{Pri, Proc, Task};
use fmp_interned::{Value, part_hash};
use fmp_kernel_parts::{Digest, Links, Part, ToDigest};
use std::alloc::AllocError;
use std::marker::Model;

/// A list of tasks for each processor and priority. No task stands in two lists. In TOPPERS/FMP: ready_queue of each PCB.
#[derive(Drop)]
pub struct ReadyQueues {
    links: Links<320, 64>,
    words: [u32; 8],
    /// The number of the first task of each processor, or 0.
    tops: [u8; 8],
}

impl Model for ReadyQueues {
    ghost use Rattle.fmp_ready.specs.Queues.{PriorityLists};

    ghost Value = { PriorityLists };

    ghost use Rattle.fmp_ready.specs.Kept.{tasks_of, IsKept, AreTops};

    ghost view = { λ a. record { lists = tasks_of a.links } };

    ghost invariant = { λ a. IsKept a.words a.links × AreTops a.tops (tasks_of a.links) };
}

impl ReadyQueues {
    /// Empty lists.
    pub fn new() -> Self
        ensures { result ≡ record { lists = replicate 256 [] } }
    {
        ReadyQueues {
            links: Links::new(),
            words: [0; 8],
            tops: [0; 8],
        }
    }

    /// A task that stands in no list becomes the last of its priority on a processor.
    pub fn insert(&mut self, processor: Proc, priority: Pri, task: Task)
        requires { (i : ℕ) → has_task task (queue_at self.old.lists i) ≡ false }
        ensures { self.new ≡ record self.old { lists = push_last self.old.lists (list_number processor priority) task } }
    {
        let list = list_of(processor, priority);
        self.links.push_last(list, task.index());
        write_bit(&mut self.words, list, true);
        find_top(&mut self.tops, &self.words, &self.links, list / 32);
    }

    /// A task becomes the last of its priority on a processor, and leaves the list in which it stood, if any.
    pub fn put_last(&mut self, processor: Proc, priority: Pri, task: Task)
        ensures { self.new ≡ record self.old { lists = push_last (take_out self.old.lists task) (list_number processor priority) task } }
    {
        self.remove(task);
        self.insert(processor, priority, task);
    }

    /// A task leaves the list in which it stands, if any.
    pub fn remove(&mut self, task: Task)
        ensures { self.new ≡ record self.old { lists = take_out self.old.lists task } }
    {
        let item = task.index();
        if let Some(list) = self.links.place(item) {
            self.links.remove(item);
            let filled = self.links.first(list).is_some();
            write_bit(&mut self.words, list, filled);
            find_top(&mut self.tops, &self.words, &self.links, list / 32);
        }
    }

    /// The first task of a list becomes its last. In TOPPERS/FMP: rotate_ready_queue.
    pub fn rotate(&mut self, processor: Proc, priority: Pri)
        ensures { let i = list_number processor priority in self.new ≡ record self.old { lists = slice_set self.old.lists i (rotated (queue_at self.old.lists i)) } }
    {
        let list = list_of(processor, priority);
        self.links.rotate(list);
        find_top(&mut self.tops, &self.words, &self.links, list / 32);
    }

    /// The first task of a processor, by priority and then by place. In TOPPERS/FMP: search_schedtsk.
    pub fn top(&self, processor: Proc) -> Option<Task>
        ensures { result ≡ top_of self.now.lists processor }
    {
        numbered(self.tops[processor.index()])
    }

    /// The numbers of the first tasks of all processors, in the order of the processors, and 0 where there is none.
    pub fn tops(&self) -> [u8; 8]
        ensures count { length result ≡ 8 }
        ensures each { (k : ℕ) → k < 8 → slice_index result k ≡ task_number (top_at self.now.lists k) }
    {
        self.tops
    }

    /// The first task of a priority on a processor.
    pub fn first(&self, processor: Proc, priority: Pri) -> Option<Task>
        ensures { result ≡ first_of (queue_at self.now.lists (list_number processor priority)) }
    {
        let item = self.links.first(list_of(processor, priority))?;
        Some(Task::from_index(item))
    }

    /// The list of a processor and a priority.
    pub fn list(&self, processor: Proc, priority: Pri) -> ArrayVec<Task, 64>
        ensures items { result.items ≡ queue_at self.now.lists (list_number processor priority) }
        ensures disjoint { AreDisjoint self.now.lists }
    {
        let mut tasks = ArrayVec::new();
        let mut item = self.links.first(list_of(processor, priority));
        for _ in 0..64usize {
            match item {
                Some(here) => {
                    tasks.push(Task::from_index(here));
                    item = self.links.next(here);
                }
                None => return tasks,
            }
        }
        tasks
    }

    /// A bit for each priority of a processor, the lowest for the highest, set where that list is not empty. In TOPPERS/FMP: ready_primap.
    pub fn word(&self, processor: Proc) -> u32
        ensures { (priority : AnyPri) → bit_at result (priority.number - 1) ≡ bit_of (queue_at self.now.lists (list_number processor priority)) }
    {
        self.words[processor.index()]
    }
}

impl Part for ReadyQueues {
    ghost fits = { λ a b. Unit {0} };

    fn is_same(&self, other: &Self) -> bool {
        self.links.is_same(&other.links)
    }

    fn copy_from(&mut self, other: &Self) {
        self.links.copy_from(&other.links);
        self.words = other.words;
        self.tops = other.tops;
    }
}

impl ToDigest for ReadyQueues {
    ghost digested = { λ q sum. added_lists q.lists sum };

    fn add_to(&self, digest: &mut Digest) {
        self.links.add_to(digest);
    }
}

impl Value for ReadyQueues {
    ghost hashed = { λ q. told (added_lists q.lists seed) };

    fn is_same(&self, other: &Self) -> bool {
        Part::is_same(self, other)
    }

    fn hash(&self) -> u64 {
        part_hash(self)
    }

    fn another(&self) -> Result<Self, AllocError> {
        let mut other = ReadyQueues::new();
        other.copy_from(self);
        Ok(other)
    }
}

/// The number of the list of a processor and a priority.
fn list_of(processor: Proc, priority: Pri) -> usize
    ensures value { result ≡ list_number processor priority }
    ensures in_range { result < 256 }
{
    32 * processor.index() + priority.index()
}

/// The first task of a processor at a place, found by its word.
fn first_at(words: &[u32; 8], links: &Links<320, 64>, processor: usize) -> Option<Task>
    requires place { processor < 8 }
    requires kept { IsKept words.now links.now }
    ensures { result ≡ top_at (tasks_of links.now) processor }
{
    let place = lowest_bit(words[processor])?;
    let item = links.first(32 * processor + place)?;
    Some(Task::from_index(item))
}

/// The task of this number, or none where it is 0.
fn numbered(number: u8) -> Option<Task>
    requires { number ≤ 64 }
    ensures { (task : Option AnyTask) → number ≡ task_number task → result ≡ task }
{
    if number == 0 {
        None
    } else {
        Some(Task::new(number))
    }
}

/// Finds the first task of a processor at a place anew.
fn find_top(tops: &mut [u8; 8], words: &[u32; 8], links: &Links<320, 64>, processor: usize)
    requires place { processor < 8 }
    requires kept { IsKept words.now links.now }
    ensures { tops.new ≡ slice_set tops.old processor (task_number (top_at (tasks_of links.now) processor)) }
{
    tops[processor] = Task::number_of(first_at(words, links, processor));
}

/// The place of the lowest bit that is set.
fn lowest_bit(word: u32) -> Option<usize>
    ensures none { result ≡ None → word ≡ 0 }
    ensures some { (k : ℕ) → result ≡ Some k → (k < 32) × (bit_at word k ≡ 1) × ((i : ℕ) → i < k → bit_at word i ≡ 0) }
{
    if word == 0 {
        return None;
    }
    Some(word.trailing_zeros() as usize)
}

/// Writes the bit of a list, which is set where the list is filled.
fn write_bit(words: &mut [u32; 8], list: usize, filled: bool)
    requires { list < 256 }
    ensures { (p k : ℕ) → p < 8 → k < 32 →
        bit_at (slice_index words.new p) k ≡ (if (32 * p + k) == list then (if filled then 1 else 0) else bit_at (slice_index words.old p) k) }
{
    let bit = 1 << (list % 32);
    if filled {
        words[list / 32] |= bit;
    } else {
        words[list / 32] &= !bit;
    }
}
