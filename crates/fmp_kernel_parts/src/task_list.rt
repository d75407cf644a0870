//! One list of tasks.
ghost use Rattle.std.specs.Prelude.{◌≡◌, ◌≤◌, ◌&&◌, false, true, is_none, length, List, [], ◌∷◌, ◌++◌};
ghost use Rattle.fmp_codes.specs.declared.numbers.Task.{Task as AnyTask};
ghost use Rattle.fmp_kernel_parts.specs.Digests.{added_all, added_task};
ghost use Rattle.fmp_kernel_parts.specs.Lists.{first_of};
ghost use Rattle.fmp_kernel_parts.specs.Tasks.{has_task, without, inserted, AreDistinct};

use crate::links::Links;
use crate::{Digest, Part, ToDigest};
use arrayvec::ArrayVec;
use fmp_codes::Task;
use std::marker::Model;

/// A list of tasks, none of them twice.
#[derive(Drop)]
pub struct TaskList {
    links: Links<65, 64>,
}

impl Model for TaskList {
    ghost use Rattle.std.specs.Prelude.{List, map};
    ghost use Rattle.fmp_codes.specs.declared.numbers.Task.{Task as TheTask};
    ghost use Rattle.fmp_kernel_parts.specs.Lists.{list_at};
    ghost use Rattle.fmp_kernel_parts.specs.Tasks.{task_at, IsOneList};

    ghost Value = { List TheTask };

    ghost view = { λ a. map task_at (list_at a.links 0) };

    ghost invariant = { λ a. IsOneList a.links };
}

impl TaskList {
    /// No task.
    pub fn new() -> Self
        ensures { result ≡ [] }
    {
        TaskList {
            links: Links::new(),
        }
    }

    /// A task that is not there becomes the last.
    pub fn push_last(&mut self, task: Task)
        requires { has_task task self.old ≡ false }
        ensures { self.new ≡ self.old ++ task ∷ [] }
    {
        self.links.push_last(0, task.index());
    }

    /// A task that is not there goes before one that is.
    pub fn insert_before(&mut self, following: Task, task: Task)
        requires there { has_task following self.old ≡ true }
        requires nowhere { has_task task self.old ≡ false }
        ensures { self.new ≡ inserted following task self.old }
    {
        self.links.insert_before(0, following.index(), task.index());
    }

    /// A task is not there any more. Tells whether it was.
    pub fn remove(&mut self, task: Task) -> bool
        ensures tasks { self.new ≡ without task self.old }
        ensures there { result ≡ has_task task self.old }
    {
        let item = task.index();
        let is_there = self.links.place(item).is_some();
        self.links.take_out(item);
        is_there
    }

    /// Whether no task is there.
    pub fn is_empty(&self) -> bool
        ensures { result ≡ is_none (first_of self.now) }
    {
        self.first().is_none()
    }

    /// Whether no task is there and in another list neither. Then both are the same, and their links need no look.
    pub fn are_empty(&self, other: &Self) -> bool
        ensures { result ≡ (is_none (first_of self.now) && is_none (first_of other.now)) }
    {
        self.is_empty() && other.is_empty()
    }

    /// The first task.
    pub fn first(&self) -> Option<Task>
        ensures value { result ≡ first_of self.now }
        ensures few { length self.now ≤ 64 }
    {
        let item = self.links.first(0)?;
        Some(Task::from_index(item))
    }

    /// The task after another one.
    pub fn next(&self, task: Task) -> Option<Task>
        ensures { (before following : List AnyTask) → self.now ≡ before ++ task ∷ following → result ≡ first_of following }
    {
        let item = self.links.next(task.index())?;
        Some(Task::from_index(item))
    }

    /// All tasks.
    pub fn list(&self) -> ArrayVec<Task, 64>
        ensures tasks { result.items ≡ self.now }
        ensures distinct { AreDistinct self.now }
    {
        let mut tasks = ArrayVec::new();
        let mut item = self.links.first(0);
        for _ in 0..64usize {
            match item {
                Some(here) => {
                    tasks.push(Task::from_index(here));
                    item = self.links.next(here);
                }
                None => return tasks,
            }
        }
        tasks
    }
}

impl Part for TaskList {
    ghost fits = { λ a b. Unit {0} };

    fn is_same(&self, other: &Self) -> bool {
        self.are_empty(other) || self.links.is_same(&other.links)
    }

    fn copy_from(&mut self, other: &Self) {
        if !self.are_empty(other) {
            self.links.copy_from(&other.links);
        }
    }
}

impl ToDigest for TaskList {
    ghost digested = { λ ts sum. added_all added_task ts sum };

    /// Adds the tasks, the first one first.
    fn add_to(&self, digest: &mut Digest) {
        let mut here = self.first();
        for _ in 0..64usize {
            match here {
                Some(task) => {
                    digest.add(u64::from(task.number));
                    here = self.next(task);
                }
                None => return,
            }
        }
    }
}
