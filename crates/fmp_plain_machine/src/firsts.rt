//! What comes first on each processor.
ghost use Rattle.std.specs.Prelude.{◌≡◌, ◌≤◌, ◌<◌, ℕ, None, length, replicate, slice_index, slice_index_or, slice_set};
ghost use Rattle.fmp_step_words.specs.Numbered.{numbered};

use fmp_codes::Task;
use std::marker::Model;

/// The task that comes first on each of eight processors.
#[derive(Drop)]
pub(crate) struct Firsts {
    /// The number of each task, or 0 where there is none: so the tops of an event are there as one word.
    numbers: [u8; 8],
}

impl Model for Firsts {
    ghost use Rattle.std.specs.Prelude.{List, Option, map};
    ghost use Rattle.fmp_codes.specs.declared.numbers.Task.{Task as AnyTask};
    ghost use Rattle.fmp_step_words.specs.Numbered.{numbered, AreNumbers};

    ghost Value = { List (Option AnyTask) };

    ghost view = { λ a. map numbered a.numbers };

    ghost invariant = { λ a. AreNumbers a.numbers 8 };
}

impl Firsts {
    /// No task on any processor.
    pub(crate) fn none() -> Firsts
        ensures { result ≡ replicate 8 None }
    {
        Firsts { numbers: [0; 8] }
    }

    /// The task at a place, if there is one.
    #[inline(always)]
    pub(crate) fn at(&self, index: usize) -> Option<Task>
        ensures { result ≡ slice_index_or self.now index None }
    {
        if index < 8 {
            task_of(self.numbers[index])
        } else {
            None
        }
    }

    /// Changes what comes first at a place.
    #[inline(always)]
    pub(crate) fn set(&mut self, index: usize, first: Option<Task>)
        requires { index < 8 }
        ensures { self.new ≡ slice_set self.old index first }
    {
        self.numbers[index] = number_of(first);
    }

    /// The number of each task, or 0 where there is none.
    #[inline(always)]
    pub(crate) fn numbers(&self) -> [u8; 8]
        ensures count { length result ≡ 8 }
        ensures few { (k : ℕ) → slice_index result k ≤ 64 }
        ensures each { (k : ℕ) → numbered (slice_index result k) ≡ slice_index_or self.now k None }
    {
        self.numbers
    }
}

/// The task of this number, or none where it is 0.
#[inline(always)]
fn task_of(number: u8) -> Option<Task>
    requires { number ≤ 64 }
    ensures { result ≡ numbered number }
{
    if number == 0 {
        None
    } else {
        Some(Task::new(number))
    }
}

/// The number of a task, or 0 where there is none.
#[inline(always)]
fn number_of(task: Option<Task>) -> u8
    ensures value { numbered result ≡ task }
    ensures few { result ≤ 64 }
{
    match task {
        Some(task) => task.number,
        None => 0,
    }
}
