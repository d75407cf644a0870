//! The tops of all processors at one moment.
ghost use Rattle.std.specs.Prelude.{◌≡◌, ◌≤◌, ℕ, None, IsTrue, length, map, take, slice_index, ◌↔◌};
ghost use Rattle.fmp_rules.specs.World.{item};
ghost use Rattle.fmp_step_words.specs.Numbered.{numbered};

use fmp_codes::{Proc, Task};
use std::marker::Model;

/// The task that comes first on each of so many processors, in the order of their numbers.
#[derive(Drop)]
pub struct Tops {
    /// The number of each task, or 0 where there is none: all eight are one word, so that they are compared at once.
    numbers: [u8; 8],
    count: usize,
}

impl Model for Tops {
    ghost use Rattle.std.specs.Prelude.{List, Option, map, take};
    ghost use Rattle.fmp_codes.specs.declared.numbers.Task.{Task as AnyTask};
    ghost use Rattle.fmp_step_words.specs.Numbered.{numbered as named, AreNumbers};

    ghost Value = { List (Option AnyTask) };

    ghost view = { λ a. map named (take a.count a.numbers) };

    ghost invariant = { λ a. AreNumbers a.numbers a.count };
}

impl Tops {
    /// The tasks of the first so many of these numbers, each that of a task or 0.
    pub fn new(numbers: [u8; 8], count: usize) -> Self
        requires few { count ≤ 8 }
        requires tasks { (k : ℕ) → slice_index numbers k ≤ 64 }
        ensures { result ≡ map numbered (take count numbers) }
    {
        Tops { numbers, count }
    }

    /// The task of a processor, or none where there is no processor of its number.
    pub fn of(&self, p: Proc) -> Option<Task>
        ensures { result ≡ item None self.now p.number }
    {
        let place = p.index();
        if place < self.count {
            numbered(self.numbers[place])
        } else {
            None
        }
    }

    /// Whether both have the same task on each of as many processors.
    pub fn is_same(&self, other: &Tops) -> bool
        ensures same { IsTrue result ↔ (self.now ≡ other.now) }
        ensures few { length self.now ≤ 8 }
    {
        if u64::from_le_bytes(self.numbers) == u64::from_le_bytes(other.numbers) {
            return self.count == other.count;
        }
        self.numbers[..self.count] == other.numbers[..other.count]
    }
}

/// The task of this number, or none where it is 0.
fn numbered(number: u8) -> Option<Task>
    requires { number ≤ 64 }
    ensures { result ≡ numbered number }
{
    if number == 0 {
        None
    } else {
        Some(Task::new(number))
    }
}
