//! The records of all tasks.
ghost use Rattle.std.specs.Prelude.{◌≡◌, ◌≤◌, length, map};
ghost use Rattle.fmp_rules.specs.World.{item, with_item, no_task, resting};

use crate::resting::all_resting;
use arrayvec::ArrayVec;
use fmp_codes::Task;
use fmp_kernel_parts::Part;
use fmp_kernel_same::are_equal;
use fmp_rules::{TaskRecord, TaskSetup};
use std::marker::Model;

/// The records of the tasks, in the order of their numbers. There are at most 64.
#[derive(Drop)]
pub struct Tasks {
    records: ArrayVec<TaskRecord, 64>,
}

impl Model for Tasks {
    ghost use Rattle.std.specs.Prelude.{◌≤◌, List, length};
    ghost use Rattle.fmp_rules.specs.declared.machine.TaskRecord.{TaskRecord as AnyTaskRecord};

    ghost Value = { List AnyTaskRecord };

    ghost view = { λ a. a.records.items };

    ghost invariant = { λ a. length a.records.items ≤ 64 };
}

impl Tasks {
    /// These tasks, all dormant, at the initial processors of their classes.
    pub fn new(setups: &[TaskSetup]) -> Self
        requires { length setups.now ≤ 64 }
        ensures { result ≡ map resting setups.now }
    {
        Tasks {
            records: all_resting(setups),
        }
    }

    /// How many tasks there are.
    pub fn len(&self) -> usize
        ensures value { result ≡ length self.now }
        ensures few { result ≤ 64 }
    {
        self.records.len()
    }

    /// The record of a task, or a blank one where there is none of its number.
    pub fn get(&self, t: Task) -> TaskRecord
        ensures { result ≡ item no_task self.now t.number }
    {
        let records = self.records.as_slice();
        records
            .get(t.index())
            .copied()
            .unwrap_or(TaskRecord::default())
    }

    /// The records, in the order of the tasks' numbers.
    pub fn as_slice(&self) -> &[TaskRecord]
        ensures { result.now ≡ self.now }
    {
        self.records.as_slice()
    }

    /// Changes the record of a task, if there is one of its number.
    pub fn set(&mut self, t: Task, changed: TaskRecord)
        ensures { self.new ≡ with_item self.old t.number changed }
    {
        if let Some(place) = self.records.get_mut(t.index()) {
            *place = changed;
        }
    }
}

impl Part for Tasks {
    ghost fits = { λ a b. Unit {0} };

    fn is_same(&self, other: &Self) -> bool {
        are_equal(self.records.as_slice(), other.records.as_slice())
    }

    fn copy_from(&mut self, other: &Self) {
        self.records.clear();
        self.records
            .try_extend_from_slice(other.records.as_slice())
            .unwrap();
    }
}
