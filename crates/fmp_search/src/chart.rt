//! The edges between places that were found, and the numbers that were told of them.
ghost use Rattle.std.specs.Prelude.{IfOk, OnErr};
ghost use Rattle.fmp_search.specs.Charts.{Adds, AreLeft, IsBlank};
ghost use Rattle.fmp_search.specs.Meeting.{Notes};

use crate::edges::{Edge, Edges};
use std::alloc::{AllocError, Global};

/// Marks a number, if there is a mark for it.
fn mark(marks: &mut [bool], number: u32)
    ensures { Notes number marks.old marks.new }
{
    if (number as usize) < marks.len() {
        marks[number as usize] = true;
    }
}

/// The edges of all steps from so many of the first places, and of some from the next, if they are kept. Each number below a count has a mark, if it was
/// told of one of these steps.
#[derive(Drop)]
pub(crate) struct Chart {
    pub(crate) kept: bool,
    pub(crate) edges: Edges,
    pub(crate) opened: usize,
    pub(crate) marks: Vec<bool>,
}

impl Chart {
    /// No edges yet. Whether others are kept is given, and for how many numbers there is a mark. The error is want of memory.
    pub(crate) fn new(alloc: Global, kept: bool, count: usize) -> Result<Chart, AllocError>
        ensures { IfOk result (λ c. IsBlank kept count c) }
    {
        let marks = vec![in alloc; false; count]?;
        Ok(Chart {
            kept,
            edges: Edges::new(alloc),
            opened: 0,
            marks,
        })
    }

    /// Marks the number that is told of a step, and adds the edge of the step after the others, if they are kept. The error is want of memory, and leaves all as it was.
    pub(crate) fn add(&mut self, edge: Edge, number: u32) -> Result<(), AllocError>
        ensures adds { IfOk result (λ done. Adds edge number self.old self.new) }
        ensures left { OnErr result (AreLeft self.old self.new) }
    {
        if self.kept {
            self.edges.push(edge)?;
        }
        mark(&mut self.marks, number);
        Ok(())
    }
}
