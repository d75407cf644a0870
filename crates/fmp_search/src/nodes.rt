//! The places that were found, and the steps that lead to them.
ghost use Rattle.std.specs.Prelude.{◌≤◌, length, IfOk};
ghost use Rattle.fmp_search.specs.Trees.{IsRunOver, IsTree};

use crate::paths::path_to;
use crate::space::Space;
use std::alloc::{AllocError, Global};

/// A place, by the place before it and the step between them. Place 0 is where all runs begin, and has no node; the node of number k is that of place k + 1.
#[derive(Clone, Copy)]
pub struct Node {
    pub parent: u32,
    pub step: u8,
}

/// The numbers of the steps from where all runs begin to the place of a number, the first step first, and one step more. The error is want of memory.
pub(crate) fn steps_over<W: Space>(
    alloc: Global,
    _walker: &W,
    nodes: &[Node],
    at: usize,
    last: u8,
) -> Result<Vec<u8>, AllocError>
    requires tree { IsTree W.after (W.origin _walker.now) nodes.now }
    requires place { at ≤ length nodes.now }
    ensures { IfOk result (λ v. IsRunOver W.after (W.origin _walker.now) nodes.now at last v.items) }
{
    let mut steps = path_to(alloc, nodes, at)?;
    steps.push(last)?;
    Ok(steps)
}
