//! The steps to a place.
ghost use Rattle.std.specs.Prelude.{◌≡◌, ◌≤◌, length, IfOk};
ghost use Rattle.fmp_search.specs.Steps.{path_at, AreAfter};

use crate::nodes::Node;
use std::alloc::{AllocError, Global};

/// The numbers of the steps from where all runs begin to the place of a number, the first step first. The error is want of memory.
pub(crate) fn path_to(alloc: Global, nodes: &[Node], at: usize) -> Result<Vec<u8>, AllocError>
    requires following { AreAfter nodes.now }
    requires place { at ≤ length nodes.now }
    ensures { IfOk result (λ v. v.items ≡ path_at nodes.now at) }
{
    let mut steps = Vec::new(alloc);
    let mut place = at;
    while place > 0 {
        let node = nodes[place - 1];
        steps.push(node.step)?;
        place = node.parent as usize;
    }
    steps.reverse();
    Ok(steps)
}
