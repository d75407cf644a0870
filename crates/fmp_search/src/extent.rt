//! How far a search went.
ghost use Rattle.std.specs.Prelude.{◌<◌, ◌^◌, length, IfOk};
ghost use Rattle.fmp_search.specs.Extents.{IsExtent, IsExtentBeside};
ghost use Rattle.fmp_search.specs.Steps.{AreAfter};

use crate::layer::Layer;
use crate::nodes::Node;
use crate::surveying::Survey;
use std::alloc::{AllocError, Global};

/// How many places a search found, the one where all runs begin among them, and by how many steps it found the farthest.
#[derive(Clone, Copy)]
pub struct Extent {
    pub places: usize,
    pub farthest: u32,
}

/// How many places there are, and how many steps lead to the farthest. The error is want of memory.
pub(crate) fn extent_of(alloc: Global, nodes: &[Node]) -> Result<Extent, AllocError>
    requires following { AreAfter nodes.now }
    requires few { length nodes.now < 2 ^ 32 }
    ensures { IfOk result (IsExtent nodes.now) }
{
    let mut depths: Vec<u32> = Vec::new(alloc);
    depths.push(0)?;
    let mut farthest: u32 = 0;
    for node in nodes {
        let depth = depths[node.parent as usize] + 1;
        depths.push(depth)?;
        farthest = farthest.max(depth);
    }
    Ok(Extent {
        places: nodes.len() + 1,
        farthest,
    })
}

/// How far a search went, and none where it found what is looked for. The error is want of memory.
pub(crate) fn extent_beside(alloc: Global, survey: &Survey) -> Result<Option<Extent>, AllocError>
    requires following { AreAfter survey.now.nodes.items }
    requires few { length survey.now.nodes.items < 2 ^ 32 }
    ensures { IfOk result (IsExtentBeside survey.now.nodes.items survey.now.how) }
{
    match survey.how {
        Layer::Found(_) => Ok(None),
        _ => Ok(Some(extent_of(alloc, &survey.nodes)?)),
    }
}
