//! Going through places, the nearest first.
ghost use Rattle.std.specs.Prelude.{◌≡◌, ◌<◌, ◌^◌, IfOk};
ghost use Rattle.fmp_search.specs.Surveys.{Surveys};

use crate::chart::Chart;
use crate::layer::{Front, Layer, open_layer};
use crate::nodes::Node;
use crate::progress::Progress;
use crate::space::Space;
use crate::store::Store;
use std::alloc::{AllocError, Global};

/// What came of going through places: how the last layer went, the places that were found, and how many of the first were opened, with the edges from
/// there. All places of runs of at most so many steps are among them. The tables by which they were found and made again
/// are gone.
#[derive(Drop)]
pub(crate) struct Survey {
    pub(crate) how: Layer,
    pub(crate) nodes: Vec<Node>,
    pub(crate) chart: Chart,
    pub(crate) depth: u32,
}

impl Survey {
    fn of<T: Drop>(how: Layer, store: Store<T>, chart: Chart, depth: u32) -> Survey
        ensures { result ≡ record { how = how; nodes = store.nodes; chart = chart; depth = depth } }
    {
        Survey {
            how,
            nodes: store.nodes,
            chart,
            depth,
        }
    }
}

/// Goes through all places, the nearest first, until one is found that is looked for: up to so many steps from where all runs begin, and with room for so
/// many besides the first. Whether the edges between them are kept is given, and for how many of the numbers that are told of steps there is a mark. The error
/// is want of memory.
pub(crate) fn go_through<W: Space + Drop, P: Progress>(
    alloc: Global,
    walker: &mut W,
    base: &mut W,
    progress: &mut P,
    turns: u32,
    most: u32,
    kept: bool,
    count: usize,
) -> Result<Survey, AllocError>
    requires origin { W.origin base.old ≡ W.origin walker.old }
    requires turns { turns < 2 ^ 31 }
    ensures surveys { IfOk result (Surveys W.after W.passes W.tells W.wanted (W.origin walker.old) turns most (P.over progress.new) kept count) }
    ensures origin { IfOk result (λ s. W.origin walker.new ≡ W.origin walker.old) }
{
    walker.restart()?;
    let mut tables = walker.tables()?;
    let first = walker.pack(&mut tables)?;
    let mut store = Store::new(alloc, tables, first, most)?;
    let mut chart = Chart::new(alloc, kept, count)?;
    if walker.is_wanted() {
        let none = Layer::Found(Vec::new(alloc));
        return Ok(Survey::of(none, store, chart, 0));
    }
    let mut begin = 0;
    for depth in 0..turns {
        let end = store.count();
        if begin == end {
            return Ok(Survey::of(Layer::Done, store, chart, depth));
        }
        let front = Front { depth, end };
        let how = open_layer(
            alloc, walker, base, progress, &mut store, &mut chart, front, begin,
        )?;
        match how {
            Layer::Done => begin = end,
            _ => return Ok(Survey::of(how, store, chart, depth)),
        }
    }
    Ok(Survey::of(Layer::Done, store, chart, turns))
}
