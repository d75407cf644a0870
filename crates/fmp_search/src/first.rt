//! The first places of a search, with their keys.
ghost use Rattle.std.specs.Prelude.{◌≡◌, ◌<◌, ◌^◌, Some, IfOk};
ghost use Rattle.fmp_interned.specs.Keys.{AreKeptBy};
ghost use Rattle.fmp_search.specs.First.{AreFirst};
ghost use Rattle.fmp_search.specs.Keys.{AreKeyed};
ghost use Rattle.fmp_search.specs.Trees.{IsTree};

use crate::nodes::Node;
use crate::progress::Progress;
use crate::space::Space;
use crate::surveying::go_through;
use std::alloc::{AllocError, Global};

/// Places by keys, in the order in which a search meets them: that where all runs begin is the first.
#[derive(Drop)]
pub struct Places<T: Drop> {
    /// By which they have keys.
    pub tables: T,
    pub keys: Vec<u64>,
}

/// The key of the place to which a step leads from that of a key. The error is want of memory, or of numbers for parts.
fn key_after<W: Space>(
    walker: &mut W,
    tables: &mut W::Tables,
    key: u64,
    step: u8,
) -> Result<u64, AllocError>
    requires { (p : W.Place) × W.IsKey (W.origin walker.old) tables.old key p }
    ensures key { IfOk result (λ k. (p r : W.Place) → W.IsKey (W.origin walker.old) tables.old key p → W.after p step ≡ Some r
        → W.IsKey (W.origin walker.old) tables.new k r) }
    ensures kept { IfOk result (λ k. AreKeptBy (W.IsKey (W.origin walker.old) tables.old) (W.IsKey (W.origin walker.old) tables.new)) }
    ensures origin { IfOk result (λ k. W.origin walker.new ≡ W.origin walker.old) }
{
    walker.unpack(tables, key)?;
    walker.go(step)?;
    walker.pack(tables)
}

/// The places of these nodes, by keys. The error is want of memory, or of numbers for parts.
fn places_of<W: Space>(
    alloc: Global,
    walker: &mut W,
    nodes: &[Node],
) -> Result<Places<W::Tables>, AllocError>
    requires { IsTree W.after (W.origin walker.old) nodes.now }
    ensures { IfOk result (λ p. AreKeyed W.after (W.IsKey (W.origin walker.old) p.tables) (W.origin walker.old) p.keys.items nodes.now) }
{
    walker.restart()?;
    let mut tables = walker.tables()?;
    let mut keys = Vec::new(alloc);
    let first = walker.pack(&mut tables)?;
    keys.push(first)?;
    for node in nodes {
        let key = key_after(walker, &mut tables, keys[node.parent as usize], node.step)?;
        keys.push(key)?;
    }
    Ok(Places { tables, keys })
}

/// The first places that a search through runs of at most so many steps meets: all, or so many besides the first, if `progress` does not end it before. It takes
/// two whose runs begin at the same place. The error is want of memory, or of numbers for parts.
pub fn first_places<W: Space + Drop, P: Progress>(
    alloc: Global,
    walkers: (W, W),
    progress: &mut P,
    turns: u32,
    most: u32,
) -> Result<Places<W::Tables>, AllocError>
    requires origin { W.origin walkers.1 ≡ W.origin walkers.0 }
    requires turns { turns < 2 ^ 31 }
    ensures { IfOk result (λ p. AreFirst W.after (W.IsKey (W.origin walkers.0) p.tables) (W.origin walkers.0) turns p.keys.items) }
{
    let (mut walker, mut base) = walkers;
    let survey = go_through(
        alloc,
        &mut walker,
        &mut base,
        progress,
        turns,
        most,
        false,
        0,
    )?;
    places_of(alloc, &mut walker, &survey.nodes)
}
