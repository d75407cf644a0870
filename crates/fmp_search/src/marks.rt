//! Marks that spread along edges, from where they lead back to where they come from.
ghost use Rattle.std.specs.Prelude.{◌≡◌, ◌<◌, ◌⊎◌, ℕ, List, Bool, true, false, length};
ghost use Rattle.fmp_search.specs.Forever.{mark_at};
ghost use Rattle.fmp_search.specs.Spreads.{unmarked, AreDue, AreKept, AreWithin, IsSpread};

use crate::edges::{Edge, Edges};

/// Marks the place from which an edge leads, where the one to which it leads is marked. Says whether that mark is new.
fn pass_back(marks: &mut [bool], edge: Edge) -> bool
    requires from { edge.from < length marks.old }
    requires to { edge.to < length marks.old }
    ensures same { result ≡ false → marks.new ≡ marks.old }
    ensures passed { mark_at marks.old edge.to ≡ true → mark_at marks.new edge.from ≡ true }
    ensures kept { AreKept marks.old marks.new }
    ensures fewer { result ≡ true → unmarked marks.new < unmarked marks.old }
    ensures due { (i : ℕ) → mark_at marks.new i ≡ true → (mark_at marks.old i ≡ true) ⊎ ((i ≡ edge.from) × (mark_at marks.old edge.to ≡ true)) }
    ensures long { length marks.new ≡ length marks.old }
{
    if !marks[edge.to as usize] || marks[edge.from as usize] {
        return false;
    }
    marks[edge.from as usize] = true;
    true
}

/// Goes over all edges once, the last one first, and marks what can be. Says whether any mark is new.
fn spread_once(marks: &mut [bool], edges: &Edges) -> bool
    requires within { AreWithin edges.now (length marks.old) }
    ensures done { result ≡ false → IsSpread edges.now marks.new }
    ensures kept { AreKept marks.old marks.new }
    ensures fewer { result ≡ true → unmarked marks.new < unmarked marks.old }
    ensures due { (start : List Bool) → AreDue edges.now start marks.old → AreDue edges.now start marks.new }
    ensures long { length marks.new ≡ length marks.old }
{
    let count = edges.len();
    let mut changed = false;
    for at in 0..count {
        let edge = edges.get(count - 1 - at);
        changed |= pass_back(marks, edge);
    }
    changed
}

/// Marks each place from which a way leads to one that is marked.
pub(crate) fn spread(marks: &mut [bool], edges: &Edges)
    requires within { AreWithin edges.now (length marks.old) }
    ensures done { IsSpread edges.now marks.new }
    ensures kept { AreKept marks.old marks.new }
    ensures due { AreDue edges.now marks.old marks.new }
    ensures long { length marks.new ≡ length marks.old }
{
    let mut more = true;
    while more {
        more = spread_once(marks, edges);
    }
}
