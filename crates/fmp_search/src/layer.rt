//! One layer of places: those that are found by so many steps and by no fewer.
ghost use Rattle.std.specs.Prelude.{◌≡◌, ◌≤◌, ◌<◌, ◌+◌, false, true, length, None, Some, IfOk};
ghost use Rattle.std.specs.Int.{bit_at};
ghost use Rattle.fmp_search.specs.Runs.{AreClosed, IsWatched};
ghost use Rattle.fmp_search.specs.Trees.{found_at, Stands};
ghost use Rattle.fmp_search.specs.Growth.{Extends};
ghost use Rattle.fmp_search.specs.Fronts.{Advances, IsFront, IsOpen, Numbers, Stays};

use crate::chart::Chart;
use crate::edges::Edge;
use crate::nodes::{Node, steps_over};
use crate::progress::Progress;
use crate::space::{Noted, Space};
use crate::store::Store;
use std::alloc::{AllocError, Global};

/// How steps from places of a layer went.
#[derive(Drop)]
pub(crate) enum Layer {
    /// These steps lead to a place that is looked for.
    Found(Vec<u8>),
    /// There is no room for another place.
    Full,
    /// There was no memory for another place or for the edge to it, or no memory or number for the parts of a place.
    Wanting,
    /// The search was ended before.
    Over,
    Done,
}

/// The layer that is opened: its places are found by so many steps, and those after it begin with this number.
#[derive(Clone, Copy)]
pub(crate) struct Front {
    pub(crate) depth: u32,
    pub(crate) end: usize,
}

/// What is known of a place to which a step leads.
pub(crate) enum Placed {
    /// It has this number.
    At(u32),
    /// It is new, and there is no room for it.
    Full,
    /// There was no memory for it, or no memory or number for its parts.
    Wanting,
}

/// The number of the place where a walker stands, to which a step leads from the place of a number. It is added where it is new, and where there is room and
/// memory for it.
fn number_of<W: Space + Drop>(
    walker: &W,
    store: &mut Store<W::Tables>,
    front: Front,
    at: usize,
    step: u8,
) -> Placed
    requires front { IsFront W.after (W.IsKey (W.origin walker.now) store.old.tables) store.old.keys W.wanted (W.origin walker.now) front.depth front.end
        store.old.nodes.items at step }
    requires place { at < front.end }
    requires made { W.after (found_at W.after (W.origin walker.now) store.old.nodes.items at).place step ≡ Some (W.place walker.now) }
    requires clean { W.wanted (W.place walker.now) ≡ false }
    ensures number { Numbers W.after (W.IsKey (W.origin walker.now) store.new.tables) store.new.keys W.wanted (W.origin walker.now) front.depth
        front.end store.old.most store.old.nodes.items at step (W.place walker.now) result store.new.nodes.items }
    ensures stays { store.new.most ≡ store.old.most }
{
    let Ok(key) = walker.pack(&mut store.tables) else {
        return Placed::Wanting;
    };
    if let Some(number) = store.keys.find(&key) {
        return Placed::At(number);
    }
    if store.is_full() {
        return Placed::Full;
    }
    let node = Node {
        parent: at as u32,
        step,
    };
    match store.push(node, key) {
        Ok(()) => Placed::At(store.nodes.len() as u32),
        Err(AllocError) => Placed::Wanting,
    }
}

/// Whether a number has the bit of a step.
fn is_closed(closed: u64, step: u8) -> bool
    ensures { result ≡ true → bit_at closed step ≡ 1 }
{
    step < 64 && closed >> step & 1 == 1
}

/// Whether a step may be one that can be made from where `base` stands, if those of these bits cannot.
fn may_try<W: Space + Drop>(base: &W, closed: u64, step: u8) -> bool
    requires { AreClosed W.after (W.place base.now) closed }
    ensures { result ≡ false → W.after (W.place base.now) step ≡ None }
{
    !is_closed(closed, step) && base.may_go(step)
}

/// Makes the step of a number from the place where `base` stands, and tells which tests it passes, and its number. None where it cannot be made. Steps that it shows
/// to be none from there are added to `closed`. The error is want of memory.
fn step_from<W: Space + Drop>(
    walker: &mut W,
    base: &W,
    step: u8,
    closed: &mut u64,
) -> Result<Option<Noted>, AllocError>
    requires origin { W.origin base.now ≡ W.origin walker.old }
    requires room { 0 < W.room base.now }
    requires closed { AreClosed W.after (W.place base.now) closed.old }
    ensures watched { IfOk result (λ report. IsWatched W.after W.passes W.tells (W.place base.now) step report (W.place walker.new) closed.new) }
    ensures origin { W.origin walker.new ≡ W.origin walker.old }
{
    if !may_try(base, *closed, step) {
        return Ok(None);
    }
    walker.copy_from(base)?;
    walker.watch(step, closed)
}

/// Tries a step from the place where `base` stands, adds the place it leads to where that is new and not looked for, and the edge to there. It is done,
/// too, where the step cannot be made. The error is want of memory to make the step, or for the list of the steps to a place that is looked for.
fn try_step<W: Space + Drop>(
    alloc: Global,
    walker: &mut W,
    base: &W,
    store: &mut Store<W::Tables>,
    chart: &mut Chart,
    front: Front,
    at: usize,
    step: u8,
    closed: &mut u64,
) -> Result<Layer, AllocError>
    requires opening { IsOpen W.after (W.IsKey (W.origin walker.old) store.old.tables) store.old.keys W.passes W.tells W.wanted (W.origin walker.old) front.depth front.end
        store.old.nodes.items chart.old at step }
    requires place { at < front.end }
    requires base { Stands W.place W.room W.origin W.after (W.origin walker.old) store.old.nodes.items at base.now }
    requires closed { AreClosed W.after (W.place base.now) closed.old }
    ensures advances { IfOk result (Advances W.after (W.IsKey (W.origin walker.old) store.new.tables) store.new.keys W.passes W.tells W.wanted (W.origin walker.old) front.depth
        front.end store.old.most false store.new.nodes.items chart.new at (step + 1)) }
    ensures stays { IfOk result (λ how. Stays W.origin (W.origin walker.old) walker.new base.now store.old.most store.new.most
        chart.old.kept (length chart.old.marks.items) chart.new) }
    ensures extends { IfOk result (λ how. Extends W.after (W.origin walker.old) store.old.nodes.items store.new.nodes.items) }
    ensures closed { IfOk result (λ how. AreClosed W.after (W.place base.now) closed.new) }
{
    let Some(noted) = step_from(walker, base, step, closed)? else {
        return Ok(Layer::Done);
    };
    if walker.is_wanted() {
        return Ok(Layer::Found(steps_over(alloc, walker, &store.nodes, at, step)?));
    }
    let to = match number_of(walker, store, front, at, step) {
        Placed::At(to) => to,
        Placed::Full => return Ok(Layer::Full),
        Placed::Wanting => return Ok(Layer::Wanting),
    };
    let edge = Edge {
        passes: noted.passes,
        from: at as u32,
        to,
        step,
    };
    match chart.add(edge, noted.number) {
        Ok(()) => Ok(Layer::Done),
        Err(AllocError) => Ok(Layer::Wanting),
    }
}

/// Makes `base` stand at the place of a number and tries all steps from there, until one finds what is looked for, or there is no room for another place, or
/// no memory for one, for its parts or for the edge to it. The error is want of memory for anything else.
fn open_place<W: Space + Drop>(
    alloc: Global,
    walker: &mut W,
    base: &mut W,
    store: &mut Store<W::Tables>,
    chart: &mut Chart,
    front: Front,
    at: usize,
) -> Result<Layer, AllocError>
    requires opening { IsOpen W.after (W.IsKey (W.origin walker.old) store.old.tables) store.old.keys W.passes W.tells W.wanted (W.origin walker.old) front.depth front.end
        store.old.nodes.items chart.old at 0 }
    requires place { at < front.end }
    requires origin { W.origin base.old ≡ W.origin walker.old }
    ensures advances { IfOk result (Advances W.after (W.IsKey (W.origin walker.old) store.new.tables) store.new.keys W.passes W.tells W.wanted (W.origin walker.old) front.depth
        front.end store.old.most false store.new.nodes.items chart.new (at + 1) 0) }
    ensures stays { IfOk result (λ how. Stays W.origin (W.origin walker.old) walker.new base.new store.old.most store.new.most
        chart.old.kept (length chart.old.marks.items) chart.new) }
{
    let key = store.key_of(at);
    base.unpack(&mut store.tables, key)?;
    let steps = base.steps();
    let mut closed = 0;
    for step in 0..steps {
        match try_step(
            alloc,
            walker,
            base,
            store,
            chart,
            front,
            at,
            step,
            &mut closed,
        )? {
            Layer::Done => {}
            how => return Ok(how),
        }
    }
    chart.opened = at + 1;
    Ok(Layer::Done)
}

/// All steps from the places of a layer, which begins with a number, unless the search is ended before.
pub(crate) fn open_layer<W: Space + Drop, P: Progress>(
    alloc: Global,
    walker: &mut W,
    base: &mut W,
    progress: &mut P,
    store: &mut Store<W::Tables>,
    chart: &mut Chart,
    front: Front,
    begin: usize,
) -> Result<Layer, AllocError>
    requires opening { IsOpen W.after (W.IsKey (W.origin walker.old) store.old.tables) store.old.keys W.passes W.tells W.wanted (W.origin walker.old) front.depth front.end
        store.old.nodes.items chart.old begin 0 }
    requires place { begin ≤ front.end }
    requires origin { W.origin base.old ≡ W.origin walker.old }
    ensures advances { IfOk result (Advances W.after (W.IsKey (W.origin walker.old) store.new.tables) store.new.keys W.passes W.tells W.wanted (W.origin walker.old) front.depth
        front.end store.old.most (P.over progress.new) store.new.nodes.items chart.new front.end 0) }
    ensures stays { IfOk result (λ how. Stays W.origin (W.origin walker.old) walker.new base.new store.old.most store.new.most
        chart.old.kept (length chart.old.marks.items) chart.new) }
{
    for at in begin..front.end {
        progress.tell(store.count(), front.depth);
        if progress.is_over() {
            return Ok(Layer::Over);
        }
        match open_place(alloc, walker, base, store, chart, front, at)? {
            Layer::Done => {}
            how => return Ok(how),
        }
    }
    Ok(Layer::Done)
}
