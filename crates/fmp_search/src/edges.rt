//! The steps between places that were found, in 12 bytes each.
ghost use Rattle.std.specs.Prelude.{◌≡◌, ◌<◌, ◌++◌, ◌∷◌, [], length, slice_get, Some, OnOk, OnErr};

use crate::kinds::Kind;
use fmp_interned::Interned;
use std::alloc::{AllocError, Global};
use std::marker::Model;

/// A step between two places, by their numbers, and the tests that it passes.
#[derive(Clone, Copy)]
pub struct Edge {
    pub passes: u64,
    pub from: u32,
    pub to: u32,
    pub step: u8,
}

/// An edge, with the number of its kind in place of its step and tests.
#[derive(Clone, Copy)]
pub(crate) struct Link {
    from: u32,
    to: u32,
    kind: u32,
}

/// Edges. To contracts it is their list.
#[derive(Drop)]
pub(crate) struct Edges {
    links: Vec<Link>,
    kinds: Interned<Kind>,
}

impl Model for Edges {
    ghost use Rattle.std.specs.Prelude.{List};
    ghost use Rattle.fmp_search.specs.declared.edges.Edge.{Edge};
    ghost use Rattle.fmp_search.specs.Kinds.{edges_of, AreKnown};

    ghost Value = { List Edge };

    ghost view = { λ e. edges_of e.kinds e.links.items };

    ghost invariant = { λ e. AreKnown e.kinds e.links.items };
}

impl Edges {
    /// No edges.
    pub(crate) fn new(alloc: Global) -> Edges
        ensures { result ≡ [] }
    {
        Edges {
            links: Vec::new(alloc),
            kinds: Interned::new(alloc),
        }
    }

    /// How many edges there are.
    pub(crate) fn len(&self) -> usize
        ensures { result ≡ length self.now }
    {
        self.links.len()
    }

    /// The edge of a number.
    pub(crate) fn get(&self, at: usize) -> Edge
        requires { at < length self.now }
        ensures { slice_get self.now at ≡ Some result }
    {
        let link = self.links[at];
        let kind = self.kinds.get(link.kind);
        Edge {
            passes: kind.passes,
            from: link.from,
            to: link.to,
            step: kind.step,
        }
    }

    /// Adds an edge after the others. The error is want of memory, and leaves them as they were.
    pub(crate) fn push(&mut self, edge: Edge) -> Result<(), AllocError>
        ensures added { OnOk result (self.new ≡ self.old ++ edge ∷ []) }
        ensures left { OnErr result (self.new ≡ self.old) }
    {
        let kind = self.kinds.number_of(&Kind {
            passes: edge.passes,
            step: edge.step,
        })?;
        self.links.push(Link {
            from: edge.from,
            to: edge.to,
            kind,
        })?;
        Ok(())
    }
}
