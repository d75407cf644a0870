//! What marks of the places of a graph say of all its runs, and where these end.
ghost use Rattle.std.specs.Prelude.{ℕ, Bool, List};
ghost use Rattle.fmp_search.specs.Answers.{EndsSoon};
ghost use Rattle.fmp_search.specs.Forever.{MarksSay};

use crate::nodes::Node;
use crate::space::Space;

/// Where each step from a place without a mark passes a test and leads to one without a mark, the test is passed for ever from there on; and where
/// from each place with one a run leads to a step that fails it, from no other.
#[tactic(auto, using(crate::proofs::Lasting::marks_say))]
pub fn marks_say<W: Space>(_walker: &W, _nodes: &[Node])
    ensures { (test : W.Place → ℕ → Bool) (marks : List Bool) → MarksSay W.after test (W.origin _walker.now) _nodes.now marks }
{}

/// Where a search opened all places, and found all by fewer steps than it may make, it cannot say that a run of so many leads to a place to which no
/// shorter one does.
pub fn ends_soon<W: Space>(_walker: &W, _nodes: &[Node])
    ensures { EndsSoon W.after W.wanted (W.origin _walker.now) _nodes.now }
{}
