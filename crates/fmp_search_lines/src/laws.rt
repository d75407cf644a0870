//! What runs of steps, each of which takes a line, say of the orders of the lines.
//!
//! A law is the contract of a function without a body.
ghost use Rattle.std.specs.Prelude.{ℕ, Bool, Option};
ghost use Rattle.fmp_search_lines.specs.Held.{AllTakersSay};
ghost use Rattle.fmp_search_lines.specs.Orders.{OrdersStand};
ghost use Rattle.fmp_search_lines.specs.Places.{IsToldByPending, Place, PlacesSay, StepsAre, VerdictsSay};

/// The runs of steps from the place where nothing is taken are the orders within the bounds in which every line is right, whatever is played.
#[tactic(auto, using(crate::proofs::Runs::places_say))]
pub fn places_say<S>(_state: &S)
    ensures { (play : S → ℕ → Option S) (last : ℕ → ℕ) (count : ℕ) (s : S) → PlacesSay play last count s }
{}

/// A run to a place that is looked for is a right order that has all lines before the goal, and where there is none, there is no such order.
#[tactic(auto, using(crate::proofs::Verdicts::verdicts_say))]
pub fn verdicts_say<S>(_state: &S)
    ensures { (play : S → ℕ → Option S) (last : ℕ → ℕ) (count : ℕ) (must : ℕ → Bool) (goal : ℕ) (s : S) → VerdictsSay play last count must goal s }
{}

/// Without bounds the lines can be taken only as they stand.
#[tactic(auto, using(crate::proofs::Verdicts::orders_stand))]
pub fn orders_stand()
    ensures { (last : ℕ → ℕ) (count : ℕ) → OrdersStand last count }
{}

/// A step takes its line, if it may be taken.
#[tactic(auto, using(crate::proofs::Runs::steps_are))]
pub fn steps_are<S>(_state: &S)
    ensures { (play : S → ℕ → Option S) (last : ℕ → ℕ) (count : ℕ) → StepsAre play last count }
{}

/// A look at the top and the pending lines tells whether all lines before a goal were taken that have to be.
#[tactic(auto, using(crate::proofs::Verdicts::told_by_pending))]
pub fn told_by_pending<S>(_state: &S)
    ensures { (must : ℕ → Bool) (goal : ℕ) (q : Place S) → IsToldByPending must goal q }
{}

/// What a search of takers says of the orders of the lines.
#[tactic(auto, using(crate::proofs::Held::takers_say))]
pub fn takers_say<S>(_state: &S)
    ensures { (plays : S → ℕ → Option S) → AllTakersSay plays }
{}
