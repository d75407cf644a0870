//! Laws of all orders.
ghost use Rattle.std.specs.Prelude.{ℕ, Bool, List};
ghost use Rattle.fmp_codes.specs.declared.records.Record.{Record};
ghost use Rattle.fmp_search_orders.specs.declared.rules.Rules.{Rules};
ghost use Rattle.fmp_text_scripts.specs.Scripts.{Steps};
ghost use Rattle.fmp_setup.specs.Setup.{Setup};
ghost use Rattle.fmp_setup.specs.Valid.{IsValid};
ghost use Rattle.fmp_search_pattern.specs.declared.question.Step.{Step};
ghost use Rattle.fmp_search_orders.specs.Begun.{BegunAnswer};
ghost use Rattle.fmp_search_orders.specs.Lasting.{LastingAnswer};
ghost use Rattle.fmp_search_orders.specs.Watched.{WatchedAnswer};
ghost use Rattle.fmp_search_pattern.specs.Lasting.{Lasting};
ghost use Rattle.fmp_search_pattern.specs.Sights.{Sight};
ghost use Rattle.fmp_search_orders.specs.Made.{MadeAnswers};
ghost use Rattle.fmp_search_orders.specs.Laws.{RunsAreOrders, PlacesAnswer};
ghost use Rattle.fmp_search_orders.specs.Orders.{IsOrder};

/// What is told along a run over places is one of all orders, with marks at its moments, and each of these is a run over places, of as
/// many steps.
#[tactic(auto, using(crate::proofs::Runs::runs_orders))]
pub fn runs_are_orders()
    ensures { (c : Setup) (scripts : List Steps) (rules : Rules) (question : List Step) → IsValid c → RunsAreOrders c scripts rules question }
{}

/// Where no run over places, or none of so many steps, leads to a place at which the question was seen, no order, or none of so many
/// records, shows it; and what is told along a shortest run to such a place is a shortest order that does.
#[tactic(auto, using(crate::proofs::Answered::places_answer))]
pub fn places_answer()
    ensures { (c : Setup) (scripts : List Steps) (rules : Rules) (question : List Step) → IsValid c → PlacesAnswer c scripts rules question }
{}

/// The same of the runs whose first steps are those of an order's events: what they answer is so of all orders that go on from that one.
#[tactic(auto, using(crate::proofs::Begun::begun_answer))]
pub fn begun_answer()
    ensures { (c : Setup) (scripts : List Steps) (rules : Rules) (question : List Step) (begun : List Record) → IsValid c → IsOrder c scripts rules begun
        → BegunAnswer c scripts rules question begun }
{}

/// Where no run over places ends with a step from which on a test is passed for ever, no order ends with what stays so; and what is told along a run that
/// does is an order that does.
#[tactic(auto, using(crate::proofs::Staying::lasting_answer))]
pub fn lasting_answer()
    ensures { (c : Setup) (scripts : List Steps) (rules : Rules) (test : Sight → Bool) → IsValid c → LastingAnswer c scripts rules test }
{}

/// The same of places with what is asked of every event from one on: what is known of the runs over them is known of all orders.
#[tactic(auto, using(crate::proofs::Watching::watched_answer))]
pub fn watched_answer()
    ensures { (c : Setup) (scripts : List Steps) (rules : Rules) (lasting : List Lasting) → IsValid c → WatchedAnswer c scripts rules lasting }
{}

/// What calls are made by steps of runs over places is what calls are made in orders, and the same of at most so many steps and lines: whatever is asked, if
/// every event may be passed by.
#[tactic(auto, using(crate::proofs::Made::made_answer))]
pub fn made_answer()
    ensures { (c : Setup) (scripts : List Steps) (rules : Rules) → IsValid c → MadeAnswers c scripts rules }
{}
