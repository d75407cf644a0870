//! How much there can be of what facts ask for.
ghost use Rattle.std.specs.Prelude.{◌≡◌};
ghost use Rattle.fmp_cli_notes.specs.Limits as spec;

use fmp_facts::{Asked, Fact, Subject, Thing};
use fmp_search_pattern::Wanted;
use fmp_setup::Config;

/// The most that a fact about one thing of a configuration can ask for.
fn most_of(config: &Config, thing: Thing, fact: Fact) -> Option<u64>
    ensures { result ≡ spec.most_of config.now thing fact }
{
    match (thing, fact) {
        (Thing::Semaphore(s), Fact::Count(_)) => match config.semaphores().get(s.index()) {
            Some(setup) => Some(u64::from(setup.most)),
            None => None,
        },
        (Thing::Pool(m), Fact::FreeBlocks(_)) => match config.pools().get(m.index()) {
            Some(setup) => Some(u64::from(setup.blocks)),
            None => None,
        },
        (Thing::Task(_), Fact::Wakeups(_)) => Some(u64::from(config.limits().wakeups)),
        (Thing::Task(_), Fact::Priority(_)) => Some(u64::from(config.limits().priorities)),
        (Thing::Task(_), Fact::Activations(_)) => Some(1),
        _ => None,
    }
}

/// The number that a fact asks for, where there is a most for it.
fn number_of(fact: Fact) -> Option<u64>
    ensures { result ≡ spec.number_of fact }
{
    match fact {
        Fact::Count(n)
        | Fact::FreeBlocks(n)
        | Fact::Wakeups(n)
        | Fact::Priority(n)
        | Fact::Activations(n) => Some(n),
        _ => None,
    }
}

/// The most that is there of what the first of some facts asks more of, where all are of one thing.
fn exceeded_by(config: &Config, asked: &Asked) -> Option<u64>
    ensures { result ≡ spec.exceeded_by config.now asked.now }
{
    let Subject::One(thing) = asked.subject() else {
        return None;
    };
    let facts = asked.facts();
    for at in 0..facts.len() {
        match (number_of(facts[at]), most_of(config, thing, facts[at])) {
            (Some(number), Some(most)) if most < number => return Some(most),
            _ => {}
        }
    }
    None
}

/// Likewise of what a pattern asks for, where that is one thing.
pub(crate) fn exceeded(config: &Config, wanted: &Wanted) -> Option<u64>
    ensures { result ≡ spec.exceeded config.now wanted.now }
{
    match wanted {
        Wanted::State(_, choice) => match choice.asked() {
            [only] => exceeded_by(config, only),
            _ => None,
        },
        _ => None,
    }
}
