//! The steps of an event.
ghost use Rattle.std.specs.Prelude.{◌≡◌, ◌<◌};
ghost use Rattle.fmp_search_orders.specs.Begun as begun;

use fmp_codes::{Event, Proc};
use fmp_search::Choice;

/// The two steps of one of the three events of a processor.
fn choice_at(p: Proc, kind: u8) -> Choice
    requires { kind < 3 }
    ensures { result ≡ begun.choice_at p kind }
{
    let step = (p.number - 1) * 6 + kind;
    Choice {
        step,
        other: step + 3,
    }
}

/// The steps of an event: one without a mark, and one with it.
pub fn choice_of(event: Event) -> Choice
    ensures { result ≡ begun.choice_of event }
{
    match event {
        Event::Call(p, _) => choice_at(p, 0),
        Event::Ipi(p) => choice_at(p, 1),
        Event::Tick(p) => choice_at(p, 2),
    }
}
