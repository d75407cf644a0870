//! Which figure is beyond its bound after an event.
ghost use Rattle.std.specs.Prelude.{◌≡◌, ◌≤◌, length};
ghost use Rattle.fmp_run_most.specs.Gauged as spec;

use crate::figure::{Figure, is_beyond, value};
use fmp_search_walks::Meter;
use fmp_step_words::Views;

/// How many numbers a figure may have.
pub(crate) const SPAN: u32 = 65536;

/// Which figure is the first that is beyond its bound in a state, and its number there.
fn number_beyond<M: Views>(machine: &M, figures: &[Figure], bounds: &[u16]) -> u32
    requires gauged { (length figures.now ≤ 1024) × (length bounds.now ≡ length figures.now) }
    ensures { result ≡ spec.first_beyond (M.world machine.now) figures.now bounds.now 0 }
{
    for at in 0..figures.len() {
        let number = value(machine, figures[at]);
        if is_beyond(figures[at].measure, bounds[at], number) {
            return at as u32 * SPAN + u32::from(number);
        }
    }
    figures.len() as u32 * SPAN
}

/// Tells of each state which figure is the first that is beyond its bound there.
#[derive(Clone, Copy)]
pub struct Gauge<'a> {
    pub figures: &'a [Figure],
    pub bounds: &'a [u16],
    pub ghost few: { length figures.now ≤ 1024 },
    pub ghost as_many: { length bounds.now ≡ length figures.now },
}

impl<'a> Meter for Gauge<'a> {
    ghost number = { λ g _. spec.beyond g.figures.now g.bounds.now };

    fn number<M: Views>(&self, machine: &M) -> u32 {
        number_beyond(machine, self.figures, self.bounds)
    }
}
