//! What stands before the values: the declarations of the signals.
ghost use Rattle.fmp_out.specs.Putting.{Adds};
ghost use Rattle.fmp_run_wave.specs.Headers as spec;

use crate::listing::{Form, put_listing};
use fmp_out::Text;
use fmp_rules::Config;

/// Adds the unit of time.
#[tactic(auto, unfolding(crate::specs::Headers::unit_text))]
fn put_unit(out: &mut Text)
    ensures { Adds spec.unit_text out.old out.new }
{
    out.put(b"$timescale 1 us $end\n");
}

/// Adds what ends the declarations.
#[tactic(auto, unfolding(crate::specs::Headers::header_end))]
fn put_end(out: &mut Text)
    ensures { Adds spec.header_end out.old out.new }
{
    out.put(b"$enddefinitions $end\n");
}

/// Adds the declarations of all signals.
#[tactic(auto, unfolding(crate::specs::Headers::header_text))]
pub(crate) fn put_header(out: &mut Text, config: &Config)
    ensures { Adds (spec.header_text config.now) out.old out.new }
{
    put_unit(out);
    put_listing(out, Form::Declarations, config);
    put_end(out);
}
