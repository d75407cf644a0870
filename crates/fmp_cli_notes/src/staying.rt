//! What is told of something that stays for ever.
ghost use Rattle.std.specs.Prelude.{codes, slice_get};
ghost use Rattle.fmp_out.specs.Putting.{Adds};
ghost use Rattle.fmp_run_forever.specs.declared.staying.Staying.TheVariants as staying;
ghost use Rattle.fmp_cli_notes.specs.Staying as spec;

use crate::extent::{Reach, reach_within, tell_extent};
use crate::notes::{About, Notes};
use crate::patterns::put_items;
use crate::unmade::note_calls_unmade;
use fmp_cli::ExploreRequest;
use fmp_out::Text;
use fmp_run_explore::Orders;
use fmp_run_forever::{Stayed, Staying};
use fmp_search_pattern::Moment;
use std::alloc::Global;

/// Puts what is to stay, as a question has it: the items of its only part.
fn put_lasting(alloc: Global, out: &mut Text, lasting: &Moment)
    ensures { Adds (spec.lasting_text lasting.now) out.old out.new }
{
    if let [part, ..] = lasting.parts() {
        put_items(alloc, out, part.items());
    }
}

/// Tells from which line of the trace on something stays.
#[tactic(auto, unfolding(crate::specs::Staying::line_from))]
fn tell_line<N: Notes>(notes: &mut N, alloc: Global, lasting: &Moment, line_number: u32)
    ensures { Adds (spec.line_from lasting.now line_number) (N.told notes.old) (N.told notes.new) }
{
    let mut line = Text::new(alloc);
    line.put(b"fmpsim: from line ");
    line.put_number(u64::from(line_number));
    line.put(b" on ");
    put_lasting(alloc, &mut line, lasting);
    line.put(b" for ever");
    notes.note(line);
}

/// Likewise of what is asked under this number.
fn tell_from<N: Notes>(notes: &mut N, alloc: Global, stayed: &Stayed, number: u8, from: u32)
    ensures { Adds (spec.from_line (slice_get stayed.now.asked.question.items number) from) (N.told notes.old) (N.told notes.new) }
{
    if let Some(lasting) = stayed.asked.question.get(usize::from(number)) {
        tell_line(notes, alloc, lasting, from);
    }
}

/// Tells that the trace may be longer than one has to be.
fn tell_longer<N: Notes>(notes: &mut N, alloc: Global)
    ensures { Adds (codes "fmpsim: a shorter one is not ruled out\n") (N.told notes.old) (N.told notes.new) }
{
    let mut line = Text::new(alloc);
    line.put(b"fmpsim: a shorter one is not ruled out");
    notes.note(line);
}

/// Tells that nothing stays in any order, and which calls of the scripts no order makes.
fn tell_never<N: Notes>(
    notes: &mut N,
    about: About<'_>,
    stayed: &Stayed,
    request: &ExploreRequest<'_>,
)
    ensures { Adds (spec.told_of about.entry.asked.now stayed.now request.now staying.Never) (N.told notes.old) (N.told notes.new) }
{
    tell_extent(notes, about, stayed.extent, Reach::All, request);
    let orders = Orders {
        config: &stayed.asked.config,
        scripts: &stayed.asked.scripts,
        rules: stayed.rules,
    };
    note_calls_unmade(
        notes,
        about,
        orders,
        stayed.met.as_ref(),
        request.bounds.turns.count,
    );
}

/// Tells what is known beside the trace that was written, or beside `never` and `not within`.
pub fn note_stayed<N: Notes>(
    notes: &mut N,
    about: About<'_>,
    stayed: &Stayed,
    request: &ExploreRequest<'_>,
)
    ensures { Adds (spec.staying_note about.entry.asked.now stayed.now request.now) (N.told notes.old) (N.told notes.new) }
{
    match stayed.staying {
        Staying::Shortest(number, line) => tell_from(notes, about.alloc, stayed, number, line),
        Staying::Found(number, line) => {
            tell_from(notes, about.alloc, stayed, number, line);
            tell_longer(notes, about.alloc);
        }
        Staying::Never => tell_never(notes, about, stayed, request),
        Staying::NotWithin(lines) => {
            tell_extent(
                notes,
                about,
                stayed.extent,
                reach_within(lines, request.bounds.turns.count),
                request,
            );
        }
        Staying::Wanting(_) => {
            tell_extent(notes, about, stayed.extent, Reach::Wanting, request);
        }
        Staying::Ended(_) => tell_extent(notes, about, stayed.extent, Reach::Part, request),
    }
}
