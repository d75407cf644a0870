//! Why no event of any order has a pattern, where the configuration or the way of `explore` says so.
ghost use Rattle.fmp_out.specs.Putting.{Adds};
ghost use Rattle.fmp_cli_notes.specs.NeverSo as spec;

use crate::limits::exceeded;
use crate::notes::{About, Notes, tell_wanting};
use crate::patterns::words_of;
use crate::words::is_given_alone;
use fmp_run_explore::Searched;
use fmp_search_pattern::{Item, Wanted};

/// Tells of facts that they are so at boot.
#[tactic(auto, unfolding(crate::specs::NeverSo::boot_line))]
fn tell_boot<N: Notes>(notes: &mut N, about: About<'_>, item: &Item, words: &[u8])
    ensures { Adds (spec.boot_line about.entry.asked.now item.now.negated words.now) (N.told notes.old) (N.told notes.new) }
{
    let mut line = about.line();
    line.put(b"'");
    line.put(if item.is_negated() {
        b"not ".as_slice()
    } else {
        b"".as_slice()
    });
    line.put(words);
    line.put(b"' is so at boot, before any event");
    notes.note(line);
}

/// Tells of facts that no event has that they are so at boot, if they are.
fn tell_at_boot<N: Notes>(
    notes: &mut N,
    about: About<'_>,
    searched: &Searched,
    item: &Item,
    words: &[u8],
)
    ensures { Adds (spec.boot_note about.entry.asked.now searched.now.config item.now words.now) (N.told notes.old) (N.told notes.new) }
{
    match searched.is_so_at_boot(item.wanted()) {
        Ok(is) if is != item.is_negated() => tell_boot(notes, about, item, words),
        Ok(_) => {}
        Err(_) => tell_wanting(notes, about),
    }
}

/// Tells of facts that there is not so much.
#[tactic(auto, unfolding(crate::specs::NeverSo::most_line))]
fn tell_most<N: Notes>(notes: &mut N, about: About<'_>, words: &[u8], most: u64)
    ensures { Adds (spec.most_line about.entry.asked.now words.now most) (N.told notes.old) (N.told notes.new) }
{
    let mut line = about.line();
    line.put(b"'");
    line.put(words);
    line.put(b"' is more than there can be: at most ");
    line.put_number(most);
    notes.note(line);
}

/// Tells of facts that no event has: that they are so at boot, or that there is not so much.
fn tell_state<N: Notes>(
    notes: &mut N,
    about: About<'_>,
    searched: &Searched,
    item: &Item,
    words: &[u8],
)
    ensures { Adds (spec.state_note about.entry.asked.now searched.now.config item.now words.now) (N.told notes.old) (N.told notes.new) }
{
    tell_at_boot(notes, about, searched, item, words);
    if let Some(most) = exceeded(searched.config(), item.wanted()) {
        tell_most(notes, about, words, most);
    }
}

/// Tells of a pattern that it is of events which are given alone.
#[tactic(auto, unfolding(crate::specs::NeverSo::given_line))]
fn tell_given<N: Notes>(notes: &mut N, about: About<'_>, words: &[u8])
    ensures { Adds (spec.given_line about.entry.asked.now words.now) (N.told notes.old) (N.told notes.new) }
{
    let mut line = about.line();
    line.put(b"'");
    line.put(words);
    line.put(
        b"' is of an event at which nothing can happen: shrink looks at these, and explore makes none",
    );
    notes.note(line);
}

/// Tells of a pattern, or of `not` and one, that no event of any order has why that may be so.
pub(crate) fn tell_fact<N: Notes>(notes: &mut N, about: About<'_>, searched: &Searched, item: &Item)
    ensures { Adds (spec.fact_note about.entry.asked.now searched.now.config item.now) (N.told notes.old) (N.told notes.new) }
{
    match words_of(about.alloc, item.wanted()) {
        Ok(words) => match item.wanted() {
            Wanted::State(..) => tell_state(notes, about, searched, item, words.as_slice()),
            Wanted::Line(_) if is_given_alone(words.as_slice()) => {
                tell_given(notes, about, words.as_slice());
            }
            _ => {}
        },
        Err(_) => tell_wanting(notes, about),
    }
}
