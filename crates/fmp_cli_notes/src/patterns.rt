//! The words of patterns, as a question has them.
ghost use Rattle.std.specs.Prelude.{◌≡◌, IfOk};
ghost use Rattle.fmp_out.specs.Putting.{Adds};
ghost use Rattle.fmp_cli_notes.specs.Patterns as spec;

use fmp_out::Text;
use fmp_search_pattern::{Item, Pattern, Piece, Wanted};
use std::alloc::{AllocError, Global};

/// Puts each of these pieces behind a star.
fn put_pieces_behind(out: &mut Text, pieces: &[Piece])
    ensures { Adds (spec.behind_stars pieces.now) out.old out.new }
{
    for at in 0..pieces.len() {
        out.put(b"*");
        out.put(pieces[at].bytes());
    }
}

/// Puts the pieces of a pattern, with a star between them.
fn put_pieces(out: &mut Text, pieces: &[Piece])
    ensures { Adds (spec.pieces_text pieces.now) out.old out.new }
{
    if let [first, rest @ ..] = pieces {
        out.put(first.bytes());
        put_pieces_behind(out, rest);
    }
}

/// Puts the words of a pattern, without the blanks around them.
fn put_pattern(alloc: Global, out: &mut Text, pattern: &Pattern)
    ensures { Adds (spec.trimmed (spec.pieces_text pattern.now)) out.old out.new }
{
    let mut words = Text::new(alloc);
    put_pieces(&mut words, pattern.pieces());
    match words.so_far() {
        Ok(words) => out.put(words.trim_ascii()),
        Err(fault) => out.note(Err(fault)),
    }
}

/// Puts the words of what is asked for.
fn put_wanted(alloc: Global, out: &mut Text, wanted: &Wanted)
    ensures { Adds (spec.words_of wanted.now) out.old out.new }
{
    match wanted {
        Wanted::Refused => out.put(b"refused"),
        Wanted::End => out.put(b"end"),
        Wanted::Line(pattern) | Wanted::State(pattern, _) => put_pattern(alloc, out, pattern),
    }
}

/// The words of what is asked for. The error is want of memory.
pub(crate) fn words_of(alloc: Global, wanted: &Wanted) -> Result<Vec<u8>, AllocError>
    ensures { IfOk result (λ words. words.items ≡ spec.words_of wanted.now) }
{
    let mut words = Text::new(alloc);
    put_wanted(alloc, &mut words, wanted);
    words.finish()
}

/// Puts the words of an item, with `not` where it must not be there.
#[tactic(auto, unfolding(crate::specs::Patterns::item_text))]
fn put_item(alloc: Global, out: &mut Text, item: &Item)
    ensures { Adds (spec.item_text item.now) out.old out.new }
{
    if item.is_negated() {
        out.put(b"not ");
    }
    put_wanted(alloc, out, item.wanted());
}

/// Puts each of these items behind a sign.
fn put_items_behind(alloc: Global, out: &mut Text, items: &[Item])
    ensures { Adds (spec.behind_signs items.now) out.old out.new }
{
    for at in 0..items.len() {
        out.put(b" & ");
        put_item(alloc, out, &items[at]);
    }
}

/// Puts the items of a part, with a sign between them.
pub(crate) fn put_items(alloc: Global, out: &mut Text, items: &[Item])
    ensures { Adds (spec.items_text items.now) out.old out.new }
{
    if let [first, rest @ ..] = items {
        put_item(alloc, out, first);
        put_items_behind(alloc, out, rest);
    }
}
