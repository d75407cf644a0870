//! Laws of places.
ghost use Rattle.std.specs.Prelude.{◌≡◌, ℕ, List, is_err, is_some};
ghost use Rattle.fmp_cli_hints.specs.Places.{event_place};
ghost use Rattle.fmp_names.specs.Names.{NameLists};
ghost use Rattle.fmp_text.specs.Lines.{line_event, without_return};
ghost use Rattle.fmp_text.specs.Places.{IsEnd};

/// What is read of a line of events leaves an end of the line, so the first byte at fault is one of its bytes, or its end. There is such a byte exactly
/// where the line is refused.
pub fn places_are_in_their_lines()
    ensures within { (names : NameLists) (line : List ℕ) → IsEnd (event_place names line).rest (without_return line) }
    ensures refused { (names : NameLists) (line : List ℕ) → is_some (event_place names line).wanted ≡ is_err (line_event names line) }
{}
