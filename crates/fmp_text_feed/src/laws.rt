//! Laws of feeds: it does not matter how a text is cut.
ghost use Rattle.std.specs.Prelude.{◌≡◌, ℕ, true, false, List, [], ◌++◌, Some};
ghost use Rattle.fmp_names.specs.Names.{NameLists};
ghost use Rattle.fmp_text.specs.Events.{reading_by_line, with_events, faultless};
ghost use Rattle.fmp_text.specs.declared.fault.TextFault.{TextFault};
ghost use Rattle.fmp_text_feed.specs.Feed.{Feed, IsDone, ahead, closed, coming, new_feed, only, pushed};
ghost use Rattle.fmp_text_feed.specs.Cuts.{Move, LeadsTo, text_of, events_of};

/// What is ahead of a new feed is what the text gives that comes; and it stays the same when a piece of it is pushed, and when
/// the text is closed after its last piece.
pub fn cuts_do_not_matter()
    ensures start { (names : NameLists) (text : List ℕ) → ahead names new_feed text ≡ reading_by_line names text }
    ensures piece { (names : NameLists) (feed : Feed) (piece more : List ℕ) → feed.ended ≡ false
        → ahead names feed (piece ++ more) ≡ ahead names (pushed feed piece) more }
    ensures end { (names : NameLists) (feed : Feed) (more : List ℕ) → feed.ended ≡ false
        → ahead names feed [] ≡ ahead names (closed feed) more }
{}

/// However a text is cut into pieces, and whenever the feed is asked in between: the events that were given are the first
/// ones of the text, a fault is the text's, and once the feed is done they are all, without a fault.
pub fn pieces_give_their_text()
    ensures prefix { (names : NameLists) (moves : List Move) (feed : Feed) → LeadsTo names new_feed moves feed → (more : List ℕ)
        → reading_by_line names (text_of moves ++ coming feed.ended more) ≡ with_events (events_of moves) (ahead names feed more) }
    ensures fault { (names : NameLists) (moves : List Move) (feed : Feed) (fault : TextFault) → LeadsTo names new_feed moves feed → feed.fault ≡ Some fault
        → (more : List ℕ) → reading_by_line names (text_of moves ++ coming feed.ended more) ≡ with_events (events_of moves) (only fault) }
    ensures done { (names : NameLists) (moves : List Move) (feed : Feed) → LeadsTo names new_feed moves feed → feed.ended ≡ true → IsDone names feed
        → reading_by_line names (text_of moves) ≡ faultless (events_of moves) }
{}
