//! Laws of the grammar: what is spelled is read, and what is read is spelled. And laws of reading on, and of the first fault.
ghost use Rattle.std.specs.Prelude.{◌≡◌, ℕ, ◌+◌, Bool, true, List, [], ◌∷◌, ◌++◌, Ok, Err, Some};
ghost use Rattle.fmp_codes.specs.declared.calls.Call.{Call};
ghost use Rattle.fmp_codes.specs.declared.records.Event.{Event};
ghost use Rattle.fmp_codes.specs.declared.kinds.ArgumentKind.{ArgumentKind};
ghost use Rattle.fmp_codes.specs.declared.kinds.Value.{Value};
ghost use Rattle.fmp_names.specs.Names.{NameLists, AreValid, is_constant};
ghost use Rattle.fmp_text.specs.Argument.{constant_of, is_argument, value_at};
ghost use Rattle.fmp_text.specs.Reading.{call_in};
ghost use Rattle.fmp_text.specs.Lines.{line_event};
ghost use Rattle.fmp_text.specs.Events.{HasNoFeed, after_line, reading_of, reading_from, faultless};
ghost use Rattle.fmp_text.specs.Grammar.{SpellsValue, SpellsCall};
ghost use Rattle.fmp_text.specs.TextGrammar.{SpellsText};
ghost use Rattle.fmp_text.specs.declared.fault.TextFault.{TextFault};
ghost use Rattle.fmp_text.specs.FirstFaults.{FirstFault};
ghost use Rattle.fmp_text.specs.declared.fault.TextKind.{TextKind};
ghost use Rattle.fmp_text.specs.EventFaults.{EventFault};

/// A word is a constant exactly where it is one of some kind.
pub fn constants_have_a_kind()
    ensures kind { (word : List ℕ) → is_constant word ≡ true
        → (kind : ArgumentKind) × (value : Value) × (constant_of kind word ≡ Some value) }
    ensures constant { (kind : ArgumentKind) (word : List ℕ) (value : Value)
        → constant_of kind word ≡ Some value → is_constant word ≡ true }
{}

/// What spells a value is an argument, and is read as that value.
pub fn spelled_values_are_read()
    ensures { (names : NameLists) (kind : ArgumentKind) (token : List ℕ) (value : Value) → AreValid names
        → SpellsValue names kind token value → (is_argument token ≡ true) × (value_at names kind token ≡ Ok value) }
{}

/// What is read as a value spells it.
pub fn read_values_are_spelled()
    ensures { (names : NameLists) (kind : ArgumentKind) (token : List ℕ) (value : Value)
        → value_at names kind token ≡ Ok value → SpellsValue names kind token value }
{}

/// What spells a call is read as that call.
pub fn spelled_calls_are_read()
    ensures { (names : NameLists) (text : List ℕ) (call : Call) → AreValid names
        → SpellsCall names text call → call_in names text ≡ Ok call }
{}

/// What is read as a call spells it.
pub fn read_calls_are_spelled()
    ensures { (names : NameLists) (text : List ℕ) (call : Call)
        → call_in names text ≡ Ok call → SpellsCall names text call }
{}

/// What spells a list of events, within the limits, is read as that list.
pub fn spelled_texts_are_read()
    ensures { (names : NameLists) (text : List ℕ) (events : List Event) → AreValid names
        → SpellsText names text events → reading_of names text ≡ faultless events }
{}

/// What is read as a list of events spells it.
pub fn read_texts_are_spelled()
    ensures { (names : NameLists) (text : List ℕ) (events : List Event)
        → reading_of names text ≡ faultless events → SpellsText names text events }
{}

/// A text spells at most one list of events.
pub fn texts_spell_one_list()
    ensures { (names : NameLists) (text : List ℕ) (a b : List Event) → AreValid names
        → SpellsText names text a → SpellsText names text b → a ≡ b }
{}

/// However a text goes on, it gives what its first whole line gives and then what follows, and bytes without a line feed only make the line longer that was begun.
pub fn texts_are_read_line_by_line()
    ensures whole { (names : NameLists) (cut : Bool) (lines count : ℕ) (begun line rest : List ℕ) → HasNoFeed line
        → reading_from names cut lines count begun (line ++ 10 ∷ rest) ≡ after_line (lines + 1) count (line_event names (begun ++ line))
        (reading_from names cut (lines + 1) count [] rest) (reading_from names cut (lines + 1) (count + 1) [] rest) }
    ensures begun { (names : NameLists) (cut : Bool) (lines count : ℕ) (begun bytes more : List ℕ) → HasNoFeed bytes
        → reading_from names cut lines count begun (bytes ++ more) ≡ reading_from names cut lines count (begun ++ bytes) more }
{}

/// A fault stands in its line: the whole lines before it spell the events that were given, and a text that is the same up to the end of that line has the
/// same fault, whatever follows. Mend line n, and the next fault is in line n or after it. The fault of a line is the first row of the table of faults
/// that fits it, or that it spells one event more than a text may have. A text that is cut short is so in its last line.
pub fn faults_stand_in_their_line()
    ensures { (names : NameLists) (text : List ℕ) (fault : TextFault) → AreValid names
        → (reading_of names text).fault ≡ Some fault → FirstFault names text (reading_of names text).events fault }
{}

/// A line of an event text has a fault exactly where the table of faults has one for it, and then that: the first row that fits.
pub fn faults_are_those_of_the_table()
    ensures read { (names : NameLists) (line : List ℕ) (fault : TextKind) → AreValid names
        → line_event names line ≡ Err fault → EventFault names line fault }
    ensures report { (names : NameLists) (line : List ℕ) (fault : TextKind) → AreValid names
        → EventFault names line fault → line_event names line ≡ Err fault }
{}
