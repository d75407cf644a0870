//! Laws of the grammar of script texts: what is spelled is read, and what is read is spelled.
ghost use Rattle.std.specs.Prelude.{◌≡◌, ◌≢◌, ℕ, List, Ok, Err};
ghost use Rattle.fmp_names.specs.Names.{NameLists, AreValid};
ghost use Rattle.fmp_text_scripts.specs.Scripts.{Steps};
ghost use Rattle.fmp_text_scripts.specs.Texts.{Reading, scripts_in, with_line};
ghost use Rattle.fmp_text_scripts.specs.ScriptGrammar.{SpellsScripts};
ghost use Rattle.fmp_text_scripts.specs.FirstFaults.{FirstFault};
ghost use Rattle.fmp_text_scripts.specs.ScriptFaults.{ScriptFault};
ghost use Rattle.fmp_text.specs.declared.fault.TextFault.{TextFault};
ghost use Rattle.fmp_text.specs.declared.fault.TextKind.{TextKind};
ghost use Rattle.fmp_text.specs.declared.fault.TextKind.TheVariants.{TooMany};
ghost use Rattle.fmp_text.specs.Lines.{without_return};
ghost use Rattle.fmp_text.specs.Places.{IsEnd};
ghost use Rattle.fmp_text_scripts.specs.Refusals.{place};

/// What spells scripts, within the limits, is read as these scripts.
pub fn spelled_scripts_are_read()
    ensures { (names : NameLists) (text : List ℕ) (scripts : List Steps) → AreValid names
        → SpellsScripts names text scripts → scripts_in names text ≡ Ok scripts }
{}

/// What is read as scripts spells them.
pub fn read_scripts_are_spelled()
    ensures { (names : NameLists) (text : List ℕ) (scripts : List Steps)
        → scripts_in names text ≡ Ok scripts → SpellsScripts names text scripts }
{}

/// A text spells at most one list of scripts.
pub fn texts_spell_one_list_of_scripts()
    ensures { (names : NameLists) (text : List ℕ) (a b : List Steps) → AreValid names
        → SpellsScripts names text a → SpellsScripts names text b → a ≡ b }
{}

/// A fault stands in its line: the whole lines before it have none, and a text that is the same up to the end of that line has the same fault, whatever
/// follows, of the kind that the table of faults has for that line. Mend line n, and the next fault is in line n or after, or the text is cut short.
/// A text is cut short in its last line, or where a script is
/// open at its end in the line in which that script begins.
pub fn faults_stand_in_their_line()
    ensures { (names : NameLists) (text : List ℕ) (fault : TextFault) → AreValid names
        → scripts_in names text ≡ Err fault → FirstFault names text fault }
{}

/// A line of a script text, after lines that were read so, has a fault exactly where the table of faults has one for it, and then that: the first row that fits.
pub fn faults_are_those_of_the_table()
    ensures read { (names : NameLists) (n : ℕ) (r : Reading) (line : List ℕ) (fault : TextKind) → AreValid names
        → with_line names n r line ≡ Err fault → ScriptFault names r.scripts r.unclosed line fault }
    ensures report { (names : NameLists) (n : ℕ) (r : Reading) (line : List ℕ) (fault : TextKind) → AreValid names
        → ScriptFault names r.scripts r.unclosed line fault → with_line names n r line ≡ Err fault }
{}

/// Where a line is refused, what is left of it is an end of the line, so the first byte at fault is one of its bytes, or its end.
pub fn places_are_in_their_lines()
    ensures { (names : NameLists) (fault : TextKind) (line : List ℕ) → IsEnd (place names fault line).rest (without_return line) }
{}

/// The fault at the place of a line that is refused is the reader's, but of a line that is one too many, in which nothing is at fault.
pub fn places_have_their_fault()
    ensures { (names : NameLists) (n : ℕ) (r : Reading) (line : List ℕ) (fault : TextKind)
        → with_line names n r line ≡ Err fault → fault ≢ TooMany → (place names fault line).kind ≡ fault }
{}
