//! Laws of first faults: what is read is what the tables say.
ghost use Rattle.std.specs.Prelude.{◌≡◌, ◌≤◌, ℕ, true, List, [], ◌∷◌, ◌++◌, length, map, Ok, Err};
ghost use Rattle.fmp_names.specs.Names.{NameLists};
ghost use Rattle.fmp_config_statements.specs.Lexing.{Lexeme, lexed_text};
ghost use Rattle.fmp_config_statements.specs.declared.tokens.End.TheVariants.{Bad, CutShort, Done};
ghost use Rattle.fmp_config.specs.Limits.{most_bytes};
ghost use Rattle.fmp_config.specs.Reading.{config_in};
ghost use Rattle.fmp_config_statements.specs.declared.fault.ConfigKind.TheVariants as faults;
ghost use Rattle.fmp_config_statements.specs.Faults.{Fault, fault_of_line};
ghost use Rattle.fmp_config_statements.specs.declared.fault.ConfigKind.{ConfigKind};
ghost use Rattle.fmp_config_statements.specs.declared.table.StatementName.{StatementName};
ghost use Rattle.fmp_law_config.specs.Elements.{is_plain};
ghost use Rattle.fmp_law_config.specs.FirstFaults.{HaveNoFault};
ghost use Rattle.fmp_law_config.specs.Stages.{Stage};
ghost use Rattle.fmp_law_config.specs.Tokens.{Glyph, glyph_of};
ghost use Rattle.fmp_search_question.specs.declared.fault.QuestionFault.{QuestionFault};
ghost use Rattle.fmp_search_question.specs.Lasting.{lasting_in};
ghost use Rattle.fmp_search_question.specs.Reading.{question_in};
ghost use Rattle.fmp_law_faults.specs.DirectiveFaults.{DirectiveFault};
ghost use Rattle.fmp_law_faults.specs.EndFaults.{EndFault};
ghost use Rattle.fmp_law_faults.specs.LastingFaults.{IsFaultForEver};
ghost use Rattle.fmp_law_faults.specs.QuestionFaults.{IsFaultOfQuestion};
ghost use Rattle.fmp_law_faults.specs.StatementFaults.{FirstWordFault, TokenFault};
ghost use Rattle.fmp_law_faults.specs.Statements.{HaveFault, IsAt, IsBetween, IsInDirective, IsNext, IsWithin};

/// A question has a first fault exactly where the table has one for it, and then that, at the byte that the table says.
pub fn faults_of_questions_are_those_of_the_table()
    ensures read { (names : NameLists) (text : List ℕ) (fault : QuestionFault) (place : ℕ)
        → question_in names text ≡ Err (fault, place) → IsFaultOfQuestion names text fault place }
    ensures report { (names : NameLists) (text : List ℕ) (fault : QuestionFault) (place : ℕ)
        → IsFaultOfQuestion names text fault place → question_in names text ≡ Err (fault, place) }
{}

/// So has a question of what stays for ever, by a table of its own.
pub fn faults_for_ever_are_those_of_the_table()
    ensures read { (names : NameLists) (text : List ℕ) (fault : QuestionFault) (place : ℕ)
        → lasting_in names text ≡ Err (fault, place) → IsFaultForEver names text fault place }
    ensures report { (names : NameLists) (text : List ℕ) (fault : QuestionFault) (place : ℕ)
        → IsFaultForEver names text fault place → lasting_in names text ≡ Err (fault, place) }
{}

/// A token of a configuration where a statement has to begin is at fault exactly where the table has a fault for it, and that is its kind: each text that
/// begins
/// with the tokens up to it has a first fault of this kind, and where the table has none these tokens have no fault.
pub fn faults_of_first_words_are_those_of_the_table()
    ensures read { (before : List Lexeme) (t : Lexeme) (s : Stage) → IsBetween before s → is_plain (glyph_of t) ≡ true
        → ((kind : ConfigKind) → ¬ (FirstWordFault s (glyph_of t) kind)) → HaveNoFault (before ++ t ∷ []) }
    ensures report { (before : List Lexeme) (t : Lexeme) (s : Stage) → IsBetween before s → is_plain (glyph_of t) ≡ true
        → (kind : ConfigKind) → FirstWordFault s (glyph_of t) kind → HaveFault (before ++ t ∷ []) kind }
{}

/// A token of a statement after its first word, outside directives, is at fault exactly where the table has a fault for it, and that is its kind.
pub fn faults_within_statements_are_those_of_the_table()
    ensures read { (before : List Lexeme) (t : Lexeme) (s : Stage) (name : StatementName) (glyphs : List Glyph) → IsWithin before s name glyphs
        → IsNext before t
        → ((kind : ConfigKind) → ¬ (TokenFault s name (glyphs ++ glyph_of t ∷ []) kind)) → HaveNoFault (before ++ t ∷ []) }
    ensures report { (before : List Lexeme) (t : Lexeme) (s : Stage) (name : StatementName) (glyphs : List Glyph) → IsWithin before s name glyphs
        → IsNext before t
        → (kind : ConfigKind) → TokenFault s name (glyphs ++ glyph_of t ∷ []) kind → HaveFault (before ++ t ∷ []) kind }
{}

/// A token of a directive, between statements or in one, is at fault exactly where the table has a fault for it, and that is its kind.
pub fn faults_of_directives_are_those_of_the_table()
    ensures read { (before : List Lexeme) (hash : Lexeme) (words : List Lexeme) (t : Lexeme) (s : Stage) → IsInDirective before hash words t s
        → ((kind : ConfigKind) → ¬ (DirectiveFault s (map glyph_of words) (glyph_of t) kind)) → HaveNoFault ((before ++ hash ∷ words) ++ t ∷ []) }
    ensures report { (before : List Lexeme) (hash : Lexeme) (words : List Lexeme) (t : Lexeme) (s : Stage) → IsInDirective before hash words t s
        → (kind : ConfigKind) → DirectiveFault s (map glyph_of words) (glyph_of t) kind → HaveFault ((before ++ hash ∷ words) ++ t ∷ []) kind }
{}

/// The end of a configuration whose tokens have no fault, between statements or in one, is at fault exactly where the table has a fault for it, and that
/// is its kind;
/// else the text is read as the configuration to which its tokens lead. A byte that may not stand there is a fault of the form, and a string or comment that is
/// open is cut short, wherever that is, too.
pub fn faults_of_ends_are_those_of_the_table()
    ensures read { (text : List ℕ) (s : Stage) (at : IsAt (lexed_text text).lexemes s) → length text ≤ most_bytes → (lexed_text text).end ≡ Done
        → ((kind : ConfigKind) → ¬ (EndFault (lexed_text text).lexemes s at kind)) → config_in text ≡ Ok s.setup }
    ensures report { (text : List ℕ) (s : Stage) (at : IsAt (lexed_text text).lexemes s) → length text ≤ most_bytes → (lexed_text text).end ≡ Done
        → (kind : ConfigKind) → EndFault (lexed_text text).lexemes s at kind → (fault : Fault) × (config_in text ≡ Err fault) × (fault.kind ≡ kind) }
    ensures bad { (text : List ℕ) (line : ℕ) → length text ≤ most_bytes → HaveNoFault (lexed_text text).lexemes → (lexed_text text).end ≡ Bad line
        → config_in text ≡ Err (fault_of_line faults.Syntax line) }
    ensures cut { (text : List ℕ) (line : ℕ) → length text ≤ most_bytes → HaveNoFault (lexed_text text).lexemes → (lexed_text text).end ≡ CutShort line
        → config_in text ≡ Err (fault_of_line faults.CutShort line) }
{}
