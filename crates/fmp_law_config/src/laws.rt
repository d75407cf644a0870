//! Laws of the grammar: what is spelled is read, and what is read is spelled. And where the first fault is found.
ghost use Rattle.std.specs.Prelude.{◌≡◌, ◌≤◌, ℕ, List, ◌∷◌, ◌++◌, length, map, Ok, Err};
ghost use Rattle.fmp_config_statements.specs.declared.tokens.End.TheVariants.{Done};
ghost use Rattle.fmp_config_statements.specs.Lexing.{Lexeme, lexed_text};
ghost use Rattle.fmp_config.specs.Limits.{most_bytes};
ghost use Rattle.fmp_config.specs.Reading.{config_in};
ghost use Rattle.fmp_setup.specs.Setup.{Setup};
ghost use Rattle.fmp_config_statements.specs.Faults.{Fault};
ghost use Rattle.fmp_law_config.specs.Cuts.{IsCutAfter};
ghost use Rattle.fmp_law_config.specs.Grammar.{Configures};
ghost use Rattle.fmp_law_config.specs.FirstFaults.{FirstFault};
ghost use Rattle.fmp_law_config.specs.Tokens.{Glyph, glyph_of, SpellsTokens};

/// A text that is spelled by tokens is read as these tokens, to its end.
pub fn spelled_tokens_are_read()
    ensures { (text : List ℕ) (glyphs : List Glyph) → SpellsTokens glyphs text
        → ((lexed_text text).end ≡ Done) × (map glyph_of (lexed_text text).lexemes ≡ glyphs) }
{}

/// The tokens that are read to a text's end spell it.
pub fn read_tokens_are_spelled()
    ensures { (text : List ℕ) → (lexed_text text).end ≡ Done
        → SpellsTokens (map glyph_of (lexed_text text).lexemes) text }
{}

/// A text can be cut before each of its tokens: its beginning has just those that stand before. Where the cut is in a directive, its end ends that.
pub fn texts_are_cut_before_tokens()
    ensures { (text : List ℕ) (before : List Lexeme) (token : Lexeme) (rest : List Lexeme)
        → (lexed_text text).lexemes ≡ before ++ (token ∷ rest) → IsCutAfter text before }
{}

/// A text that says a configuration, within the limit, is read as that configuration.
pub fn configured_texts_are_read()
    ensures { (text : List ℕ) (c : Setup) → Configures text c → length text ≤ most_bytes → config_in text ≡ Ok c }
{}

/// A text says the configuration that is read of it.
pub fn read_texts_configure()
    ensures { (text : List ℕ) (c : Setup) → config_in text ≡ Ok c → Configures text c }
{}

/// A text says at most one configuration.
pub fn texts_configure_one_machine()
    ensures { (text : List ℕ) (a b : Setup) → Configures text a → Configures text b → a ≡ b }
{}

/// A fault that is found at a token is told by the tokens up to it, and by nothing that follows: every text with the same ones has it. Those before it have none: a
/// text that ends with any of them has no fault but one of its end, and a beginning of this text does, where no directive is cut. Any other fault is of the end
/// itself, or the text is too long.
pub fn faults_need_nothing_after()
    ensures { (text : List ℕ) (fault : Fault) → config_in text ≡ Err fault → FirstFault text fault }
{}
