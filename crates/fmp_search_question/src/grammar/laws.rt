//! Laws of the grammar: what is asked is read, and what is read is asked.
ghost use Rattle.std.specs.Prelude.{◌≡◌, ℕ, List, Ok};
ghost use Rattle.fmp_names.specs.Names.{NameLists};
ghost use Rattle.fmp_search_pattern.specs.declared.question.Step.{Step};
ghost use Rattle.fmp_search_question.specs.Reading.{question_in};
ghost use Rattle.fmp_search_question.specs.Grammar.Grammar.{Asks};
ghost use Rattle.fmp_search_question.specs.Grammar.ForEver.{AsksForEver};
ghost use Rattle.fmp_search_pattern.specs.Lasting.{Lasting};
ghost use Rattle.fmp_search_question.specs.Lasting.{lasting_in};

/// A text that asks a question is read as that question.
pub fn asked_questions_are_read()
    ensures { (names : NameLists) (text : List ℕ) (question : List Step)
        → Asks names text question → question_in names text ≡ Ok question }
{}

/// A text that is read as a question asks it.
pub fn read_questions_are_asked()
    ensures { (names : NameLists) (text : List ℕ) (question : List Step)
        → question_in names text ≡ Ok question → Asks names text question }
{}

/// A text asks at most one question.
pub fn questions_ask_one_thing()
    ensures { (names : NameLists) (text : List ℕ) (a b : List Step) → Asks names text a → Asks names text b → a ≡ b }
{}

/// A text that asks what stays for ever is read as just that.
pub fn asked_for_ever_is_read()
    ensures { (names : NameLists) (text : List ℕ) (lasting : List Lasting)
        → AsksForEver names text lasting → lasting_in names text ≡ Ok lasting }
{}

/// A text that is read as a question of what stays for ever asks it.
pub fn read_for_ever_is_asked()
    ensures { (names : NameLists) (text : List ℕ) (lasting : List Lasting)
        → lasting_in names text ≡ Ok lasting → AsksForEver names text lasting }
{}

/// A text asks at most one thing of what stays for ever.
pub fn for_ever_asks_one_thing()
    ensures { (names : NameLists) (text : List ℕ) (a b : List Lasting) → AsksForEver names text a → AsksForEver names text b → a ≡ b }
{}
