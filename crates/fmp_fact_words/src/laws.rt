//! What words mean.
ghost use Rattle.std.specs.Prelude.{◌≡◌, Some};
ghost use Rattle.fmp_names.specs.Names.{AreValid, NameLists};
ghost use Rattle.fmp_facts.specs.declared.facts.Fact.{Fact as AnyFact};
ghost use Rattle.fmp_fact_words.specs.Reading.{fact_named as named};
ghost use Rattle.fmp_fact_words.specs.Told.{IsTold};
ghost use Rattle.fmp_fact_words.specs.Words.{word_of};

/// Each fact is read of its own word.
pub fn words_mean_facts()
    ensures { (names : NameLists) → AreValid names → (f : AnyFact) → IsTold names f → named names (word_of names f) ≡ Some f }
{}

/// So no two facts have one word: what stands in a text tells which fact it is.
pub fn words_are_distinct()
    ensures { (names : NameLists) → AreValid names → (f g : AnyFact) → IsTold names f → IsTold names g → word_of names f ≡ word_of names g → f ≡ g }
{}
