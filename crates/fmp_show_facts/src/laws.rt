//! What a question of a fact means.
ghost use Rattle.std.specs.Prelude.{◌≡◌, ℕ, List, [], ◌∷◌, None, map, true, codes};
ghost use Rattle.std.specs.List.{list_any};
ghost use Rattle.fmp_codes.specs.declared.kinds.ObjectKind.{ObjectKind};
ghost use Rattle.fmp_names.specs.Names.{AreValid, NameLists};
ghost use Rattle.fmp_rules.specs.Arrivals.{State};
ghost use Rattle.fmp_facts.specs.declared.facts.Fact.{Fact};
ghost use Rattle.fmp_facts.specs.declared.facts.Kind.{Kind};
ghost use Rattle.fmp_facts.specs.declared.facts.Thing.{Thing};
ghost use Rattle.fmp_fact_words.specs.Asking.{asked_by, kind_of, kinds_of, may_all_be, may_be, thing_in};
ghost use Rattle.fmp_fact_words.specs.Told.{IsAlone, IsNamed, IsTold};
ghost use Rattle.fmp_fact_words.specs.Words.{word_of};
ghost use Rattle.fmp_show_facts.specs.Facts.{count_of, has_all, is_so, some_has_all, thing_is};
ghost use Rattle.fmp_show_facts.specs.Things.{AreTold, IsThingTold, thing_word};

/// The word of a thing and that of a fact that it may have ask for that fact of that thing: they are there where its test of the state holds.
pub fn facts_mean_their_tests()
    ensures { (names : NameLists) → AreValid names → (x : Thing) (f : Fact) → IsThingTold names x → IsTold names f → may_be (kind_of x) f ≡ true
        → (w : State) → list_any (is_so w) (asked_by names (thing_word names x ∷ word_of names f ∷ [])) ≡ thing_is w x f }
{}

/// The words of several facts ask that all of them are so of the thing at the same time.
pub fn several_facts_are_asked_of_one_thing()
    ensures { (names : NameLists) → AreValid names → (x : Thing) (f : Fact) (fs : List Fact) → IsThingTold names x → AreTold names (f ∷ fs)
        → may_all_be (f ∷ fs) (kind_of x) ≡ true
        → (w : State) → list_any (is_so w) (asked_by names (thing_word names x ∷ map (word_of names) (f ∷ fs))) ≡ has_all w (f ∷ fs) x }
{}

/// Without a thing they ask that all of them are so of some thing of the kind that may have them.
pub fn facts_without_a_thing_are_asked_of_any()
    ensures { (names : NameLists) → AreValid names → (k : Kind) (f : Fact) (fs : List Fact) → AreTold names (f ∷ fs)
        → thing_in names (word_of names f) ≡ None → kinds_of f ≡ k ∷ [] → may_all_be (f ∷ fs) k ≡ true
        → (w : State) → list_any (is_so w) (asked_by names (map (word_of names) (f ∷ fs))) ≡ some_has_all w (f ∷ fs) k (count_of w k) }
{}

/// No other object has the name of one: what the laws above ask of names is so of the names of every configuration.
pub fn names_are_alone()
    ensures { (names : NameLists) → AreValid names → (kind : ObjectKind) (n : ℕ) (it : IsNamed names kind n) → IsAlone names kind it.word }
{}

/// A thing alone, or with a star, asks nothing of a state: it is a pattern of the record.
pub fn things_alone_are_of_the_record()
    ensures { (names : NameLists) → AreValid names → (x : Thing) → IsThingTold names x
        → (asked_by names (thing_word names x ∷ []) ≡ []) × (asked_by names (thing_word names x ∷ codes "*" ∷ []) ≡ []) }
{}
