//! Laws of names and their numbers.
ghost use Rattle.std.specs.Prelude.{◌≡◌, ℕ, List, Some};
ghost use Rattle.fmp_codes.specs.declared.kinds.NameKind.{NameKind};
ghost use Rattle.fmp_names.specs.Names.{NameLists, AreValid, name_of, number_of};

/// A name and its number give each other back.
pub fn names_and_numbers_agree()
    ensures numbers { (names : NameLists) (kind : NameKind) (number : ℕ) (name : List ℕ) → AreValid names
        → name_of names kind number ≡ Some name → number_of names kind name ≡ Some number }
    ensures names { (names : NameLists) (kind : NameKind) (number : ℕ) (name : List ℕ)
        → number_of names kind name ≡ Some number → name_of names kind number ≡ Some name }
{}
