//! Laws of what is told: no fault and no call is forgotten or told twice, nothing that is read is left out, and each answer and
//! attribute is told.
ghost use Rattle.std.specs.Prelude.{◌≡◌, ℕ, ◌+◌, true, false, List, ◌++◌, Some, Contains, is_some, map, count_by, slice_get, codes, decimal};
ghost use Rattle.std.specs.List.{list_all};
ghost use Rattle.std.specs.Option.{option_map_or};
ghost use Rattle.std.specs.Str.{bytes_eq};
ghost use Rattle.fmp_codes.specs.Codes.{name_of};
ghost use Rattle.fmp_codes.specs.Records.{word_of};
ghost use Rattle.fmp_codes.specs.declared.codes.Code.{Code};
ghost use Rattle.fmp_codes.specs.declared.records.Answer.{Answer};
ghost use Rattle.fmp_config_statements.specs.Attributes as attributes;
ghost use Rattle.fmp_config_statements.specs.declared.attributes.Attribute.{Attribute};
ghost use Rattle.fmp_codes.specs.declared.calls.Call.{Call};
ghost use Rattle.fmp_calls.specs.Table as calls;
ghost use Rattle.fmp_config_statements.specs.declared.fault.ConfigKind.{ConfigKind};
ghost use Rattle.fmp_config_statements.specs.declared.table.StatementName.{StatementName};
ghost use Rattle.fmp_config_statements.specs.Faults as configs;
ghost use Rattle.fmp_config_statements.specs.Table as statements;
ghost use Rattle.fmp_text.specs.declared.fault.TextKind.{TextKind};
ghost use Rattle.fmp_text.specs.Faults as texts;
ghost use Rattle.fmp_cli_help.specs.Deeds.{rows, rows_of};
ghost use Rattle.fmp_cli_help.specs.declared.faults.TheConstants.{CONFIG_KINDS, TEXT_KINDS};
ghost use Rattle.fmp_cli_help.specs.declared.left_out.TheConstants.{BEGINNINGS, ENDINGS, NAMES};
ghost use Rattle.fmp_cli_help.specs.LeftOut.{beginnings, endings, names, is_left_out};
ghost use Rattle.fmp_cli_help.specs.Listing.{subject_of};
ghost use Rattle.fmp_cli_help.specs.declared.listing.Subject.TheVariants as subjects;

/// The list of the faults of a configuration has each of them exactly once, in the order of their numbers, and each is told where
/// its number is asked for.
pub fn config_faults_are_listed()
    ensures every { (kind : ConfigKind) → Contains CONFIG_KINDS kind }
    ensures once { (i j : ℕ) (kind : ConfigKind) → slice_get CONFIG_KINDS i ≡ Some kind
        → slice_get CONFIG_KINDS j ≡ Some kind → i ≡ j }
    ensures order { (i : ℕ) (kind : ConfigKind) → slice_get CONFIG_KINDS i ≡ Some kind
        → configs.code_of kind ≡ codes "F" ++ decimal (i + 1) }
    ensures report { (kind : ConfigKind) → subject_of (configs.code_of kind) ≡ Some (subjects.ConfigFault kind) }
{}

/// The list of the faults of events, scripts and traces has each of them exactly once, in the order of their numbers, and each is
/// told where its number is asked for.
pub fn text_faults_are_listed()
    ensures every { (kind : TextKind) → Contains TEXT_KINDS kind }
    ensures once { (i j : ℕ) (kind : TextKind) → slice_get TEXT_KINDS i ≡ Some kind
        → slice_get TEXT_KINDS j ≡ Some kind → i ≡ j }
    ensures order { (i : ℕ) (kind : TextKind) → slice_get TEXT_KINDS i ≡ Some kind
        → texts.code_of kind ≡ codes "E" ++ decimal (i + 1) }
    ensures report { (kind : TextKind) → subject_of (texts.code_of kind) ≡ Some (subjects.TextFault kind) }
{}

/// The tables of what the calls do have exactly one row with the name of each call, in the table of its family, and no other row.
pub fn deeds_are_listed()
    ensures once { (call : Call) → count_by (λ row. bytes_eq row.call (calls.text_of call)) rows ≡ 1 }
    ensures place { (call : Call) → count_by (λ row. bytes_eq row.call (calls.text_of call)) (rows_of call) ≡ 1 }
    ensures no_other { list_all (λ row. is_some (calls.named row.call)) rows ≡ true }
{}

/// The words that are compared are those of the definition.
pub fn left_out_words_are_listed()
    ensures how_they_begin { map (λ word. word.now) BEGINNINGS ≡ beginnings }
    ensures how_they_end { map (λ word. word.now) ENDINGS ≡ endings }
    ensures one_by_one { map (λ word. word.now) NAMES ≡ names }
{}

/// What is left out is told so, and no call and no statement that is read is left out.
pub fn what_is_left_out_is_reported()
    ensures report { (word : List ℕ) → is_left_out word ≡ true → subject_of word ≡ Some subjects.LeftOut }
    ensures calls { (call : Call) → is_left_out (calls.text_of call) ≡ false }
    ensures statements { (name : StatementName) → is_left_out (statements.text_of name) ≡ false }
{}

/// There is something to tell of each code, of each other answer and of each attribute.
pub fn answers_and_attributes_are_reported()
    ensures codes { (code : Code) → is_some (subject_of (name_of code)) ≡ true }
    ensures answers { (answer : Answer) → option_map_or (λ word. is_some (subject_of word)) (word_of answer) true ≡ true }
    ensures attributes { (attribute : Attribute) → is_some (subject_of (attributes.text_of attribute)) ≡ true }
{}
