//! Laws of printing.
ghost use Rattle.std.specs.Prelude.{◌≡◌, ◌<◌, ◌≤◌, ◌+◌, ◌*◌, ◌^◌, ℕ, List, length};
ghost use Rattle.std.specs.List.{sum_by};
ghost use Rattle.fmp_codes.specs.Records.{Ascend};
ghost use Rattle.fmp_codes.specs.declared.numbers.Proc.{Proc};
ghost use Rattle.fmp_codes.specs.declared.records.Event.{Event};
ghost use Rattle.fmp_codes.specs.declared.records.Record.{Record};
ghost use Rattle.fmp_names.specs.Names.{NameLists, AreValid};
ghost use Rattle.fmp_trace.specs.Fits.{AllFit};
ghost use Rattle.fmp_trace.specs.Lines.{line_text, lines_from, most_line_bytes};
ghost use Rattle.fmp_trace.specs.Prints.{Prints};

/// A text prints at most one list of records.
pub fn texts_print_one_list()
    ensures { (names : NameLists) (text : List ℕ) (a b : List Record) → AreValid names → length a < 2 ^ 32 → length b < 2 ^ 32
        → Prints names text a → Prints names text b → a ≡ b }
{}

/// A line has at most so many bytes, whatever its record tells, where that has no more than 64 releases and 8 requests. Requests
/// are at most as many as there are processors, where these ascend. All lines of records that fit the names have at most so many
/// bytes for each record, and so many more for each release.
pub fn lines_are_short()
    ensures line { (names : NameLists) (n : ℕ) (r : Record) → AreValid names → length r.releases ≤ 64 → length r.requests ≤ 8
        → length (line_text names n r) ≤ most_line_bytes }
    ensures all { (names : NameLists) (n : ℕ) (records : List Record) → AreValid names → AllFit names records
        → length (lines_from names n records) ≤ 738 * length records + 143 * sum_by (λ r. length r.releases) records }
    ensures requests { (most : ℕ) (requests : List Proc) → Ascend most 0 requests → length requests ≤ most }
{}
