//! Laws of the table.
ghost use Rattle.std.specs.Prelude.{◌≡◌, Some};
ghost use Rattle.fmp_config_statements.specs.declared.table.StatementName.{StatementName};
ghost use Rattle.fmp_config_statements.specs.Table.{statement_of, text_of};

/// Each statement is found by its word.
pub fn statements_are_found()
    ensures { (name : StatementName) → statement_of (text_of name) ≡ Some name }
{}
