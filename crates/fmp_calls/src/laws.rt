//! Laws of the table.
ghost use Rattle.std.specs.Prelude.{◌≡◌, true, List, Some};
ghost use Rattle.fmp_codes.specs.declared.calls.Call.{Call};
ghost use Rattle.fmp_codes.specs.declared.kinds.Value.{Value};
ghost use Rattle.fmp_codes.specs.Kinds.{are_of_kinds};
ghost use Rattle.fmp_calls.specs.Table.{name_of, text_of, kinds_of, values_of, call_of, named};

/// A call is its name with its arguments, and no two calls have one name.
pub fn tables_agree()
    ensures parts { (call : Call) → call_of (name_of call) (values_of call) ≡ Some call }
    ensures agrees { (name : Call) (values : List Value) (call : Call) → call_of name values ≡ Some call
        → (name_of call ≡ name_of name) × (values_of call ≡ values) }
    ensures texts { (call : Call) → named (text_of call) ≡ Some (name_of call) }
    ensures names { (call : Call) → (text_of (name_of call) ≡ text_of call) × (kinds_of (name_of call) ≡ kinds_of call) }
{}

/// The arguments of a call are as many as the kinds that belong to its name, and each is of its kind.
pub fn arguments_have_their_kinds()
    ensures { (call : Call) → are_of_kinds (kinds_of call) (values_of call) ≡ true }
{}
