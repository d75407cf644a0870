//! The functions: their lines, and their names in other lines.
ghost use Rattle.std.specs.Prelude.{◌≡◌};
ghost use Rattle.fmp_out.specs.Putting.{Adds};
ghost use Rattle.fmp_run_list.specs.Listing.Functions as spec;

use fmp_codes::NameKind;
use fmp_out::Text;
use fmp_setup::Config;

/// The name of the function of a number, or `-`.
#[tactic(auto, unfolding(crate::specs::Listing::Functions::function_name))]
pub fn function_name<'a>(config: &'a Config, number: usize) -> &'a [u8]
    ensures { result.now ≡ spec.function_name config.now number }
{
    match config.names().name(NameKind::Function, number) {
        Some(name) => name,
        None => b"-",
    }
}

/// Adds the line of a function.
#[tactic(auto, unfolding(crate::specs::Listing::Functions::function_line))]
fn put_function_line(out: &mut Text, number: usize, name: &[u8])
    ensures { Adds (spec.function_line number name.now) out.old out.new }
{
    out.put(b"function ");
    out.put_number(number as u64);
    out.put_byte(b' ');
    out.put(name);
    out.put_byte(b'\n');
}

/// Adds the lines of the functions, in the order of their numbers.
pub fn put_functions(out: &mut Text, config: &Config)
    ensures { Adds (spec.functions_from 1 config.now.names.functions) out.old out.new }
{
    let names = config.names();
    let mut number = 1;
    while let Some(name) = names.name(NameKind::Function, number) {
        put_function_line(out, number, name);
        number += 1;
    }
}
