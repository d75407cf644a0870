//! When a trace is coloured, as the command line says it.
ghost use Rattle.std.specs.Prelude.{◌≡◌, codes, option_map};
ghost use Rattle.clap.specs.Words.{first_of};
ghost use Rattle.fmp_cli.specs.Found.{rows_in};
ghost use Rattle.fmp_cli.specs.Smp.{colour_by};

use crate::found::option_in;
use clap::ArgMatches;

/// When a trace is coloured.
#[derive(Clone, Copy)]
pub enum Colour {
    /// Where standard output is a terminal, and `NO_COLOR` is not set.
    Auto,
    Always,
    Never,
    /// The command line has another word there, which is to be refused.
    Other,
}

/// When a trace is coloured, by a word for it. It is `auto` without one.
fn colour_for(word: Option<&str>) -> Colour
    ensures { result ≡ colour_by (option_map (λ w. w.now) word.entry) }
{
    match word {
        None | Some("auto") => Colour::Auto,
        Some("always") => Colour::Always,
        Some("never") => Colour::Never,
        Some(_) => Colour::Other,
    }
}

/// When the trace is coloured, by the words of a command line that has the option.
pub fn colour_of<'a>(matches: &ArgMatches<'a>) -> Colour
    ensures { result ≡ colour_by (first_of (codes "color") (rows_in matches.now)) }
{
    colour_for(option_in(matches, "color"))
}
