//! What clap found, by the ids of the parts.
ghost use Rattle.std.specs.Prelude.{◌≡◌, IfOk, map, option_map, true};
ghost use Rattle.clap.specs.Words.{first_of, is_simple, one_of};
ghost use Rattle.fmp_cli.specs.Found.{IsFlag, found_by, rows_in, text_of};
ghost use Rattle.fmp_cli.specs.Parts.{line_of, rule_by};

use crate::parts::{Part, Title, line};
use clap::{ArgMatches, Error};
use std::alloc::Global;

/// What clap finds in the words of a command line with these parts. Where it finds something wrong in them the error says what,
/// or that memory ran out.
pub fn matched<'a>(
    alloc: Global,
    title: Title<'a>,
    parts: &[Part<'a>],
    words: &'a [String],
) -> Result<ArgMatches<'a>, Error>
    requires { is_simple (line_of title.name.now (map rule_by parts.now)) ≡ true }
    ensures { IfOk result (λ m. rows_in m ≡ found_by (line_of title.entry.name.now (map rule_by parts.now)) (map (λ w. w.bytes.items) words.now)) }
{
    line(alloc, title, parts)?.try_get_matches_from(words)
}

/// The value of a part that may be left out.
pub fn option_in<'a>(matches: &ArgMatches<'a>, id: &str) -> Option<&'a str>
    ensures { option_map (λ s. s.now) result ≡ first_of id.now (rows_in matches.now) }
{
    matches.get_str(id)
}

/// The value of a part, or nothing.
pub fn text_in<'a>(matches: &ArgMatches<'a>, id: &str) -> &'a str
    ensures { result.now ≡ text_of id.now (rows_in matches.now) }
{
    option_in(matches, id).unwrap_or("")
}

/// Whether a flag is set.
pub fn flag_in<'a>(matches: &ArgMatches<'a>, id: &str) -> bool
    ensures { IsFlag (one_of id.now (rows_in matches.now)) result }
{
    matches.get_flag(id)
}
