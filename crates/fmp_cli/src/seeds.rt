//! The seeds of a run that goes through many, as the command line says them.
ghost use Rattle.std.specs.Prelude.{◌≡◌, Some, codes, option_map};
ghost use Rattle.clap.specs.Words.{first_of};
ghost use Rattle.fmp_cli.specs.Found.{rows_in};
ghost use Rattle.fmp_cli.specs.Numbers.{IsNumberIn};
ghost use Rattle.fmp_cli.specs.Seeds as spec;
ghost use Rattle.fmp_cli.specs.Seeds.{AreSeeds};

use crate::found::option_in;
use clap::ArgMatches;

/// The seeds that a run goes through.
#[derive(Clone, Copy)]
pub enum Seeds {
    /// None are given.
    Unasked,
    /// Those from the first to the last, both included.
    Range(u64, u64),
    /// The command line has another word there, which is to be refused.
    Other,
}

/// The number that a text writes, if it is one of 64 bits.
fn number_in(text: &str) -> Option<u64>
    ensures { IsNumberIn (Some text.now) result }
{
    match text.parse::<u64>() {
        Ok(number) => Some(number),
        Err(_) => None,
    }
}

/// The seeds from one number to another, which is not less.
fn range_of(first: Option<u64>, last: Option<u64>) -> Seeds
    ensures { result ≡ spec.range_of first last }
{
    match (first, last) {
        (Some(first), Some(last)) if first <= last => Seeds::Range(first, last),
        _ => Seeds::Other,
    }
}

/// The seeds of a text: two numbers with two dots between them.
fn seeds_in(text: &str) -> Seeds
    ensures { AreSeeds (Some text.now) result }
{
    match text.split_once("..") {
        None => Seeds::Other,
        Some((first, last)) => range_of(number_in(first), number_in(last)),
    }
}

/// The seeds of the word for them, if there is one.
fn seeds_for(word: Option<&str>) -> Seeds
    ensures { AreSeeds (option_map (λ w. w.now) word.entry) result }
{
    match word {
        None => Seeds::Unasked,
        Some(text) => seeds_in(text),
    }
}

/// The seeds, by the words of a command line that has the option.
pub(crate) fn seeds_of<'a>(matches: &ArgMatches<'a>) -> Seeds
    ensures { AreSeeds (first_of (codes "seeds") (rows_in matches.now)) result }
{
    seeds_for(option_in(matches, "seeds"))
}
