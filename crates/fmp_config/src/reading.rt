//! Reading a configuration text.
ghost use Rattle.std.specs.Prelude.{◌≡◌, ◌+◌, ◌<◌, ◌^◌, length};
ghost use Rattle.fmp_config.specs.Faults.{GivesOrFails};
ghost use Rattle.fmp_config.specs.Reading as spec;
ghost use Rattle.fmp_config_statements.specs.Outcomes.{Gives};
ghost use Rattle.fmp_config_statements.specs.Lexing.{lexed_text};

use crate::fault::ConfigFault;
use crate::reader::Reader;
use fmp_config_statements::{ConfigKind, Fault, Lexer, ReadError};
use fmp_setup::Config;
use std::alloc::Global;

/// The greatest number of bytes of a text.
pub const MOST_BYTES: usize = 1_048_576;

/// The configuration of a text's tokens.
#[tactic(auto, unfolding(crate::specs::Reading::setup_in))]
fn config_of<'a>(alloc: Global, text: &'a [u8]) -> Result<Config, ReadError<'a>>
    requires { length text.now + 1 < 2 ^ 32 }
    ensures { Gives result (spec.setup_in (lexed_text text.now)) }
{
    let mut lexer = Lexer::new(text);
    let mut reader = Reader::new(alloc)?;
    while let Some(token) = lexer.next_token() {
        reader.take(&token)?;
    }
    reader.finish(lexer.end())
}

/// The configuration of a text that is not too long.
#[tactic(auto, unfolding(crate::specs::Reading::config_in))]
fn config_in<'a>(alloc: Global, text: &'a [u8]) -> Result<Config, ReadError<'a>>
    ensures { Gives result (spec.config_in text.now) }
{
    if text.len() > MOST_BYTES {
        return Err(Fault::of_line(ConfigKind::TooMany, 0).into());
    }
    config_of(alloc, text)
}

/// Reads a configuration text. Blanks are spaces, tabs, carriage returns and line feeds, and comments; lines end with a line feed.
///
/// The error is the first fault of the text in reading order, with its word, or want of memory. A text of more than `MOST_BYTES` bytes is not read.
pub fn read_config(alloc: Global, text: &[u8]) -> Result<Config, ConfigFault>
    ensures exact { GivesOrFails result (spec.config_in text.now) }
{
    match config_in(alloc, text) {
        Ok(config) => Ok(config),
        Err(error) => Err(ConfigFault::of(error)),
    }
}
