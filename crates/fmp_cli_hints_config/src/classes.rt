//! The class that is nearest to a word.
ghost use Rattle.std.specs.Prelude.{◌+◌, ◌<◌, ◌^◌, length};

use crate::opened::{Opened, after_token, awaits_class, is_inside};
use fmp_cli_help::nearer;
use fmp_config_statements::{Lexer, Token};
use std::alloc::{AllocError, Global};

/// The nearer of the best name so far and a token, where that is the name of a class that is defined.
fn nearer_class<'a>(
    alloc: Global,
    word: &[u8],
    best: Option<&'a [u8]>,
    inside: bool,
    opened: &Option<Opened>,
    token: &Token<'a>,
) -> Result<Option<&'a [u8]>, AllocError> {
    if !inside && awaits_class(opened) {
        nearer(alloc, word, best, token.text())
    } else {
        Ok(best)
    }
}

/// The class that is nearest to a word, of those that a text defines: the first of the nearest, if one is near.
pub(crate) fn near_class<'a>(
    alloc: Global,
    text: &'a [u8],
    word: &[u8],
) -> Result<Option<&'a [u8]>, AllocError>
    requires { length text.now + 1 < 2 ^ 32 }
{
    let mut lexer = Lexer::new(text);
    let mut inside = false;
    let mut opened = None;
    let mut best = None;
    while let Some(token) = lexer.next_token() {
        best = nearer_class(alloc, word, best, inside, &opened, &token)?;
        opened = after_token(inside, opened, &token);
        inside = is_inside(inside, &token);
    }
    Ok(best)
}
