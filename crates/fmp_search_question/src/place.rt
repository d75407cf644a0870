//! Where a pattern ends with a word more.
ghost use Rattle.std.specs.Prelude.{◌≡◌, ◌++◌, ◌∷◌, [], map, IfOk, OnOk};
ghost use Rattle.fmp_search_pattern.specs.Spots.{stepped};
ghost use Rattle.fmp_search_question.specs.Places as spec;

use fmp_bytes::cut;
use fmp_fact_words::{asked_by, must_ask};
use fmp_names::Names;
use fmp_search_pattern::{Spot, spot_of};
use std::alloc::{AllocError, Global};

/// Puts a piece after the words, if it has a byte. The error is want of memory.
fn push_filled<'a>(words: &mut Vec<&'a [u8]>, piece: &'a [u8]) -> Result<(), AllocError>
    ensures { OnOk result (map (λ w. w.now) words.new.items ≡ map (λ w. w.now) words.old.items ++ spec.filled (piece.now ∷ [])) }
{
    if piece.is_empty() {
        return Ok(());
    }
    words.push(piece)?;
    Ok(())
}

/// The words of a text, which stand between blanks. The error is want of memory.
pub(crate) fn words_of<'a>(alloc: Global, text: &'a [u8]) -> Result<Vec<&'a [u8]>, AllocError>
    ensures { IfOk result (λ v. map (λ w. w.now) v.items ≡ spec.words_of text.now) }
{
    let mut words = Vec::new(alloc);
    let mut rest = Some(text);
    while let Some(left) = rest {
        let (piece, after) = cut(b' ', left);
        rest = after;
        push_filled(&mut words, piece)?;
    }
    Ok(words)
}

/// Whether the word `end` stands alone.
pub(crate) fn is_end(words: &[&[u8]]) -> bool
    ensures { result ≡ spec.is_end (map (λ w. w.now) words.now) }
{
    match words {
        [word] => *word == b"end".as_slice(),
        _ => false,
    }
}

/// Whether words ask for something of a state: for the end, or for its facts. The error is want of memory.
fn are_asking(alloc: Global, names: &Names, words: &[&[u8]]) -> Result<bool, AllocError>
    ensures { IfOk result (λ are. are ≡ spec.are_asking names.now (map (λ w. w.now) words.now)) }
{
    if is_end(words) {
        return Ok(true);
    }
    let choice = asked_by(alloc, names, words)?;
    Ok(!choice.asked().is_empty())
}

/// Where the last of some words stands. The error is want of memory.
#[tactic(auto, unfolding(crate::specs::Places::last_spot))]
fn last_spot(
    alloc: Global,
    names: &Names,
    words: &[&[u8]],
    word: &[u8],
) -> Result<Option<Spot>, AllocError>
    ensures { IfOk result (λ spot. spot ≡ spec.last_spot names.now (map (λ w. w.now) words.now) word.now) }
{
    if !must_ask(names, words) {
        return Ok(spot_of(names, word));
    }
    if are_asking(alloc, names, words)? {
        Ok(Some(Spot::Fact))
    } else {
        Ok(None)
    }
}

/// Where a pattern ends that a word was put to, where it ended somewhere before. None where the word may not stand there. The error is want of memory.
pub(crate) fn next_spot(
    alloc: Global,
    names: &Names,
    longer: &[u8],
    place: Spot,
    word: &[u8],
) -> Result<Option<Spot>, AllocError>
    ensures { IfOk result (λ spot. spot ≡ stepped place (spec.last_spot names.now (spec.words_of longer.now) word.now)) }
{
    let words = words_of(alloc, longer)?;
    let next = last_spot(alloc, names, &words, word)?;
    Ok(place.step(next))
}
