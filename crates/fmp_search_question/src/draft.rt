//! What was read of a question so far.
ghost use Rattle.std.specs.Prelude.{◌≡◌, ◌≢◌, ◌++◌, ◌∷◌, List, [], Some, None, Ok, Err, IfOk, IfErr, OnOk, replicate, is_some, length, not, ◌&&◌, ◌==◌, if◌then◌else◌};
ghost use Rattle.std.specs.Option.{option_and_then};
ghost use Rattle.fmp_bytes.specs.Bytes.{pieces_of};
ghost use Rattle.std.specs.List.{list_all};
ghost use Rattle.fmp_search_pattern.specs.Words.{star, is_fine};
ghost use Rattle.fmp_search_question.specs.Places.{longer};
ghost use Rattle.fmp_search_question.specs.Reading as spec;
ghost use Rattle.fmp_search_question.specs.WordByWord.{fault_of};

use crate::fault::{QuestionFault, ReadFault};
use crate::place::next_spot;
use fmp_bytes::{are_digits, cut, magnitude};
use fmp_names::Names;
use fmp_search_pattern::{
    Item, Moment, Part, Pattern, Piece, Question, Spot, Step, Wanted, are_fine, is_printed,
};
use std::alloc::{AllocError, Global};
use std::marker::Model;
use std::mem;

// The greatest number of steps.
const MOST_STEPS: u64 = 255;

// The greatest number of bytes of a pattern, with the blanks around it.
const MOST_PATTERN: usize = 1024;

/// What was read of a question so far.
#[derive(Drop)]
pub(crate) struct Draft {
    alloc: Global,
    steps: Vec<Step>,
    times: Option<u8>,
    moment: Option<Moment>,
    parts: Vec<Part>,
    items: Vec<Item>,
    negated: bool,
    pattern: Vec<u8>,
    spot: Spot,
}

impl Model for Draft {
    ghost use Rattle.fmp_search_question.specs.Reading as spec;

    ghost Value = { spec.Draft };

    ghost view = { λ d. record {
      steps = d.steps.items;
      times = d.times;
      moment = d.moment;
      parts = d.parts.items;
      items = d.items.items;
      negated = d.negated;
      pattern = d.pattern.items;
      spot = d.spot;
    } };
}

/// The bytes between the stars, in order: one piece more than there are stars, and some may be empty. The error is want of memory.
fn pieces(alloc: Global, pattern: &[u8]) -> Result<Vec<Piece>, AllocError>
    ensures { IfOk result (λ v. v.items ≡ pieces_of star pattern.now) }
{
    let mut pieces = Vec::new(alloc);
    let mut rest = Some(pattern);
    while let Some(text) = rest {
        let (piece, after) = cut(b'*', text);
        rest = after;
        pieces.push(Piece::new(Vec::from_slice(alloc, piece)?))?;
    }
    Ok(pieces)
}

/// What the words of a pattern ask for. The error is want of memory.
fn wanted_by(alloc: Global, words: &[u8]) -> Result<Wanted, AllocError>
    ensures { IfOk result (λ wanted. wanted ≡ spec.wanted_by words.now) }
{
    if words == b" refused ".as_slice() {
        Ok(Wanted::Refused)
    } else {
        Ok(Wanted::Line(Pattern::new(pieces(alloc, words)?)))
    }
}

/// Puts so many copies of a step after the others. The error is want of memory.
fn add_times(alloc: Global, steps: &mut Vec<Step>, step: &Step, times: u8) -> Result<(), AllocError>
    ensures { OnOk result (steps.new.items ≡ steps.old.items ++ replicate times step.now) }
{
    for _ in 0..times {
        steps.push(step.copy(alloc)?)?;
    }
    Ok(())
}

/// `BadForm` where something was not done, and none where it was.
fn form_of(done: bool) -> Option<QuestionFault>
    ensures { result ≡ (if done then None else Some QuestionFault.BadForm) }
{
    if done {
        None
    } else {
        Some(QuestionFault::BadForm)
    }
}

impl Draft {
    /// Nothing so far.
    pub(crate) fn new(alloc: Global) -> Draft
        ensures { result ≡ spec.nothing_read }
    {
        Draft {
            alloc,
            steps: Vec::new(alloc),
            times: None,
            moment: None,
            parts: Vec::new(alloc),
            items: Vec::new(alloc),
            negated: false,
            pattern: Vec::new(alloc),
            spot: Spot::Front,
        }
    }

    /// Puts the pattern after the other items of its part. False where it has no word yet, or may not end with its last one. The error is want of memory.
    #[tactic(auto, unfolding(crate::specs::Reading::with_pattern))]
    pub(crate) fn end_pattern(&mut self) -> Result<bool, AllocError>
        ensures none { IfOk result (λ done. done ≡ is_some (spec.with_pattern self.old)) }
        ensures done { (d : spec.Draft) → spec.with_pattern self.old ≡ Some d → OnOk result (self.new ≡ d) }
    {
        if self.pattern.is_empty() || !self.spot.may_end() {
            return Ok(false);
        }
        let wanted = wanted_by(self.alloc, &self.pattern)?;
        self.items.push(Item::new(self.negated, wanted))?;
        self.negated = false;
        self.pattern.clear();
        self.spot = Spot::Front;
        Ok(true)
    }

    /// Puts the complete items after the other parts of their moment. The error is want of memory.
    fn push_part(&mut self) -> Result<(), AllocError>
        ensures { OnOk result (self.new ≡ spec.part_ended self.old) }
    {
        let items = mem::replace(&mut self.items, Vec::new(self.alloc));
        self.parts.push(Part::new(items))?;
        Ok(())
    }

    /// Ends a part at `or`, or where its moment ends. False where its last pattern is none. The error is want of memory.
    #[tactic(auto, unfolding(crate::specs::Reading::with_part))]
    fn end_part(&mut self) -> Result<bool, AllocError>
        ensures none { IfOk result (λ done. done ≡ is_some (spec.with_part self.old)) }
        ensures done { (d : spec.Draft) → spec.with_part self.old ≡ Some d → OnOk result (self.new ≡ d) }
    {
        if !self.end_pattern()? {
            return Ok(false);
        }
        self.push_part()?;
        Ok(true)
    }

    /// Ends a moment at `without`. False where its last pattern has no word yet or the step had a `without` before. The error is want of memory.
    #[tactic(auto, unfolding(crate::specs::Reading::with_moment))]
    fn end_moment(&mut self) -> Result<bool, AllocError>
        ensures none { IfOk result (λ done. done ≡ is_some (spec.with_moment self.old)) }
        ensures done { (d : spec.Draft) → spec.with_moment self.old ≡ Some d → OnOk result (self.new ≡ d) }
    {
        if !self.end_part()? || self.moment.is_some() {
            return Ok(false);
        }
        let parts = mem::replace(&mut self.parts, Vec::new(self.alloc));
        self.moment = Some(Moment::new(parts));
        Ok(true)
    }

    /// Whether no word of a moment was read.
    pub(crate) fn is_fresh(&self) -> bool
        ensures { result ≡ (not self.now.negated && length self.now.items == 0 && length self.now.pattern == 0) }
    {
        !self.negated && self.items.is_empty() && self.pattern.is_empty()
    }

    /// Takes the complete items out of the draft, as a moment. The error is want of memory.
    pub(crate) fn take_moment(&mut self) -> Result<Moment, AllocError>
        ensures is { IfOk result (λ m. m ≡ self.old.items ∷ []) }
        ensures rest { OnOk result (self.new ≡ record self.old { items = [] }) }
    {
        let items = mem::replace(&mut self.items, Vec::new(self.alloc));
        let mut parts = Vec::new(self.alloc);
        parts.push(Part::new(items))?;
        Ok(Moment::new(parts))
    }

    /// Takes the step out of the draft. Where `without` was read, the parts after it are the moment that must not come before the first.
    fn take_step(&mut self) -> Step
        ensures is { result ≡ spec.step_of self.old.moment self.old.parts }
        ensures rest { self.new ≡ record self.old { moment = None; parts = [] } }
    {
        let last = Moment::new(mem::replace(&mut self.parts, Vec::new(self.alloc)));
        match self.moment.take() {
            None => Step {
                moment: last,
                without: None,
            },
            Some(moment) => Step {
                moment,
                without: Some(last),
            },
        }
    }

    /// Moves the step to the others as often as was said, or once where nothing was said. The error is want of memory.
    fn add_read(&mut self) -> Result<(), AllocError>
        ensures { OnOk result (self.new ≡ spec.with_read self.old) }
    {
        let step = self.take_step();
        let times = self.times.take().unwrap_or(1);
        add_times(self.alloc, &mut self.steps, &step, times)
    }

    /// Ends the step and adds it as often as was said. False where its last pattern has no word yet. The error is want of memory.
    #[tactic(auto, unfolding(crate::specs::Reading::with_step))]
    fn end_step(&mut self) -> Result<bool, AllocError>
        ensures none { IfOk result (λ done. done ≡ is_some (spec.with_step self.old)) }
        ensures done { (d : spec.Draft) → spec.with_step self.old ≡ Some d → OnOk result (self.new ≡ d) }
    {
        if !self.end_part()? {
            return Ok(false);
        }
        self.add_read()?;
        Ok(true)
    }

    /// The number from 1 to 255 that the pattern is. None where it is not one word of decimal digits, or another number.
    fn number(&self) -> Option<u8>
        ensures { result ≡ option_and_then spec.times_within (spec.number_in self.now.pattern) }
    {
        let pattern = self.pattern.as_slice();
        let digits = pattern.get(1..)?.split_last()?.1;
        if !are_digits(10, digits) {
            return None;
        }
        let number = magnitude(10, digits)?;
        if 1 <= number && number <= MOST_STEPS {
            Some(number as u8)
        } else {
            None
        }
    }

    /// Whether more of the step was read than the pattern that is being read.
    fn has_begun(&self) -> bool
        ensures { result ≡ spec.has_begun self.now }
    {
        self.times.is_some()
            || self.moment.is_some()
            || !self.parts.is_empty()
            || !self.items.is_empty()
            || self.negated
    }

    /// Begins an item that must not be there. False within a pattern, and where it began already.
    fn begin_not(&mut self) -> bool
        ensures none { result ≡ is_some (spec.with_not self.old) }
        ensures done { (d : spec.Draft) → spec.with_not self.old ≡ Some d → self.new ≡ d }
    {
        if !self.pattern.is_empty() || self.negated {
            return false;
        }
        self.negated = true;
        true
    }

    /// Takes `refused` for the pattern. False within a pattern. The error is want of memory.
    fn take_refused(&mut self) -> Result<bool, AllocError>
        ensures none { IfOk result (λ done. done ≡ is_some (spec.with_refused self.old)) }
        ensures done { (d : spec.Draft) → spec.with_refused self.old ≡ Some d → OnOk result (self.new ≡ d) }
    {
        if !self.pattern.is_empty() {
            return Ok(false);
        }
        self.pattern.extend_from_slice(b" refused ")?;
        self.spot = Spot::Whole;
        Ok(true)
    }

    /// Takes the pattern as a number. False where it is none from 1 to 255, or where more of this step was read before.
    #[tactic(auto, unfolding(crate::specs::Reading::with_times))]
    fn begin_times(&mut self) -> bool
        ensures none { result ≡ is_some (spec.with_times self.old) }
        ensures done { (d : spec.Draft) → spec.with_times self.old ≡ Some d → self.new ≡ d }
    {
        if self.has_begun() {
            return false;
        }
        match self.number() {
            None => false,
            times => {
                self.times = times;
                self.pattern.clear();
                self.spot = Spot::Front;
                true
            }
        }
    }

    /// Puts a word at the end of the pattern, with a blank on each side. The error is want of memory.
    fn push_word(&mut self, word: &[u8]) -> Result<(), AllocError>
        ensures { OnOk result (self.new ≡ record self.old { pattern = longer self.old.pattern word.now }) }
    {
        if self.pattern.is_empty() {
            self.pattern.push(b' ')?;
        }
        self.pattern.extend_from_slice(word)?;
        self.pattern.push(b' ')?;
        Ok(())
    }

    /// Puts a word at the end of the pattern. The fault is `UnknownName` where a run of it is not fine, else `TooLong` where the pattern would
    /// have more than 1,024 bytes, else `NoLine` where it may not stand after those before it. The error is want of memory.
    #[tactic(auto, unfolding(crate::specs::Reading::with_word))]
    fn add_word(&mut self, names: &Names, word: &[u8]) -> Result<Option<QuestionFault>, AllocError>
        ensures report { IfOk result (λ fault. fault ≡ fault_of (spec.with_word names.now self.old word.now)) }
        ensures added { (d : spec.Draft) → spec.with_word names.now self.old word.now ≡ Ok d → OnOk result (self.new ≡ d) }
    {
        if !are_fine(names, word) {
            return Ok(Some(QuestionFault::UnknownName));
        }
        let blanks = if self.pattern.is_empty() { 2 } else { 1 };
        if MOST_PATTERN < self.pattern.len() + word.len() + blanks {
            return Ok(Some(QuestionFault::TooLong));
        }
        self.push_word(word)?;
        match next_spot(self.alloc, names, &self.pattern, self.spot, word)? {
            None => Ok(Some(QuestionFault::NoLine)),
            Some(spot) => {
                self.spot = spot;
                Ok(None)
            }
        }
    }

    /// Ends the step. The fault is `BadForm` where its last pattern has no word yet, and `TooLong` where there are more than 255 steps then.
    /// The error is want of memory.
    fn end_limited(&mut self) -> Result<Option<QuestionFault>, AllocError>
        ensures report { IfOk result (λ fault. fault ≡ fault_of (spec.limited (spec.or_form (spec.with_step self.old)))) }
        ensures ended { (d : spec.Draft) → spec.limited (spec.or_form (spec.with_step self.old)) ≡ Ok d → OnOk result (self.new ≡ d) }
    {
        if !self.end_step()? {
            return Ok(Some(QuestionFault::BadForm));
        }
        if self.steps.len() as u64 <= MOST_STEPS {
            Ok(None)
        } else {
            Ok(Some(QuestionFault::TooLong))
        }
    }

    /// Adds a word, and tells its fault, if it has one.
    #[tactic(auto, unfolding(crate::specs::Reading::after_word))]
    pub(crate) fn add(
        &mut self,
        names: &Names,
        word: &[u8],
    ) -> Result<Option<QuestionFault>, AllocError>
        ensures report { IfOk result (λ fault. fault ≡ fault_of (spec.after_word names.now self.old word.now)) }
        ensures added { (d : spec.Draft) → spec.after_word names.now self.old word.now ≡ Ok d → OnOk result (self.new ≡ d) }
    {
        if !is_printed(word) {
            return Ok(Some(QuestionFault::BadWord));
        }
        if word == b"&".as_slice() {
            return Ok(form_of(self.end_pattern()?));
        }
        if word == b"or".as_slice() {
            return Ok(form_of(self.end_part()?));
        }
        if word == b"not".as_slice() {
            return Ok(form_of(self.begin_not()));
        }
        if word == b"refused".as_slice() {
            return Ok(form_of(self.take_refused()?));
        }
        if word == b"without".as_slice() {
            return Ok(form_of(self.end_moment()?));
        }
        if word == b"then".as_slice() {
            return self.end_limited();
        }
        if word == b"times".as_slice() {
            return Ok(form_of(self.begin_times()));
        }
        self.add_word(names, word)
    }

    /// The steps of the whole, where it is complete.
    pub(crate) fn end(mut self, text: &[u8]) -> Result<Question, ReadFault>
        ensures ok { IfOk result (λ q. spec.ended (length text.now) self ≡ Ok q) }
        ensures err { IfErr result (λ fault. fault ≢ ReadFault.Memory → spec.ended (length text.now) self ≡ Err (spec.report fault)) }
    {
        match self.end_limited() {
            Err(_) => Err(ReadFault::Memory),
            Ok(Some(fault)) => Err(ReadFault::Text(fault, text.len())),
            Ok(None) => Ok(Question::new(self.steps)),
        }
    }
}
