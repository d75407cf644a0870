//! Reading a question of what stays for ever.
ghost use Rattle.std.specs.Prelude.{◌≡◌, ◌≢◌, ◌≤◌, ◌<◌, ◌+◌, ◌++◌, ◌∷◌, ◌&&◌, [], Ok, Err, false, IfOk, IfErr, OnOk, length, drop, codes};
ghost use Rattle.std.specs.Option.{option_copied};
ghost use Rattle.std.specs.Str.{bytes_eq};
ghost use Rattle.fmp_bytes.specs.Bytes.{pieces_of, space};
ghost use Rattle.fmp_names.specs.Names.{has_name};
ghost use Rattle.fmp_search_question.specs.Lasting as spec;
ghost use Rattle.fmp_search_question.specs.Reading as reading;
ghost use Rattle.fmp_search_question.specs.Waiting as waiting;
ghost use Rattle.fmp_search_question.specs.WordByWord.{fault_of};

use crate::draft::Draft;
use crate::fault::{QuestionFault, ReadFault};
use crate::resolving::resolved_lasting;
use crate::stage::Stage;
use fmp_bytes::cut;
use fmp_codes::{NameKind, ObjectKind};
use fmp_names::Names;
use fmp_search_pattern::{Item, Moment, Part, Pattern, Piece, Wanted, is_printed};
use std::alloc::{AllocError, Global};
use std::marker::Model;

// The greatest number of parts.
const MOST_PARTS: usize = 64;

const TASK: NameKind = NameKind::Object(ObjectKind::Task);

/// The moment of one pattern: a name between blanks, and words after it.
fn words_after(alloc: Global, name: &[u8], words: &[u8]) -> Result<Moment, AllocError>
    ensures { IfOk result (λ m. m ≡ waiting.only (space ∷ name.now ++ words.now)) }
{
    let mut bytes = Vec::from_slice(alloc, b" ")?;
    bytes.extend_from_slice(name)?;
    bytes.extend_from_slice(words)?;
    let mut pieces = Vec::new(alloc);
    pieces.push(Piece::new(bytes))?;
    let mut items = Vec::new(alloc);
    items.push(Item::new(false, Wanted::Line(Pattern::new(pieces))))?;
    let mut parts = Vec::new(alloc);
    parts.push(Part::new(items))?;
    Ok(Moment::new(parts))
}

/// That a task waits, suspended or not.
fn waits(alloc: Global, name: &[u8]) -> Result<Moment, AllocError>
    ensures { IfOk result (λ l. l ≡ waiting.waits name.now) }
{
    words_after(alloc, name, b" waits ")
}

/// Whether two words are the same.
fn is_word(word: &[u8], other: &[u8]) -> bool
    ensures { result ≡ bytes_eq word.now other.now }
{
    word == other
}

/// Whether a name is one of those between commas.
fn is_listed(list: &[u8], name: &[u8]) -> bool
    ensures { result ≡ has_name (pieces_of waiting.comma list.now) name.now }
{
    let mut rest = Some(list);
    while let Some(text) = rest {
        let (piece, after) = cut(b',', text);
        rest = after;
        if is_word(name, piece) {
            return true;
        }
    }
    false
}

/// Whether a name is that of a task.
fn is_task(names: &Names, name: &[u8]) -> bool
    ensures { result ≡ spec.is_task names.now name.now }
{
    names.number(TASK, name).is_some()
}

/// Whether each name between commas is that of a task.
fn are_tasks(names: &Names, list: &[u8]) -> bool
    ensures { result ≡ spec.are_tasks names.now list.now }
{
    let mut rest = Some(list);
    while let Some(text) = rest {
        let (piece, after) = cut(b',', text);
        rest = after;
        if !is_task(names, piece) {
            return false;
        }
    }
    true
}

/// Whether a task may wait by what stands after `but`, if that stands there.
fn may_wait(but: Option<&[u8]>, name: &[u8]) -> bool
    ensures { result ≡ has_name (waiting.listed_in (option_copied but.entry)) name.now }
{
    match but {
        None => false,
        Some(list) => is_listed(list, name),
    }
}

/// Puts that a task of this name waits after the others, unless it may. The error is want of memory.
fn add_unless(
    alloc: Global,
    lasting: &mut Vec<Moment>,
    but: Option<&[u8]>,
    name: &[u8],
) -> Result<(), AllocError>
    ensures { OnOk result (lasting.new.items ≡ lasting.old.items ++ waiting.waits_of (waiting.listed_in (option_copied but.entry)) (name.now ∷ [])) }
{
    if may_wait(but, name) {
        return Ok(());
    }
    lasting.push(waits(alloc, name)?)?;
    Ok(())
}

/// Likewise of the task at an index, if there is one.
#[tactic(auto, unfolding(fmp_names::specs::Names::name_of))]
fn add_at(
    alloc: Global,
    names: &Names,
    lasting: &mut Vec<Moment>,
    but: Option<&[u8]>,
    at: usize,
) -> Result<(), AllocError>
    requires { at < 64 }
    ensures { OnOk result (lasting.new.items
        ++ waiting.waits_of (waiting.listed_in (option_copied but.entry)) (drop (at + 1) (waiting.tasks_of names.now)) ≡ lasting.old.items
        ++ waiting.waits_of (waiting.listed_in (option_copied but.entry)) (drop at (waiting.tasks_of names.now))) }
{
    match names.name(TASK, at + 1) {
        Some(name) => add_unless(alloc, lasting, but, name),
        None => Ok(()),
    }
}

/// That a task waits, for each but those that may. The error is want of memory.
fn waits_but(alloc: Global, names: &Names, but: Option<&[u8]>) -> Result<Vec<Moment>, AllocError>
    ensures { IfOk result (λ v. v.items ≡ waiting.waits_but names.now (waiting.listed_in (option_copied but.entry))) }
{
    names.validity();
    let mut lasting = Vec::new(alloc);
    for at in 0..64usize {
        add_at(alloc, names, &mut lasting, but, at)?;
    }
    Ok(lasting)
}

/// What was read so far.
#[derive(Drop)]
struct Parts {
    alloc: Global,
    lasting: Vec<Moment>,
    draft: Draft,
    stage: Stage,
}

impl Model for Parts {
    ghost use Rattle.fmp_search_question.specs.Lasting as spec;

    ghost Value = { spec.Parts };

    ghost view = { λ d. record { lasting = d.lasting.items; draft = d.draft; stage = d.stage } };
}

/// Whether a word has no place in a part: one of other questions.
fn is_elsewhere(word: &[u8]) -> bool
    ensures { result ≡ spec.is_elsewhere word.now }
{
    word == b"then".as_slice()
        || word == b"without".as_slice()
        || word == b"times".as_slice()
        || word == b"or".as_slice()
        || word == b"ever".as_slice()
}

impl Parts {
    /// Nothing so far.
    fn new(alloc: Global) -> Parts
        ensures { result ≡ spec.no_parts }
    {
        Parts {
            alloc,
            lasting: Vec::new(alloc),
            draft: Draft::new(alloc),
            stage: Stage::Words,
        }
    }

    /// Whether nothing was read of the part.
    fn is_fresh(&self) -> bool
        ensures { result ≡ spec.is_fresh self.now }
    {
        self.draft.is_fresh()
    }

    /// `for` after the last word of a pattern.
    fn add_for(&mut self) -> Result<Option<QuestionFault>, AllocError>
        ensures report { IfOk result (λ fault. fault ≡ fault_of (spec.before_ever self.old (reading.with_pattern self.old.draft))) }
        ensures added { (d : spec.Parts) → spec.before_ever self.old (reading.with_pattern self.old.draft) ≡ Ok d → OnOk result (self.new ≡ d) }
    {
        if self.draft.end_pattern()? {
            self.stage = Stage::For;
            Ok(None)
        } else {
            Ok(Some(QuestionFault::BadForm))
        }
    }

    /// `ever` ends a part.
    fn end_part(&mut self) -> Result<(), AllocError>
        ensures { OnOk result (self.new ≡ spec.with_part self.old) }
    {
        self.lasting.push(self.draft.take_moment()?)?;
        self.stage = Stage::Ever;
        Ok(())
    }

    /// All tasks wait.
    fn add_waits(&mut self, names: &Names) -> Result<(), AllocError>
        ensures { OnOk result (self.new ≡ record self.old { lasting = waiting.waits_but names.now []; stage = Stage.Deadlock }) }
    {
        self.lasting = waits_but(self.alloc, names, None)?;
        self.stage = Stage::Deadlock;
        Ok(())
    }

    /// A word of a part.
    #[tactic(auto, unfolding(crate::specs::Lasting::in_part))]
    fn add_in_part(
        &mut self,
        names: &Names,
        word: &[u8],
    ) -> Result<Option<QuestionFault>, AllocError>
        ensures report { IfOk result (λ fault. fault ≡ fault_of (spec.in_part names.now self.old word.now)) }
        ensures added { (d : spec.Parts) → spec.in_part names.now self.old word.now ≡ Ok d → OnOk result (self.new ≡ d) }
    {
        if word == b"for".as_slice() {
            return self.add_for();
        }
        if is_elsewhere(word) {
            return Ok(Some(QuestionFault::BadForm));
        }
        if word == b"deadlock".as_slice() && self.is_fresh() && self.lasting.is_empty() {
            self.add_waits(names)?;
            return Ok(None);
        }
        self.add_to_draft(names, word)
    }

    /// A word of a pattern, or what stands between patterns.
    fn add_to_draft(
        &mut self,
        names: &Names,
        word: &[u8],
    ) -> Result<Option<QuestionFault>, AllocError>
        ensures report { IfOk result (λ fault. fault ≡ fault_of (spec.with_draft self.old (reading.after_word names.now self.old.draft word.now))) }
        ensures added { (d : spec.Parts) → spec.with_draft self.old (reading.after_word names.now self.old.draft word.now) ≡ Ok d → OnOk result (self.new ≡ d) }
    {
        self.draft.add(names, word)
    }

    /// The names of those that may wait. Some other task has to be left.
    fn add_names(&mut self, names: &Names, word: &[u8]) -> Result<Option<QuestionFault>, AllocError>
        ensures report { IfOk result (λ fault. fault ≡ fault_of (spec.in_stage names.now self.old word.now Stage.But)) }
        ensures added { (d : spec.Parts) → spec.in_stage names.now self.old word.now Stage.But ≡ Ok d → OnOk result (self.new ≡ d) }
    {
        if !are_tasks(names, word) {
            return Ok(Some(QuestionFault::UnknownName));
        }
        let waits = waits_but(self.alloc, names, Some(word))?;
        if waits.is_empty() {
            return Ok(Some(QuestionFault::BadForm));
        }
        self.lasting = waits;
        self.stage = Stage::Named;
        Ok(None)
    }

    /// Goes on to a stage where a word is the one that has to stand there.
    fn expect(&mut self, is: bool, stage: Stage) -> Option<QuestionFault>
        ensures report { result ≡ fault_of (spec.expected self.old is stage) }
        ensures added { (d : spec.Parts) → spec.expected self.old is stage ≡ Ok d → self.new ≡ d }
    {
        if !is {
            return Some(QuestionFault::BadForm);
        }
        self.stage = stage;
        None
    }

    /// The word `ever` after `for`.
    fn add_ever(&mut self, word: &[u8]) -> Result<Option<QuestionFault>, AllocError>
        ensures report { IfOk result (λ fault. fault ≡ fault_of (spec.ever_in self.old word.now)) }
        ensures added { (d : spec.Parts) → spec.ever_in self.old word.now ≡ Ok d → OnOk result (self.new ≡ d) }
    {
        if word != b"ever".as_slice() {
            return Ok(Some(QuestionFault::BadForm));
        }
        self.end_part()?;
        Ok(None)
    }

    /// Adds a word, and tells its fault, if it has one.
    #[tactic(auto, unfolding(crate::specs::Lasting::after_word))]
    fn add(&mut self, names: &Names, word: &[u8]) -> Result<Option<QuestionFault>, AllocError>
        ensures report { IfOk result (λ fault. fault ≡ fault_of (spec.after_word names.now self.old word.now)) }
        ensures added { (d : spec.Parts) → spec.after_word names.now self.old word.now ≡ Ok d → OnOk result (self.new ≡ d) }
    {
        if !is_printed(word) {
            return Ok(Some(QuestionFault::BadWord));
        }
        match self.stage {
            Stage::Words => self.add_in_part(names, word),
            Stage::For => self.add_ever(word),
            Stage::Ever => Ok(self.expect(word == b"or".as_slice(), Stage::Words)),
            Stage::Deadlock => Ok(self.expect(word == b"but".as_slice(), Stage::But)),
            Stage::But => self.add_names(names, word),
            Stage::Named => Ok(Some(QuestionFault::BadForm)),
        }
    }

    /// Whether a question may end there.
    fn may_end(&self) -> bool
        ensures { result ≡ spec.may_end self.now.stage }
    {
        match self.stage {
            Stage::Ever | Stage::Deadlock | Stage::Named => true,
            Stage::Words | Stage::For | Stage::But => false,
        }
    }

    /// The parts of the whole, where it is complete.
    fn end(self, text: &[u8]) -> Result<Vec<Moment>, ReadFault>
        ensures ok { IfOk result (λ v. spec.ended (length text.now) self ≡ Ok v.items) }
        ensures err { IfErr result (λ fault. fault ≢ ReadFault.Memory → spec.ended (length text.now) self ≡ Err (reading.report fault)) }
        ensures few { IfOk result (λ v. length v.items ≤ 64) }
    {
        if !self.may_end() {
            return Err(ReadFault::Text(QuestionFault::BadForm, text.len()));
        }
        if MOST_PARTS < self.lasting.len() {
            return Err(ReadFault::Text(QuestionFault::TooLong, text.len()));
        }
        Ok(self.lasting)
    }
}

/// The parts of a question of what stays for ever as it is written, each pattern as one of a record, or its first fault.
#[tactic(auto, unfolding(crate::specs::Lasting::written_in))]
fn read_written(alloc: Global, names: &Names, text: &[u8]) -> Result<Vec<Moment>, ReadFault>
    ensures ok { IfOk result (λ v. spec.written_in names.now text.now ≡ Ok v.items) }
    ensures err { IfErr result (λ fault. fault ≢ ReadFault.Memory → spec.written_in names.now text.now ≡ Err (reading.report fault)) }
    ensures few { IfOk result (λ v. length v.items ≤ 64) }
{
    let mut parts = Parts::new(alloc);
    let mut rest = Some(text);
    while let Some(words) = rest {
        let (word, after) = cut(b' ', words);
        match parts.add(names, word) {
            Err(_) => return Err(ReadFault::Memory),
            Ok(Some(fault)) => return Err(ReadFault::Text(fault, text.len() - words.len())),
            Ok(None) => rest = after,
        }
    }
    parts.end(text)
}

/// The parts of a question of what stays for ever, over a configuration with these names, or its first fault.
#[tactic(auto, unfolding(crate::specs::Lasting::lasting_in))]
pub fn read_lasting(alloc: Global, names: &Names, text: &[u8]) -> Result<Vec<Moment>, ReadFault>
    ensures ok { IfOk result (λ v. spec.lasting_in names.now text.now ≡ Ok v.items) }
    ensures err { IfErr result (λ fault. fault ≢ ReadFault.Memory → spec.lasting_in names.now text.now ≡ Err (reading.report fault)) }
    ensures few { IfOk result (λ v. length v.items ≤ 64) }
{
    let written = read_written(alloc, names, text)?;
    match resolved_lasting(alloc, names, &written) {
        Ok(parts) => Ok(parts),
        Err(_) => Err(ReadFault::Memory),
    }
}

/// Whether a question is one of what stays for ever: it has the words `for ever`, or begins with `deadlock`.
#[tactic(auto, unfolding(crate::specs::Lasting::is_lasting))]
pub fn is_lasting(text: &[u8]) -> bool
    ensures { result ≡ spec.is_lasting text.now }
{
    begins_so(text) || has_for_ever(text)
}

/// Whether the first word of a text is `deadlock`.
fn begins_so(text: &[u8]) -> bool
    ensures { result ≡ spec.begins_so (pieces_of space text.now) }
{
    is_word(cut(b' ', text).0, b"deadlock")
}

/// Whether a word is `ever`, after `for`.
fn is_ever(after_for: bool, word: &[u8]) -> bool
    ensures { result ≡ (after_for && bytes_eq word.now (codes "ever")) }
{
    after_for && is_word(word, b"ever")
}

/// Whether two words of a text are `for ever`.
fn has_for_ever(text: &[u8]) -> bool
    ensures { result ≡ spec.has_for_ever false (pieces_of space text.now) }
{
    let mut after_for = false;
    let mut rest = Some(text);
    while let Some(words) = rest {
        let (word, after) = cut(b' ', words);
        rest = after;
        if is_ever(after_for, word) {
            return true;
        }
        after_for = is_word(word, b"for");
    }
    false
}
