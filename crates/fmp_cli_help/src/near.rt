//! The name that is nearest to a word.
ghost use Rattle.std.specs.Prelude.{◌≡◌, ◌==◌, ℕ, List, IfOk, find, map};
ghost use Rattle.std.specs.List.{starts_with};
ghost use Rattle.std.specs.Option.{option_copied};
ghost use Rattle.fmp_codes.specs.Codes as codes;
ghost use Rattle.fmp_codes.specs.declared.calls.Call.TheVariants as families;
ghost use Rattle.fmp_calls.specs.Table as calls;
ghost use Rattle.fmp_cli_help.specs.Near as spec;
ghost use Rattle.fmp_config_statements.specs.Attributes as attributes;
ghost use Rattle.fmp_config_statements.specs.Table as statements;

use fmp_calls::{BUFFER_CALLS, SPIN_CALLS, SYNC_CALLS, SYSTEM_CALLS, TASK_CALLS, TIME_CALLS, form};
use fmp_codes::{
    BufferCall, Call, Code, ObjectKind, SpinCall, SyncCall, SystemCall, TaskCall, TimeCall,
};
use fmp_config_statements::{Attribute, STATEMENT_NAMES, StatementName, allowed};
use std::alloc::{AllocError, Global};
use strsim::generic_levenshtein;

/// How many letters have to be put in, left out or exchanged, but for capital and small ones, to come from a word to a name.
#[tactic(auto, unfolding(crate::specs::Near::distance))]
fn distance(alloc: Global, word: &[u8], name: &[u8]) -> Result<usize, AllocError>
    ensures { IfOk result (λ d. d ≡ spec.distance word.now name.now) }
{
    let word = word.to_ascii_lowercase(alloc)?;
    let name = name.to_ascii_lowercase(alloc)?;
    generic_levenshtein(alloc, word.as_slice(), name.as_slice())
}

/// The name, where it is nearer to a word than the best one so far. Where there is none yet, it has to be near: at most one letter for
/// each three bytes of the word has to be put in, left out or exchanged.
#[tactic(auto, unfolding(crate::specs::Near::nearer))]
pub fn nearer<'a>(
    alloc: Global,
    word: &[u8],
    best: Option<&'a [u8]>,
    name: &'a [u8],
) -> Result<Option<&'a [u8]>, AllocError>
    ensures { IfOk result (λ found. option_copied found ≡ spec.nearer word.now (option_copied best.entry) name.now) }
{
    let here = distance(alloc, word, name)?;
    let Some(best) = best else {
        return Ok(if here <= word.len() / 3 {
            Some(name)
        } else {
            None
        });
    };
    if here < distance(alloc, word, best)? {
        Ok(Some(name))
    } else {
        Ok(Some(best))
    }
}

/// What has a name in a table of the readers.
trait Named {
    ghost name_of: { Self → List ℕ };

    /// Its name.
    fn name(&self) -> &'static [u8]
        ensures { result.now ≡ name_of self.now };
}

impl Named for TaskCall {
    ghost name_of = { λ call. calls.text_of (families.Task call) };

    fn name(&self) -> &'static [u8] {
        form(Call::Task(*self)).text
    }
}

impl Named for SyncCall {
    ghost name_of = { λ call. calls.text_of (families.Sync call) };

    fn name(&self) -> &'static [u8] {
        form(Call::Sync(*self)).text
    }
}

impl Named for BufferCall {
    ghost name_of = { λ call. calls.text_of (families.Buffer call) };

    fn name(&self) -> &'static [u8] {
        form(Call::Buffer(*self)).text
    }
}

impl Named for TimeCall {
    ghost name_of = { λ call. calls.text_of (families.Time call) };

    fn name(&self) -> &'static [u8] {
        form(Call::Time(*self)).text
    }
}

impl Named for SystemCall {
    ghost name_of = { λ call. calls.text_of (families.System call) };

    fn name(&self) -> &'static [u8] {
        form(Call::System(*self)).text
    }
}

impl Named for SpinCall {
    ghost name_of = { λ call. calls.text_of (families.Spin call) };

    fn name(&self) -> &'static [u8] {
        form(Call::Spin(*self)).text
    }
}

impl Named for StatementName {
    ghost name_of = { statements.text_of };

    fn name(&self) -> &'static [u8] {
        self.text()
    }
}

impl Named for Attribute {
    ghost name_of = { attributes.text_of };

    fn name(&self) -> &'static [u8] {
        self.text()
    }
}

impl Named for Code {
    ghost name_of = { codes.name_of };

    fn name(&self) -> &'static [u8] {
        Code::name(*self).as_bytes()
    }
}

/// The nearest of the names of these, and of the best name before them.
fn nearest<N: Named>(
    alloc: Global,
    word: &[u8],
    best: Option<&'static [u8]>,
    named: &[N],
) -> Result<Option<&'static [u8]>, AllocError>
    ensures { IfOk result (λ found. option_copied found ≡ spec.nearest word.now (option_copied best.entry) (map N.name_of named.now)) }
{
    let mut best = best;
    for it in named {
        best = nearer(alloc, word, best, it.name())?;
    }
    Ok(best)
}

/// The nearest of the calls on tasks, and of those before them in the list.
#[tactic(auto, unfolding(crate::specs::Near::near_task_call))]
fn near_task_call(alloc: Global, word: &[u8]) -> Result<Option<&'static [u8]>, AllocError>
    ensures { IfOk result (λ found. option_copied found ≡ spec.near_task_call word.now) }
{
    nearest(alloc, word, None, TASK_CALLS)
}

/// The nearest of the calls on semaphores and eventflags, and of those before them in the list.
#[tactic(auto, unfolding(crate::specs::Near::near_sync_call))]
fn near_sync_call(alloc: Global, word: &[u8]) -> Result<Option<&'static [u8]>, AllocError>
    ensures { IfOk result (λ found. option_copied found ≡ spec.near_sync_call word.now) }
{
    let best = near_task_call(alloc, word)?;
    nearest(alloc, word, best, SYNC_CALLS)
}

/// The nearest of the calls on data queues and pools, and of those before them in the list.
#[tactic(auto, unfolding(crate::specs::Near::near_buffer_call))]
fn near_buffer_call(alloc: Global, word: &[u8]) -> Result<Option<&'static [u8]>, AllocError>
    ensures { IfOk result (λ found. option_copied found ≡ spec.near_buffer_call word.now) }
{
    let best = near_sync_call(alloc, word)?;
    nearest(alloc, word, best, BUFFER_CALLS)
}

/// The nearest of the calls on cyclic handlers and alarms, and of those before them in the list.
#[tactic(auto, unfolding(crate::specs::Near::near_time_call))]
fn near_time_call(alloc: Global, word: &[u8]) -> Result<Option<&'static [u8]>, AllocError>
    ensures { IfOk result (λ found. option_copied found ≡ spec.near_time_call word.now) }
{
    let best = near_buffer_call(alloc, word)?;
    nearest(alloc, word, best, TIME_CALLS)
}

/// The nearest of the calls on the processors and the state of dispatching, and of those before them in the list.
#[tactic(auto, unfolding(crate::specs::Near::near_system_call))]
fn near_system_call(alloc: Global, word: &[u8]) -> Result<Option<&'static [u8]>, AllocError>
    ensures { IfOk result (λ found. option_copied found ≡ spec.near_system_call word.now) }
{
    let best = near_time_call(alloc, word)?;
    nearest(alloc, word, best, SYSTEM_CALLS)
}

/// The nearest of the calls on spin locks, and of those before them in the list.
#[tactic(auto, unfolding(crate::specs::Near::near_spin_call))]
fn near_spin_call(alloc: Global, word: &[u8]) -> Result<Option<&'static [u8]>, AllocError>
    ensures { IfOk result (λ found. option_copied found ≡ spec.near_spin_call word.now) }
{
    let best = near_system_call(alloc, word)?;
    nearest(alloc, word, best, SPIN_CALLS)
}

/// The call that is nearest to a word: the first of the nearest in the order of the list, if one is near.
#[tactic(auto, unfolding(crate::specs::Near::near_call))]
pub fn near_call(alloc: Global, word: &[u8]) -> Result<Option<&'static [u8]>, AllocError>
    ensures { IfOk result (λ found. option_copied found ≡ spec.near_call word.now) }
{
    let best = near_spin_call(alloc, word)?;
    nearer(alloc, word, best, form(Call::RetHdr).text)
}

/// The statement that is nearest to a word: the first of the nearest in the order of the list, if one is near.
#[tactic(auto, unfolding(crate::specs::Near::near_statement))]
pub fn near_statement(alloc: Global, word: &[u8]) -> Result<Option<&'static [u8]>, AllocError>
    ensures { IfOk result (λ found. option_copied found ≡ spec.near_statement word.now) }
{
    nearest(alloc, word, None, &STATEMENT_NAMES)
}

/// The first of these codes whose name begins with a word.
fn find_code(all: &[Code], word: &[u8]) -> Option<Code>
    ensures { result ≡ find (λ code. starts_with ◌==◌ (codes.name_of code) word.now) all.now }
{
    for code in all {
        if Code::name(*code).as_bytes().starts_with(word) {
            return Some(*code);
        }
    }
    None
}

/// The first code whose name begins with a word of three bytes at least.
#[tactic(auto, unfolding(crate::specs::Near::code_begun))]
fn code_begun(word: &[u8]) -> Option<&'static [u8]>
    ensures { option_copied result ≡ spec.code_begun word.now }
{
    if word.len() < 3 {
        return None;
    }
    match find_code(&Code::ALL, word) {
        Some(code) => Some(Code::name(code).as_bytes()),
        None => None,
    }
}

/// The call or code that is nearest to a word: the first of the nearest in this order, if one is near, or else the first code that begins so.
#[tactic(auto, unfolding(crate::specs::Near::near_answer))]
pub fn near_answer(alloc: Global, word: &[u8]) -> Result<Option<&'static [u8]>, AllocError>
    ensures { IfOk result (λ found. option_copied found ≡ spec.near_answer word.now) }
{
    let best = near_call(alloc, word)?;
    let best = nearest(alloc, word, best, &Code::ALL)?;
    Ok(best.or(code_begun(word)))
}

/// The call, statement or code that is nearest to a word: the first of the nearest in this order, if one is near, or else the first code
/// that begins so.
#[tactic(auto, unfolding(crate::specs::Near::near_word))]
pub fn near_word(alloc: Global, word: &[u8]) -> Result<Option<&'static [u8]>, AllocError>
    ensures { IfOk result (λ found. option_copied found ≡ spec.near_word word.now) }
{
    let best = near_call(alloc, word)?;
    let best = nearest(alloc, word, best, &STATEMENT_NAMES)?;
    let best = nearest(alloc, word, best, &Code::ALL)?;
    Ok(best.or(code_begun(word)))
}

/// The attribute that is nearest to a word, of those that such an object may have: the first of the nearest in their order, if one is near.
#[tactic(auto, unfolding(crate::specs::Near::near_attribute))]
pub fn near_attribute(
    alloc: Global,
    kind: ObjectKind,
    word: &[u8],
) -> Result<Option<&'static [u8]>, AllocError>
    ensures { IfOk result (λ found. option_copied found ≡ spec.near_attribute kind word.now) }
{
    nearest(alloc, word, None, allowed(kind))
}
