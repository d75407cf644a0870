//! Reading a question.
ghost use Rattle.std.specs.Prelude.{◌≡◌, ◌≢◌, Ok, Err, IfOk, IfErr};
ghost use Rattle.fmp_search_question.specs.Reading as spec;

use crate::draft::Draft;
use crate::fault::ReadFault;
use crate::resolving::resolved;
use fmp_bytes::cut;
use fmp_names::Names;
use fmp_search_pattern::Question;
use std::alloc::Global;

/// The question of a text as it is written, each pattern as one of a record, or the text's first fault.
#[tactic(auto, unfolding(crate::specs::Reading::written_in))]
fn read_written(alloc: Global, names: &Names, text: &[u8]) -> Result<Question, ReadFault>
    ensures ok { IfOk result (λ q. spec.written_in names.now text.now ≡ Ok q) }
    ensures err { IfErr result (λ fault. fault ≢ ReadFault.Memory → spec.written_in names.now text.now ≡ Err (spec.report fault)) }
{
    let mut draft = Draft::new(alloc);
    let mut rest = Some(text);
    while let Some(words) = rest {
        let (word, after) = cut(b' ', words);
        match draft.add(names, word) {
            Err(_) => return Err(ReadFault::Memory),
            Ok(Some(fault)) => return Err(ReadFault::Text(fault, text.len() - words.len())),
            Ok(None) => rest = after,
        }
    }
    draft.end(text)
}

/// The question of a text, over a configuration with these names, or its first fault. docs/FORMATS.md has the form of a question.
#[tactic(auto, unfolding(crate::specs::Reading::question_in))]
pub fn read_question(alloc: Global, names: &Names, text: &[u8]) -> Result<Question, ReadFault>
    ensures ok { IfOk result (λ q. spec.question_in names.now text.now ≡ Ok q) }
    ensures err { IfErr result (λ fault. fault ≢ ReadFault.Memory → spec.question_in names.now text.now ≡ Err (spec.report fault)) }
{
    let written = read_written(alloc, names, text)?;
    match resolved(alloc, names, &written) {
        Ok(question) => Ok(question),
        Err(_) => Err(ReadFault::Memory),
    }
}
