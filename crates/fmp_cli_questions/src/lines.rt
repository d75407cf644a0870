//! A line of each answer.
ghost use Rattle.std.specs.Prelude.{◌≡◌, IfOk};
ghost use Rattle.fmp_out.specs.Putting.{Adds};
ghost use Rattle.fmp_cli_questions.specs.Answers as spec;

use crate::answers::{Answer, Judgement, Reply};
use fmp_out::Text;
use std::alloc::{AllocError, Global};

/// Adds words, and a number after them.
#[tactic(auto, unfolding(crate::specs::Answers::counted))]
pub(crate) fn put_counted(out: &mut Text, words: &[u8], number: usize)
    ensures { Adds (spec.counted words.now number) out.old out.new }
{
    out.put(words);
    out.put_number(number as u64);
}

/// Adds an answer in words.
pub(crate) fn put_words(out: &mut Text, answer: Answer)
    ensures { Adds (spec.words_of answer) out.old out.new }
{
    match answer {
        Answer::Never => out.put(b"never"),
        Answer::Shown(lines) => {
            put_counted(out, b"shown in ", lines);
            out.put(b" lines");
        }
        Answer::NotWithin(lines) => put_counted(out, b"not within ", lines as usize),
    }
}

/// Adds the name of a question, and its answer.
fn put_reported(out: &mut Text, reply: &Reply)
    ensures { Adds (spec.report reply.now) out.old out.new }
{
    out.put(reply.row.name());
    out.put(b": ");
    put_words(out, reply.answer);
}

/// How a line begins.
fn grade(judgement: Judgement) -> &'static [u8]
    ensures { result.now ≡ spec.grade judgement }
{
    match judgement {
        Judgement::Right => b"ok ",
        Judgement::Wrong => b"not ok ",
        Judgement::Unknown => b"not known ",
    }
}

/// The line of an answer. The error is want of memory.
pub fn plain_line(alloc: Global, reply: &Reply) -> Result<Vec<u8>, AllocError>
    ensures { IfOk result (λ line. line.items ≡ spec.plain_line reply.now) }
{
    let mut line = Text::new(alloc);
    line.put(grade(reply.judgement()));
    put_reported(&mut line, reply);
    line.put_byte(b'\n');
    line.finish()
}

/// What stands before the number of answers in a text in the form of TAP.
pub const TAP: &[u8] = b"TAP version 13\n1..";

/// The first lines of a text in the form of TAP, for so many answers. The error is want of memory.
pub fn tap_head(alloc: Global, count: usize) -> Result<Vec<u8>, AllocError>
    ensures { IfOk result (λ head. head.items ≡ spec.tap_head count) }
{
    let mut head = Text::new(alloc);
    put_counted(&mut head, TAP, count);
    head.put_byte(b'\n');
    head.finish()
}

/// How a line in the form of TAP begins.
fn tap_grade(judgement: Judgement) -> &'static [u8]
    ensures { result.now ≡ spec.tap_grade judgement }
{
    match judgement {
        Judgement::Right => b"ok ",
        Judgement::Wrong | Judgement::Unknown => b"not ok ",
    }
}

/// What stands between the name of a question and its answer: the answer is a comment, since a name has to be the same in each run.
fn tap_comment(judgement: Judgement) -> &'static [u8]
    ensures { result.now ≡ spec.tap_comment judgement }
{
    match judgement {
        Judgement::Right | Judgement::Wrong => b"\n# ",
        Judgement::Unknown => b"\n# not known: ",
    }
}

/// The lines of an answer in the form of TAP, which is that of this number, from 1. The error is want of memory.
pub fn tap_line(alloc: Global, number: usize, reply: &Reply) -> Result<Vec<u8>, AllocError>
    ensures { IfOk result (λ line. line.items ≡ spec.tap_line number reply.now) }
{
    let mut line = Text::new(alloc);
    put_counted(&mut line, tap_grade(reply.judgement()), number);
    line.put(b" - ");
    line.put(reply.row.name());
    line.put(tap_comment(reply.judgement()));
    put_words(&mut line, reply.answer);
    line.put_byte(b'\n');
    line.finish()
}
