//! All answers in one XML text, as tools for JUnit read it.
ghost use Rattle.std.specs.Prelude.{◌≡◌, IfOk};
ghost use Rattle.fmp_out.specs.Putting.{Adds};
ghost use Rattle.fmp_cli_questions.specs.Answers as spec;

use crate::answers::{Judgement, Reply, count_of};
use crate::lines::{put_counted, put_words};
use fmp_out::Text;
use std::alloc::{AllocError, Global};

/// What stands before the answer to a question that is not passed.
pub const MESSAGE: &[u8] = b" message=\"";

/// What stands before the name of a case.
pub const CASE: &[u8] = b"<testcase classname=\"fmpsim explore\" name=\"";

/// What stands before the seconds that a case took.
pub const TIME: &[u8] = b"\" time=\"";

/// What stands before the number of those cases that are wrong.
pub const FAILURES: &[u8] = b"\" failures=\"";

/// What stands before the number of those that are not known.
pub const ERRORS: &[u8] = b"\" errors=\"";

/// What stands after all cases.
pub const END: &[u8] = b"</testsuite>\n";

/// Adds a byte as it stands in a text of XML, within quotation marks or not.
fn put_byte(out: &mut Text, byte: u8)
    ensures { Adds (spec.escaped_byte byte) out.old out.new }
{
    match byte {
        b'&' => out.put(b"&amp;"),
        b'<' => out.put(b"&lt;"),
        b'>' => out.put(b"&gt;"),
        b'"' => out.put(b"&quot;"),
        _ => out.put_byte(byte),
    }
}

/// Adds bytes, likewise.
fn put_escaped(out: &mut Text, bytes: &[u8])
    ensures { Adds (spec.escaped bytes.now) out.old out.new }
{
    for byte in bytes {
        put_byte(out, *byte);
    }
}

/// Adds the answer to a question that is not passed, and the question.
fn put_why(out: &mut Text, reply: &Reply)
    ensures { Adds (spec.why reply.now) out.old out.new }
{
    out.put(MESSAGE);
    put_words(out, reply.answer);
    out.put(b"\">");
    put_escaped(out, reply.row.question());
}

/// Adds why a case is not passed, in an element of this name.
fn put_reason(out: &mut Text, tag: &[u8], reply: &Reply)
    ensures { Adds (spec.reason tag.now reply.now) out.old out.new }
{
    out.put(b"\"><");
    out.put(tag);
    put_why(out, reply);
    out.put(b"</");
    out.put(tag);
    out.put(b"></testcase>\n");
}

/// Adds how a case ends.
fn put_case_end(out: &mut Text, reply: &Reply)
    ensures { Adds (spec.case_end (spec.judgement reply.now) reply.now) out.old out.new }
{
    match reply.judgement() {
        Judgement::Right => out.put(b"\"/>\n"),
        Judgement::Wrong => put_reason(out, b"failure", reply),
        Judgement::Unknown => put_reason(out, b"error", reply),
    }
}

/// Adds words, and a name after them.
#[tactic(auto, unfolding(crate::specs::Answers::named))]
fn put_named(out: &mut Text, words: &[u8], name: &[u8])
    ensures { Adds (spec.named words.now name.now) out.old out.new }
{
    out.put(words);
    put_escaped(out, name);
}

/// Adds how long a case took, in seconds with three digits after the point.
#[tactic(auto, unfolding(crate::specs::Answers::timed, crate::specs::Answers::counted))]
fn put_time(out: &mut Text, thousandths: u64)
    ensures { Adds (spec.timed thousandths) out.old out.new }
{
    out.put(TIME);
    out.put_number(thousandths / 1000);
    out.put_byte(b'.');
    out.put_number(thousandths / 100 % 10);
    out.put_number(thousandths / 10 % 10);
    out.put_number(thousandths % 10);
}

/// Adds the case of an answer.
#[tactic(auto, unfolding(crate::specs::Answers::case_of))]
fn put_case(out: &mut Text, reply: &Reply)
    ensures { Adds (spec.case_of reply.now) out.old out.new }
{
    put_named(out, CASE, reply.row.name());
    put_time(out, reply.thousandths);
    put_case_end(out, reply);
}

/// Adds the case of each answer.
fn put_cases(out: &mut Text, replies: &[Reply])
    ensures { Adds (spec.cases_of replies.now) out.old out.new }
{
    for reply in replies {
        put_case(out, reply);
    }
}

/// Adds how many cases there are, and how many of them are wrong and not known.
#[tactic(auto, unfolding(crate::specs::Answers::counts))]
fn put_counts(out: &mut Text, replies: &[Reply])
    ensures { Adds (spec.counts replies.now) out.old out.new }
{
    out.put_number(replies.len() as u64);
    put_counted(out, FAILURES, count_of(Judgement::Wrong, replies));
    put_counted(out, ERRORS, count_of(Judgement::Unknown, replies));
}

/// Adds all cases with their counts, after words.
#[tactic(auto, unfolding(crate::specs::Answers::suite))]
fn put_suite(out: &mut Text, words: &[u8], replies: &[Reply])
    ensures { Adds (spec.suite words.now replies.now) out.old out.new }
{
    out.put(words);
    put_counts(out, replies);
    out.put(b"\">\n");
    put_cases(out, replies);
    out.put(END);
}

/// The text with these answers. The error is want of memory.
pub fn junit_text(alloc: Global, replies: &[Reply]) -> Result<Vec<u8>, AllocError>
    ensures { IfOk result (λ text. text.items ≡ spec.junit_text replies.now) }
{
    let mut text = Text::new(alloc);
    put_suite(
        &mut text,
        b"<?xml version=\"1.0\" encoding=\"UTF-8\"?>\n<testsuite name=\"fmpsim explore\" tests=\"",
        replies,
    );
    text.finish()
}
