//! A verdict as it is written.
ghost use Rattle.std.specs.Prelude.{◌≡◌};
ghost use Rattle.fmp_run_texts.specs.Verdicts as spec;

use arrayvec::ArrayString;
use fmp_trace_check::Verdict;
use itoa::Buffer;

/// How many bytes the longest verdict has, `no 4294967295` and a line feed.
const MOST_VERDICT: usize = 14;

/// A verdict as it is written: `yes`, or `no` and the number of the line, with its line feed.
pub fn verdict_text(verdict: Verdict) -> ArrayString<MOST_VERDICT>
    ensures { result.bytes ≡ spec.verdict_text verdict }
{
    let mut text = ArrayString::new();
    match verdict {
        Verdict::Yes => text.push_str("yes\n"),
        Verdict::No(line) => {
            text.push_str("no ");
            text.push_str(Buffer::new().format(line));
            text.push_str("\n");
        }
    }
    text
}
