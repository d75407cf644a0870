//! The verdict on a partial trace, and how it is written.
ghost use Rattle.std.specs.Prelude.{◌≡◌};
ghost use Rattle.fmp_run_partial.specs.Written as spec;

use arrayvec::ArrayString;
use fmp_run_texts::Status;
use itoa::Buffer;

/// How many bytes the longest verdict has, `yes to 4294967295` and a line feed.
const MOST_VERDICT: usize = 18;

/// What is found of the lines of a partial trace.
#[derive(Clone, Copy)]
pub enum Found {
    /// Each is the machine's own, with some parts left out, in some order within their bounds.
    Yes,
    /// With this line there is no such order, and without it and those behind it there is one.
    No(u32),
    /// There are more places than there is room for.
    NotKnown,
}

/// What is found of the lines of a partial trace, and by what order of them.
#[derive(Drop)]
pub(crate) struct Finding {
    pub(crate) found: Found,
    /// Where lines say something of orders, the lines one after the other: in a right order of all, or of those before the line with which there is none.
    pub(crate) order: Option<Vec<u32>>,
}

/// The verdict on a partial trace.
#[derive(Clone, Copy)]
pub enum PartialVerdict {
    /// Each line is the machine's own, with some parts left out: as the lines stand, or in some order within their bounds where they have some.
    Yes,
    /// So is each line, and the trace ends at this line of its log.
    YesTo(u32),
    /// This line is the first that is not, or with which there is no such order.
    No(u32),
    /// Not known: the orders lead to more places than there is room for.
    NotKnown,
}

impl PartialVerdict {
    /// The verdict on lines of a text that ends at this line of its log, if it says so.
    pub(crate) const fn to(found: Found, ends: Option<u32>) -> PartialVerdict
        ensures { result ≡ spec.verdict_to found ends }
    {
        match (found, ends) {
            (Found::Yes, None) => PartialVerdict::Yes,
            (Found::Yes, Some(line)) => PartialVerdict::YesTo(line),
            (Found::No(line), _) => PartialVerdict::No(line),
            (Found::NotKnown, _) => PartialVerdict::NotKnown,
        }
    }

    /// How a run ends that came to this verdict: where the trace ends before its log, or there was no room, it is as where a limit was met.
    pub const fn status(self) -> Status
        ensures { result ≡ spec.status_of_partial self }
    {
        match self {
            PartialVerdict::Yes => Status::Done,
            PartialVerdict::YesTo(_) | PartialVerdict::NotKnown => Status::Limit,
            PartialVerdict::No(_) => Status::Different,
        }
    }

    /// The verdict as it is written: `yes`, `yes to` and the line of the log, `no` and the number of the line, or `not known`, with its line feed.
    pub(crate) fn text(self) -> ArrayString<MOST_VERDICT>
        ensures { result.bytes ≡ spec.partial_text self }
    {
        let mut text = ArrayString::new();
        match self {
            PartialVerdict::Yes => text.push_str("yes\n"),
            PartialVerdict::YesTo(line) => {
                text.push_str("yes to ");
                text.push_str(Buffer::new().format(line));
                text.push_str("\n");
            }
            PartialVerdict::No(line) => {
                text.push_str("no ");
                text.push_str(Buffer::new().format(line));
                text.push_str("\n");
            }
            PartialVerdict::NotKnown => text.push_str("not known\n"),
        }
        text
    }
}
