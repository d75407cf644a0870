//! Whether a text looks like one of the static API files of a TOPPERS project.
ghost use Rattle.std.specs.Prelude.{◌≤◌, ◌+◌, ◌<◌, ◌^◌, length};
ghost use Rattle.fmp_config.specs.Limits.{most_bytes};

use fmp_bytes::following;
use fmp_cli_help::{is_class_word, is_project_word};
use fmp_config::{ConfigFault, ConfigKind};
use fmp_config_statements::Lexer;
use fmp_out::Text;

/// Where a text is from, as far as its words say.
#[derive(Clone, Copy)]
pub enum Origin {
    Unknown,
    /// It names classes that a kernel brings with it.
    Classes,
    /// It has words that stand in no configuration.
    Project,
    /// It defines classes, as a configuration does.
    Own,
}

/// Where a text is from, by one word more.
fn origin_after(origin: Origin, word: &[u8]) -> Origin {
    if matches!(origin, Origin::Project) || is_project_word(word) {
        Origin::Project
    } else if matches!(origin, Origin::Own) || word == b"DEF_CLASS".as_slice() {
        Origin::Own
    } else if is_class_word(word) {
        Origin::Classes
    } else {
        origin
    }
}

/// Where a text is from.
fn origin_of(text: &[u8]) -> Origin
    requires { length text.now + 1 < 2 ^ 32 }
{
    let mut lexer = Lexer::new(text);
    let mut origin = Origin::Unknown;
    while let Some(token) = lexer.next_token() {
        origin = origin_after(origin, token.text());
    }
    origin
}

/// Whether a fault may come of a text that is none for this program.
fn may_be_of_project(kind: ConfigKind) -> bool {
    matches!(
        kind,
        ConfigKind::Syntax
            | ConfigKind::Unsupported
            | ConfigKind::UnknownClass
            | ConfigKind::OutOfRange
            | ConfigKind::NoProcessors
    )
}

/// What is told of a text that looks like a file of a project.
const PROJECT: &[u8] =
    b"  This looks like a file of a TOPPERS project: `tools/from-toppers` makes a configuration of it.\n";

/// Adds that a text with this fault looks like a file of a project, where it does, unless the fault is a directive, of which that is told.
pub(crate) fn put_project_line(out: &mut Text, text: &[u8], fault: &ConfigFault)
    requires { length text.now ≤ most_bytes }
{
    if !may_be_of_project(fault.kind) || following(b'#', fault.word.as_bytes()).is_some() {
        return;
    }
    if matches!(origin_of(text), Origin::Classes | Origin::Project) {
        out.put(PROJECT);
    }
}
