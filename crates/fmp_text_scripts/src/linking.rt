//! Labels, and the jumps to them by their names.
ghost use Rattle.std.specs.Prelude.{◌≡◌};
ghost use Rattle.fmp_text_scripts.specs.Linking as spec;

use crate::ways::{Pattern, Way};
use fmp_text::{TextFault, TextKind};
use std::alloc::Global;
use std::marker::Model;

/// The name of a label, as it stands in the text.
#[derive(Drop)]
pub struct Name<'t> {
    text: &'t [u8],
}

impl<'t> Model for Name<'t> {
    ghost use Rattle.std.specs.Prelude.{ℕ, List};

    ghost Value = { List ℕ };

    ghost view = { λ n. n.text.now };
}

impl<'t> Name<'t> {
    /// These bytes.
    pub fn new(text: &'t [u8]) -> Name<'t>
        ensures { result ≡ text.now }
    {
        Name { text }
    }

    /// The bytes of the name.
    pub fn text(&self) -> &'t [u8]
        ensures { result.now ≡ self.now }
    {
        self.text
    }

    /// Whether two names have the same bytes.
    fn is_same(&self, other: &Name<'_>) -> bool
        ensures { result ≡ spec.is_same self.now other.now }
    {
        self.text == other.text
    }
}

/// After so many calls, where the last of them answered so, the script goes on at the label of this name.
#[derive(Drop)]
pub struct Jump<'t> {
    pub after: usize,
    pub answer: Pattern,
    pub name: Name<'t>,
}

/// The label of this name stands after so many calls.
#[derive(Drop)]
pub struct Label<'t> {
    pub name: Name<'t>,
    pub at: usize,
}

/// Whether a way is for each answer.
pub fn is_any(pattern: Pattern) -> bool
    ensures { result ≡ spec.is_any pattern }
{
    matches!(pattern, Pattern::Any)
}

/// Whether a label has this name.
pub fn has_label(labels: &[Label<'_>], name: &Name<'_>) -> bool
    ensures { result ≡ spec.has_label labels.now name.now }
{
    labels.iter().any(|label| label.name.is_same(name))
}

/// After how many calls the first label of this name stands.
fn place_in(labels: &[Label<'_>], name: &Name<'_>) -> Option<usize>
    ensures { result ≡ spec.place_in labels.now name.now }
{
    let label = labels.iter().find(|label| label.name.is_same(name))?;
    Some(label.at)
}

/// The ways of jumps. The error is a jump whose name no label has, in the line of this number, or want of memory.
pub fn link(
    alloc: Global,
    line: u32,
    labels: &[Label<'_>],
    jumps: &[Jump<'_>],
) -> Result<Vec<Way>, TextFault>
    ensures { spec.Links (spec.linked labels.now jumps.now) line result }
{
    let mut ways = Vec::new(alloc);
    for jump in jumps {
        let Some(to) = place_in(labels, &jump.name) else {
            return Err(TextFault {
                kind: TextKind::UnknownName,
                line,
            });
        };
        ways.push(Way {
            after: jump.after,
            answer: jump.answer,
            to,
        })?;
    }
    Ok(ways)
}
