//! The place of a fault and what stands beside it, by the text that has the fault, as the run read it. That a text has the fault, and in which line, the
//! run says: no text is read for it once more. Of the configuration the names are read, which those in the other text are compared with.
ghost use Rattle.std.specs.Prelude.{◌≤◌, length};
ghost use Rattle.fmp_config.specs.Limits.{most_bytes};

use fmp_cli_diagnostics::Spot;
use fmp_cli_hints::{TextForm, text_advice, text_context, text_spot};
use fmp_cli_hints_config::{config_context, config_spot, text_hint, thing_hint};
use fmp_cli_hints_question::question_context;
use fmp_config::{Config, ConfigFault, MOST_BYTES as MOST_CONFIG_BYTES, read_config};
use fmp_run_texts::RunFault;
use fmp_search_question::QuestionFault;
use fmp_text::{TextFault, TextKind};
use std::alloc::Global;

/// Lines of a text as a run read them: all of them, or the last ones.
#[derive(Clone, Copy)]
pub struct Lines<'a> {
    pub text: &'a [u8],
    /// How many lines of the text come before them.
    pub before: u32,
}

/// The place of a fault: in the configuration, or in lines of another text.
#[derive(Drop)]
pub enum Place<'a> {
    Config(ConfigPlace<'a>),
    Text(TextPlace<'a>),
}

/// The place of a fault in a configuration that is not too long.
#[derive(Drop)]
pub struct ConfigPlace<'a> {
    text: &'a [u8],
    fault: &'a ConfigFault,
    ghost few: { length text.now ≤ most_bytes },
}

/// The place of a fault in lines of a text.
#[derive(Drop)]
pub struct TextPlace<'a> {
    /// The configuration, whose names stand in the text.
    config: Config,
    form: TextForm,
    lines: Lines<'a>,
    /// The fault, with the number of its line among these.
    fault: TextFault,
}

/// A fault with the number of its line among lines that were kept, if it is in one of them.
fn fault_among(lines: Lines<'_>, fault: TextFault) -> Option<TextFault> {
    let line = fault.line.checked_sub(lines.before)?;
    if line == 0 || fault.kind == TextKind::Memory {
        return None;
    }
    Some(TextFault {
        kind: fault.kind,
        line,
    })
}

/// The place of a fault in lines of a text of this form, if it is in one of them.
fn text_place<'a>(
    alloc: Global,
    form: TextForm,
    config: &[u8],
    lines: Lines<'a>,
    fault: TextFault,
) -> Option<TextPlace<'a>> {
    Some(TextPlace {
        fault: fault_among(lines, fault)?,
        config: read_config(alloc, config).ok()?,
        form,
        lines,
    })
}

impl TextPlace<'_> {
    /// The line and the column of the caret, in the whole text.
    fn spot(&self, alloc: Global) -> Option<Spot> {
        let text = self.lines.text;
        let before = self.lines.before as usize;
        let spot = text_spot(alloc, self.config.names(), self.form, text, self.fault).ok()?;
        Some(match spot {
            Spot::Nowhere => Spot::Nowhere,
            Spot::Line(line) => Spot::Line(line.saturating_add(before)),
            Spot::Column(line, column) => Spot::Column(line.saturating_add(before), column),
        })
    }

    /// What stands beside the fault.
    fn beside(&self, alloc: Global) -> Option<Vec<u8>> {
        let text = self.lines.text;
        let names = self.config.names();
        let mut beside = text_context(alloc, names, self.form, text, self.fault).ok()?;
        let hint = text_hint(alloc, &self.config, self.form, text, self.fault).ok()?;
        beside.extend_from_slice(hint.as_slice()).ok()?;
        Some(beside)
    }
}

/// The place of a fault in a configuration, unless that is too long.
fn config_place<'a>(text: &'a [u8], fault: &'a ConfigFault) -> Option<ConfigPlace<'a>> {
    if text.len() <= MOST_CONFIG_BYTES {
        Some(ConfigPlace { text, fault })
    } else {
        None
    }
}

impl<'a> Place<'a> {
    /// The place of a fault in the configuration, or in lines of another text of this form. There is none where these do not have the line at fault, where the
    /// configuration is too long, and where memory is wanting.
    pub fn of_fault(
        alloc: Global,
        form: TextForm,
        config: &'a [u8],
        lines: Option<Lines<'a>>,
        fault: &'a RunFault,
    ) -> Option<Place<'a>> {
        match fault {
            RunFault::Config(fault) => Some(Place::Config(config_place(config, fault)?)),
            RunFault::Text(fault) => {
                let place = text_place(alloc, form, config, lines?, *fault)?;
                Some(Place::Text(place))
            }
            _ => None,
        }
    }

    /// Its line and its column, as far as these are known.
    pub fn spot(&self, alloc: Global) -> Option<Spot> {
        match self {
            Place::Config(place) => Some(config_spot(place.text, place.fault)),
            Place::Text(place) => place.spot(alloc),
        }
    }

    /// What stands beside the fault, unless memory is wanting.
    pub fn beside(&self, alloc: Global) -> Option<Vec<u8>> {
        match self {
            Place::Config(place) => config_context(alloc, place.text, place.fault).ok(),
            Place::Text(place) => place.beside(alloc),
        }
    }
}

/// What is to be done about a fault of another text than the configuration, where its line cannot be shown.
pub fn advice(alloc: Global, fault: &RunFault) -> Option<Vec<u8>> {
    match fault {
        RunFault::Text(fault) if fault.kind != TextKind::Memory => {
            text_advice(alloc, fault.kind).ok()
        }
        _ => None,
    }
}

/// What stands beside a fault of a question that is asked over this configuration.
pub fn question_beside(
    alloc: Global,
    config: &[u8],
    question: &str,
    fault: QuestionFault,
    place: usize,
) -> Option<Vec<u8>> {
    let config = read_config(alloc, config).ok()?;
    question_context(alloc, config.names(), question.as_bytes(), fault, place).ok()
}

/// What is near to a name that nothing in a configuration has.
pub fn name_hint(alloc: Global, config: &[u8], name: &str) -> Option<Vec<u8>> {
    let config = read_config(alloc, config).ok()?;
    thing_hint(alloc, &config, name.as_bytes()).ok()
}
